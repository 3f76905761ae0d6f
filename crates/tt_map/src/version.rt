//! What each map begins with: its tag, and the number of its version.
ghost use Rattle.std.specs.Prelude.{◌≡◌};
ghost use Rattle.tt_map.specs.Reading.{version_with};

/// The tag of a map.
pub(crate) const TAG: [u8; 4] = *b"OTTN";

/// The number of the first version, which stands behind the tag.
const FIRST_NUMBER: u32 = 0x0001_0000;

/// The number of the second version, the one that is written.
pub(crate) const SECOND_NUMBER: u32 = 0x0002_0000;

/// A version of maps. Both are read, and the second one is written.
#[derive(Clone, Copy, Debug, PartialEq, Eq)]
pub(crate) enum Version {
    /// A company's greatest loan is not told: it is 300,000.
    First,
    /// A company's greatest loan stands behind its loan.
    Second,
}

impl Version {
    /// The version with a number, where there is one.
    pub(crate) fn with(number: u32) -> Option<Version>
        ensures { result ≡ version_with number }
    {
        if number == SECOND_NUMBER {
            Some(Version::Second)
        } else if number == FIRST_NUMBER {
            Some(Version::First)
        } else {
            None
        }
    }
}
