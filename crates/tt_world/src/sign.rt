//! Signs on the map.
ghost use Rattle.std.specs.Prelude.{◌≡◌};

use tt_frame::Name;

/// A sign that a company has put up.
#[derive(Debug, PartialEq, Eq, Drop)]
pub struct Sign {
    /// Its id, below 1,000.
    pub id: u16,
    /// The number of the company that put it up.
    pub owner: u8,
    /// The tile that it stands at, below 1,048,576.
    pub tile: u32,
    /// What it says.
    pub text: Name,
}

impl Sign {
    /// The same sign once more. It takes no memory.
    pub fn copy(&self) -> Sign
        ensures sign { result ≡ self.now }
    {
        Sign {
            id: self.id,
            owner: self.owner,
            tile: self.tile,
            text: self.text.copy(),
        }
    }
}
