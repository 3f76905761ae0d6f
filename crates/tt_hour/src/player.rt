//! The four clients of the hour, by the order in which they enter.
ghost use Rattle.std.specs.Prelude.{◌≡◌, ◌≤◌, true, length};
ghost use Rattle.tt_frame.specs.Text.{is_plain};
ghost use Rattle.tt_hour.specs.Hour.{name_of};
ghost use Rattle.tt_hour.specs.Left.{number_of};

use tt_frame::Name;

/// A client of the hour.
#[derive(Clone, Copy)]
pub enum Player {
    /// The first one.
    First,
    /// The second one.
    Second,
    /// The third one.
    Third,
    /// The one that joins in the midst.
    Fourth,
}

impl Player {
    /// The number of its connection.
    pub fn number(self) -> u32
        ensures { result ≡ number_of self }
    {
        match self {
            Player::First => 1,
            Player::Second => 2,
            Player::Third => 3,
            Player::Fourth => 4,
        }
    }

    /// Its name.
    pub fn name(self) -> Name
        ensures { result ≡ name_of (number_of self) }
    {
        match self {
            Player::First => name(b"p1"),
            Player::Second => name(b"p2"),
            Player::Third => name(b"p3"),
            Player::Fourth => name(b"p4"),
        }
    }
}

/// A name of printable ASCII.
fn name(bytes: &[u8]) -> Name
    requires plain { is_plain bytes.now ≡ true }
    requires some { 1 ≤ length bytes.now }
    requires few { length bytes.now ≤ 31 }
    ensures { result ≡ bytes.now }
{
    match Name::new(bytes) {
        Some(name) => name,
        None => unreachable!(),
    }
}
