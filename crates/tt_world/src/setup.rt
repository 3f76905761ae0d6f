//! What a game is made from.
//!
//! A setup is plain data: `Setup::plain()` gives the defaults, and each field may be changed before the game is made.
ghost use Rattle.std.specs.Prelude.{◌≡◌, ◌≤◌, ◌↔◌, IsTrue, length, codes};
ghost use Rattle.tt_world.specs.Setup.{plain, Fits, IsFrom};

use crate::founding::name_of;
use tt_frame::{Line, Name};

/// How many bytes a password may have.
const MOST_PASSWORD: usize = 32;

/// The settings of a game. Time limits are in ticks, of which a day has 74.
#[derive(Debug, PartialEq, Eq, Drop)]
pub struct Setup {
    /// Both random words at the start.
    pub seed: u32,
    /// The server's name.
    pub name: Name,
    /// The revision of the game, which a client's has to be.
    pub revision: Name,
    /// The server's id, with which passwords are salted.
    pub id: Name,
    /// What a client has to know; empty for none.
    pub password: Line,
    /// What an admin has to know; empty for no admins.
    pub admin_password: Line,
    /// By how many frames the greatest permitted frame runs ahead.
    pub frame_freq: u8,
    /// Each so many frames the random word is told, by which clients compare their worlds.
    pub sync_freq: u16,
    /// How many clients may be there at once.
    pub max_clients: u8,
    /// How long a client may take until it asks to join, and until it asks for the map.
    pub init: u16,
    /// How long a client may take for a password.
    pub pass_limit: u16,
    /// How long a client may take to download the map.
    pub download: u16,
    /// How long a client may take from its map to the server's frame.
    pub join: u16,
    /// How far a client that plays may fall behind.
    pub lag: u16,
    /// What the record of events may cost; the game ends there.
    pub cost: u64,
}

impl Setup {
    /// The defaults.
    pub fn plain() -> Setup
        ensures setup { result ≡ plain }
    {
        Setup {
            seed: 0,
            name: name_of(b"Game"),
            revision: name_of(b"13.4"),
            id: name_of(b"tt"),
            password: no_words(),
            admin_password: no_words(),
            frame_freq: 0,
            sync_freq: 100,
            max_clients: 25,
            init: 100,
            pass_limit: 65_535,
            download: 1_000,
            join: 500,
            lag: 500,
            cost: 1 << 30,
        }
    }

    /// Whether each number is in its range, and no password has more than 32 bytes.
    pub fn fits(&self) -> bool
        ensures fits { IsTrue result ↔ Fits self.now }
    {
        self.has_rates() && self.has_limits() && self.has_passwords()
    }

    /// Whether what is counted in frames, clients and bytes is in its range.
    fn has_rates(&self) -> bool
        ensures { IsTrue result ↔ (IsFrom 0 64 self.now.frame_freq × IsFrom 1 1000 self.now.sync_freq × IsFrom 1 255 self.now.max_clients
            × IsFrom 64 1073741824 self.now.cost) }
    {
        self.frame_freq <= 64
            && (1..=1_000).contains(&self.sync_freq)
            && self.max_clients >= 1
            && (64..=1_073_741_824).contains(&self.cost)
    }

    /// Whether each time limit is at least one tick.
    fn has_limits(&self) -> bool
        ensures { IsTrue result ↔ (IsFrom 1 65535 self.now.init × IsFrom 1 65535 self.now.pass_limit × IsFrom 1 65535 self.now.download
            × IsFrom 1 65535 self.now.join × IsFrom 1 65535 self.now.lag) }
    {
        self.init >= 1
            && self.pass_limit >= 1
            && self.download >= 1
            && self.join >= 1
            && self.lag >= 1
    }

    /// Whether the passwords are short enough.
    fn has_passwords(&self) -> bool
        ensures { IsTrue result ↔ ((length self.now.password ≤ 32) × (length self.now.admin_password ≤ 32)) }
    {
        self.password.bytes().len() <= MOST_PASSWORD
            && self.admin_password.bytes().len() <= MOST_PASSWORD
    }

    /// The same setup once more. It takes no memory.
    pub fn copy(&self) -> Setup
        ensures setup { result ≡ self.now }
    {
        Setup {
            seed: self.seed,
            name: self.name.copy(),
            revision: self.revision.copy(),
            id: self.id.copy(),
            password: self.password.copy(),
            admin_password: self.admin_password.copy(),
            frame_freq: self.frame_freq,
            sync_freq: self.sync_freq,
            max_clients: self.max_clients,
            init: self.init,
            pass_limit: self.pass_limit,
            download: self.download,
            join: self.join,
            lag: self.lag,
            cost: self.cost,
        }
    }
}

/// The empty line.
fn no_words() -> Line
    ensures { result ≡ codes "" }
{
    match Line::new(b"") {
        Some(line) => line,
        None => unreachable!(),
    }
}
