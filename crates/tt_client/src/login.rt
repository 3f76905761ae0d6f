//! What a client joins with.
ghost use Rattle.std.specs.Prelude.{◌≡◌};

use tt_frame::{Line, Name};

/// What a client joins with: what it says at its join, and what it answers where a password is wanted.
#[derive(Debug, PartialEq, Eq, Drop)]
pub struct Login {
    pub revision: Name,
    /// The version of its NewGRF files.
    pub grf: u32,
    /// At most 24 bytes.
    pub name: Name,
    /// The company that it wants: 255 none, 254 a new one.
    pub company: u8,
    /// The game's password, at most 32 bytes.
    pub password: Line,
    /// The company's password, at most 32 bytes.
    pub company_password: Line,
}

impl Login {
    /// The same login once more.
    pub fn copy(&self) -> Login
        ensures { result ≡ self.now }
    {
        Login {
            revision: self.revision.copy(),
            grf: self.grf,
            name: self.name.copy(),
            company: self.company,
            password: self.password.copy(),
            company_password: self.company_password.copy(),
        }
    }
}
