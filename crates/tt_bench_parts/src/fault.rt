//! How far a game came, and why nothing was measured.
use std::io;
use tt_frame::OutOfMemory;

/// The frame that was reached, and the world's first random word there.
#[derive(Clone, Copy, Debug, PartialEq, Eq)]
pub struct Reached {
    pub frame: u32,
    pub word: u32,
}

/// Why the work was not done.
#[derive(Clone, Copy, Debug, PartialEq, Eq)]
pub enum Fault {
    /// A client did not play to the end, or what should agree does not.
    Apart,
    /// The clock could not be read, or writing failed.
    Io,
    /// Memory ran out.
    Memory,
}

impl From<io::Error> for Fault {
    fn from(_: io::Error) -> Fault {
        Fault::Io
    }
}

impl From<OutOfMemory> for Fault {
    fn from(_: OutOfMemory) -> Fault {
        Fault::Memory
    }
}
