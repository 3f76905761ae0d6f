//! What a client answers of itself.
use thiserror::Error;

/// How a client stands. The first of its ends stays.
#[derive(Clone, Copy, Debug, PartialEq, Eq)]
pub enum State {
    /// It has no map yet.
    Joining,
    /// It has its map, and plays.
    Running,
    /// It was ended with this code; 14 where the server was full, 12 where it was banned.
    Ended(u8),
    /// The game was over.
    Shutdown,
    /// It was told of this frame another word than its own.
    Desync { frame: u32, mine: u32, theirs: u32 },
    /// What begins at this byte of its stream is not permitted there.
    Wrong { at: u64 },
}

/// Why a command was not taken.
#[derive(Clone, Copy, Debug, PartialEq, Eq, Error)]
pub enum SubmitErr {
    /// The client has no map yet, or has ended.
    #[error("the client isn't running")]
    NotRunning,
    /// Memory ran out, and nothing has changed.
    #[error("memory ran out")]
    Memory,
}
