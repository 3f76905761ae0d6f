//! One line of the player's file.
use tt_world::Command;

/// What is to be done.
#[derive(Debug, PartialEq, Eq, Drop)]
pub enum Act {
    /// The client's lines are written.
    Print,
    /// The player ends.
    Quit,
    /// The client sends a command, for its own company.
    Do(Command),
}

/// A line: what is to be done, once the client runs at this frame or above.
#[derive(Debug, PartialEq, Eq, Drop)]
pub struct TimedLine {
    pub at: u32,
    pub act: Act,
}
