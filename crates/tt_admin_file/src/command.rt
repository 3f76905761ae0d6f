//! The lines of a command file.
use tt_frame::LongText;

/// A line of a command file.
#[derive(Debug, PartialEq, Eq, Drop)]
pub enum Command {
    /// `ping N`: a ping with that number.
    Ping(u32),
    /// `update TYPE BITS`: what the admin wants to be told of that type.
    Update(u16, u16),
    /// `poll TYPE ID`: that type once, of that client or company.
    Poll(u8, u32),
    /// `chat TEXT`: a line for all.
    Chat(LongText<899>),
    /// `rcon TEXT`: a line for the server's console.
    Rcon(LongText<899>),
    /// `wait N`: what stands behind it is sent only so many ticks later.
    Wait(u32),
    /// `quit`: the admin leaves.
    Quit,
}
