//! What comes to the members, and the time at which it comes.
use tt_frame::Line;
use tt_game::GameMsg;
use tt_rules::Live;
use tt_world::Command;

/// What comes to the members.
#[derive(Debug, Drop)]
pub enum Input {
    /// A connection was opened at the main door.
    Open { conn: u32 },
    /// A member said something.
    Msg { conn: u32, msg: GameMsg },
    /// A member said what spells nothing, or its stream broke.
    Bad { conn: u32 },
    /// A connection was shut.
    Shut { conn: u32 },
    /// The server orders a command of its own.
    Own { command: Command },
    /// The console ends a client.
    Kick { client: u32 },
    /// The server's own client says something in a scope.
    Say { scope: u8, to: u32, text: Line },
    /// A frame more.
    Tick,
}

/// The time, and what of the world the members look at.
#[derive(Clone, Copy, Debug, PartialEq, Eq)]
pub struct Now {
    /// The frame.
    pub frame: u32,
    /// The greatest permitted frame.
    pub top: u32,
    /// Which companies live.
    pub live: Live,
    /// How many bytes of the running download were not told yet; 0 where none runs.
    pub left: u32,
}
