//! A line of a script that is no setting: an event, a step of an attached client, or an expected line of the report.
use crate::script::bytes::Bytes;
use tt_frame::{Line, Name};
use tt_world::Command;

/// One line of a script behind its settings. A connection is named by its number, in the order of the openings.
#[derive(Debug, Drop)]
pub enum Line1 {
    /// `open`: a connection at the main door.
    Open,
    /// `side`: a connection at the side door.
    Side,
    /// `bytes C HEX`: a piece of connection C.
    Bytes(u32, Bytes),
    /// `shut C`: connection C is closed.
    Shut(u32),
    /// `tick N`: so many ticks, 1 to 1,000,000.
    Tick(u32),
    /// `stop`: the server is stopped.
    Stop,
    /// `join NAME COMPANY PW CPW`: a connection at the main door with a client of that name, for that company, which knows
    /// these passwords of the game and of the company.
    Join(Name, u8, Line, Line),
    /// `up C N`: up to N bytes of client C, as one piece.
    Up(u32, u32),
    /// `down C N`: up to N bytes of connection C, to its client.
    Down(u32, u32),
    /// `run C N`: up to N frames of client C.
    Run(u32, u32),
    /// `pump C`: down, run and up as far as they go.
    Pump(u32),
    /// `do C ..`: a command of client C for its own company.
    Do(u32, Command),
    /// `forge C HEX`: bytes to client C that aren't of its stream.
    Forge(u32, Bytes),
    /// `= LINE`: a line that the report is to have.
    Expect(Bytes),
}

impl Line1 {
    ghost use Rattle.std.specs.Prelude.{◌≡◌, ◌≤◌};
    ghost use Rattle.tt_log.specs.Lines.{openings_of};

    /// How many connections it opens.
    pub fn openings(&self) -> u32
        ensures openings { result ≡ openings_of self.now }
        ensures few { result ≤ 1 }
    {
        match self {
            Line1::Open | Line1::Side | Line1::Join(_, _, _, _) => 1,
            Line1::Bytes(_, _) | Line1::Shut(_) | Line1::Tick(_) | Line1::Stop => 0,
            Line1::Up(_, _) | Line1::Down(_, _) | Line1::Run(_, _) | Line1::Pump(_) => 0,
            Line1::Do(_, _) | Line1::Forge(_, _) | Line1::Expect(_) => 0,
        }
    }
}
