//! How a run of the player ends.
ghost use Rattle.std.specs.Prelude.{◌≡◌};
ghost use Rattle.tt_session.specs.Ending.{status_of};

/// Why a run ended.
#[derive(Clone, Copy, Debug, PartialEq, Eq)]
pub enum PlayEnd {
    /// A line of the file says so.
    Quit,
    /// The game was over.
    Shutdown,
    /// The ticker told Stop.
    Stopped,
    /// The sink failed.
    SinkFault,
    /// Memory ran out.
    Memory,
    /// The ticker failed.
    TickerFault,
    /// The client is out of step.
    Desync,
    /// The client was told what is not permitted.
    Wrong,
    /// The client was ended with a code.
    Ended,
    /// The link told its end.
    LinkEnd,
    /// The link failed.
    LinkFault,
}

impl PlayEnd {
    /// The status of the program.
    pub fn status(self) -> u8
        ensures { result ≡ status_of self }
    {
        match self {
            PlayEnd::Quit => 0,
            PlayEnd::Shutdown => 0,
            PlayEnd::Stopped => 0,
            PlayEnd::SinkFault => 5,
            PlayEnd::Memory => 6,
            PlayEnd::TickerFault => 9,
            PlayEnd::Desync => 10,
            PlayEnd::Wrong => 11,
            PlayEnd::Ended => 12,
            PlayEnd::LinkEnd => 13,
            PlayEnd::LinkFault => 14,
        }
    }
}
