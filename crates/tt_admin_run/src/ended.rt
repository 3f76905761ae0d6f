//! How a run ends.
ghost use Rattle.std.specs.Prelude.{◌≡◌};
ghost use Rattle.tt_admin_run.specs.Session.{status_of};

/// How a run ended.
#[derive(Clone, Copy, Debug, PartialEq, Eq)]
pub enum Ended {
    /// QUIT was written.
    Quit,
    /// SHUTDOWN came.
    Shutdown,
    /// FULL, BANNED or ERROR came.
    Refused,
    /// The link told its end.
    LinkEnd,
    /// The link failed.
    LinkFault,
    /// The sink failed.
    SinkFault,
    /// The ticker failed.
    TickFault,
    /// The ticker told Stop.
    Stopped,
    /// Memory ran out.
    Memory,
}

impl Ended {
    /// The status of the program.
    pub fn status(self) -> u8
        ensures { result ≡ status_of self }
    {
        match self {
            Ended::Quit | Ended::Shutdown | Ended::Stopped => 0,
            Ended::SinkFault => 5,
            Ended::Memory => 6,
            Ended::TickFault => 9,
            Ended::Refused => 12,
            Ended::LinkEnd => 13,
            Ended::LinkFault => 14,
        }
    }
}
