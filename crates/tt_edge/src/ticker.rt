//! What tells the time.
ghost use Rattle.std.specs.Prelude.{List, Option};
ghost use Rattle.tt_edge.specs.declared.ticker.Beat.{Beat};
ghost use Rattle.tt_edge.specs.Told.{Adds};
ghost use Rattle.tt_edge.specs.Listener.{TickCounts, WaitCounts, told_by};

/// What a ticker tells.
#[derive(Clone, Copy, Debug, PartialEq, Eq)]
pub enum Beat {
    /// Time went on by one step.
    Tick,
    /// All is to end.
    Stop,
    /// It can't tell.
    Failed,
}

/// A clock. It keeps two counts, which never fall: of its calls that failed, and of those that told Stop. Each starts at 0
/// and stops at 2^64 - 1. One in memory tells all that it told; one over the machine's clock doesn't.
pub trait Ticker {
    /// How often it failed, and how often it told Stop.
    ghost counts: { Self → TickCounts };

    /// The ticks and stops that it told, in order, where they are told.
    ghost beats: { Self → Option (List Beat) };

    /// Waits for the next beat.
    fn wait(&mut self) -> Beat
        ensures counts { WaitCounts (counts self.old) (counts self.new) result }
        ensures beats { Adds (beats self.old) (beats self.new) (told_by result) };
}
