//! A ticker in memory, for tests: it tells so many beats, at once, and then fails.
ghost use Rattle.std.specs.Prelude.{◌≡◌, ◌<◌, ◌≤◌, ◌+◌, min, Some, []};

use crate::ticker::{Beat, Ticker};

/// A ticker that answers a number of calls, each by its number, and fails at each call behind them. It takes no memory of
/// its own.
#[derive(Drop)]
pub struct MemTicker {
    failing: Vec<u64>,
    stopping: Vec<u64>,
    made: u64,
    most: u64,
    faults: u64,
    stops: u64,
    ghost within: { made ≤ most },
}

impl MemTicker {
    ghost use Rattle.tt_edge.specs.MemTicker.{counts_of, made_of, told_of, plan_of, beat_of};

    /// It answers `most` calls: those with the numbers of `failing`, counted from 0, fail, of the others those of `stopping`
    /// tell Stop, and the rest tell Tick. Nothing was told yet.
    pub fn new(most: u64, failing: Vec<u64>, stopping: Vec<u64>) -> MemTicker
        ensures counts { counts_of result ≡ record { faults = 0; stops = 0 } }
        ensures told { told_of result ≡ [] }
        ensures made { made_of result ≡ 0 }
        ensures plan { plan_of result ≡ record { failing = failing.items; stopping = stopping.items; most = most } }
    {
        MemTicker {
            failing,
            stopping,
            made: 0,
            most,
            faults: 0,
            stops: 0,
        }
    }

    /// What the next call tells, if it is one of those that are answered.
    fn beat(&self) -> Beat
        ensures { result ≡ beat_of (plan_of self.now) (made_of self.now) }
    {
        if self.failing.contains(&self.made) {
            Beat::Failed
        } else if self.stopping.contains(&self.made) {
            Beat::Stop
        } else {
            Beat::Tick
        }
    }
}

impl Ticker for MemTicker {
    ghost use Rattle.tt_edge.specs.Told.{Adds};
    ghost use Rattle.tt_edge.specs.Listener.{WaitCounts, told_by};
    ghost use Rattle.tt_edge.specs.MemTicker.{counts_of, made_of, told_of, plan_of, beat_of};

    ghost counts = { counts_of };

    ghost beats = { λ t. Some (told_of t) };

    /// Beside what every ticker keeps: it answers by the number of the call.
    fn wait(&mut self) -> Beat
        ensures counts { WaitCounts (counts_of self.old) (counts_of self.new) result }
        ensures beats { Adds (Some (told_of self.old)) (Some (told_of self.new)) (told_by result) }
        ensures plan { plan_of self.new ≡ plan_of self.old }
        ensures made { made_of self.new ≡ min (made_of self.old + 1) (plan_of self.old).most }
        ensures beat { made_of self.old < (plan_of self.old).most → result ≡ beat_of (plan_of self.old) (made_of self.old) }
        ensures late { made_of self.old ≡ (plan_of self.old).most → result ≡ Beat.Failed }
    {
        if self.made == self.most {
            self.faults = self.faults.saturating_add(1);
            return Beat::Failed;
        }
        let beat = self.beat();
        self.made += 1;
        match beat {
            Beat::Tick => {}
            Beat::Stop => self.stops = self.stops.saturating_add(1),
            Beat::Failed => self.faults = self.faults.saturating_add(1),
        }
        beat
    }
}
