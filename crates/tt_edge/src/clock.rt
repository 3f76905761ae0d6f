//! A ticker over the machine's clock.
ghost use Rattle.std.specs.Prelude.{◌≡◌, None};

use crate::rhythm::BEAT;
use crate::ticker::{Beat, Ticker};
use std::thread;
use std::time::{Clock, Duration};

/// Beats of 30 milliseconds. They don't drift; where a beat is late, the next is counted from it.
#[derive(Drop)]
pub struct ClockTicker<R> {
    clock: R,
    due: Duration,
    left: Option<u64>,
    faults: u64,
    stops: u64,
}

impl<R: Clock> ClockTicker<R> {
    ghost use Rattle.tt_edge.specs.Clock.{clock_counts_of};

    /// It ticks for ever.
    pub fn new(clock: R) -> ClockTicker<R>
        ensures { clock_counts_of result ≡ record { faults = 0; stops = 0 } }
    {
        ClockTicker {
            clock,
            due: Duration::ZERO,
            left: None,
            faults: 0,
            stops: 0,
        }
    }

    /// It ticks so many times, and then tells Stop.
    pub fn stopping_after(clock: R, ticks: u64) -> ClockTicker<R>
        ensures { clock_counts_of result ≡ record { faults = 0; stops = 0 } }
    {
        ClockTicker {
            clock,
            due: Duration::ZERO,
            left: Some(ticks),
            faults: 0,
            stops: 0,
        }
    }

    /// Sleeps until the next beat is due. None where the clock can't be read.
    fn sleep(&mut self) -> Option<()>
        ensures { clock_counts_of self.new ≡ clock_counts_of self.old }
    {
        let now = self.clock.monotonic().ok()?;
        let due = self
            .due
            .saturating_add(Duration::from_millis(BEAT))
            .max(now);
        thread::sleep(&self.clock, due.saturating_sub(now));
        self.due = due;
        Some(())
    }
}

impl<R: Clock> Ticker for ClockTicker<R> {
    ghost use Rattle.tt_edge.specs.Clock.{clock_counts_of};

    ghost counts = { clock_counts_of };

    ghost beats = { λ _. None };

    fn wait(&mut self) -> Beat {
        if self.left == Some(0) {
            self.stops = self.stops.saturating_add(1);
            return Beat::Stop;
        }
        if self.sleep().is_none() {
            self.faults = self.faults.saturating_add(1);
            return Beat::Failed;
        }
        self.left = self.left.map(|ticks| ticks.saturating_sub(1));
        Beat::Tick
    }
}
