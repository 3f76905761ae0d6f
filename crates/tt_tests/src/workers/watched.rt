//! What the tests of workers hold on to: a listener that counts what came back, a ticker that waits for it, and a gate.
ghost use Rattle.std.specs.Prelude.{◌≡◌, None};

use std::sync::Wait;
use std::sync::atomic::{AtomicU64, Ordering};
use tt_edge::{Accepted, Beat, Listener, MemLink, MemListener, Served, Ticker};
use tt_workers::Gate;

/// How often one looks at a number before one gives up.
const LOOKS: u64 = 1_000_000_000;

/// Looks at a number until it is as large as this. False where it gave up.
pub fn reaches(number: &AtomicU64, wanted: u64) -> bool {
    for _ in 0..LOOKS {
        if number.load(Ordering::SeqCst) >= wanted {
            return true;
        }
    }
    false
}

/// A listener in memory that counts the links that came back.
#[derive(Drop)]
pub struct Watched<'a> {
    pub door: MemListener,
    pub back: &'a AtomicU64,
}

impl Listener for Watched<'_> {
    ghost use Rattle.tt_edge.specs.Listener.{door_counts};
    ghost use Rattle.std.specs.Prelude.{Some};
    ghost use Rattle.tt_edge.specs.MemListener.{served_of, peers_of, out_of};

    type Link = MemLink;

    ghost counts = { λ w. door_counts w.door.faults w.door.idle };

    ghost served = { λ w. Some (served_of w.door) };

    ghost peers = { λ w. Some (peers_of w.door) };

    ghost out = { λ w. Some (out_of w.door) };

    fn accept(&mut self) -> Accepted<MemLink> {
        self.door.accept()
    }

    fn retire(&mut self, served_as: Served, link: MemLink) {
        self.door.retire(served_as, link);
        self.back.fetch_add(1, Ordering::SeqCst);
    }
}

/// A ticker that tells so many ticks, and then Stop, once so many links came back. Where they don't, it fails.
#[derive(Drop)]
pub struct Patient<'a> {
    pub back: &'a AtomicU64,
    pub wanted: u64,
    pub ticks: u64,
    pub faults: u64,
    pub stops: u64,
}

impl Ticker for Patient<'_> {
    ghost counts = { λ p. record { faults = p.faults; stops = p.stops } };

    ghost beats = { λ _. None };

    fn wait(&mut self) -> Beat {
        if self.ticks > 0 {
            self.ticks -= 1;
            return Beat::Tick;
        }
        if !reaches(self.back, self.wanted) {
            self.faults = self.faults.saturating_add(1);
            return Beat::Failed;
        }
        self.stops = self.stops.saturating_add(1);
        Beat::Stop
    }
}

/// A gate that holds connection 1 at its first event, until connection 2 is asked for its second.
#[derive(Drop)]
pub struct SecondFirst<'a> {
    pub asked: &'a AtomicU64,
    pub gave_up: &'a AtomicU64,
}

impl Gate for SecondFirst<'_> {
    fn before<R: Wait>(&self, _rt: &R, conn: u32) {
        if conn == 2 {
            self.asked.fetch_add(1, Ordering::SeqCst);
        } else if !reaches(self.asked, 2) {
            self.gave_up.fetch_add(1, Ordering::SeqCst);
        }
    }
}
