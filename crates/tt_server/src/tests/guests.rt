//! Links, doors and a clock in memory, for the tests of the server's top call.
ghost use Rattle.std.specs.Prelude.{◌≡◌, ◌<◌, IfOk, None, Some, length};
ghost use Rattle.tt_edge.specs.Link.{no_counts};
ghost use Rattle.tt_edge.specs.MemLink.{IsFreshLink};

use std::alloc::Global;
use std::sync::atomic::{AtomicU64, Ordering};
use std::test::*;
use tt_edge::*;
use tt_workers::Doors;

/// The join of Ann, a spectator.
pub const JOIN: &[u8] = b"\x11\x00\x0213.4\x00\x0d\x00\x00\x00Ann\x00\xff";

/// How many bytes a welcome has.
const WELCOME: u64 = 14;

/// Where each link comes from.
const HOME: Peer = Peer {
    host: [127, 0, 0, 1],
    port: 4000,
};

/// How often one looks at a number before one gives up.
const LOOKS: u64 = 1_000_000_000;

/// How often a guest reads nothing before it gives up.
const PATIENCE: u64 = 20_000_000;

/// Looks at a number until it is as large as this. False where it gave up.
fn reaches(number: &AtomicU64, wanted: u64) -> bool {
    for _ in 0..LOOKS {
        if number.load(Ordering::SeqCst) >= wanted {
            return true;
        }
    }
    false
}

/// What the guests of a server know of each other.
pub struct Table {
    /// How many bytes each of two was written.
    first: AtomicU64,
    second: AtomicU64,
    /// How many gave up.
    pub tired: AtomicU64,
    /// How many links came back.
    pub back: AtomicU64,
}

impl Drop for Table {
    fn drop(self) {
        let Table {
            first: _,
            second: _,
            tired: _,
            back: _,
        } = self;
    }
}

impl Table {
    /// Nobody sits there yet.
    pub fn new() -> Table {
        Table {
            first: AtomicU64::new(0),
            second: AtomicU64::new(0),
            tired: AtomicU64::new(0),
            back: AtomicU64::new(0),
        }
    }
}

/// A link that brings a join, answers Nothing until the other was written its whole welcome, and then tells its end.
#[derive(Drop)]
pub struct Guest<'a> {
    own: &'a AtomicU64,
    other: &'a AtomicU64,
    tired: &'a AtomicU64,
    brought: bool,
    written: Vec<u8>,
    faults: u64,
    ends: u64,
    idle: u64,
}

impl Guest<'_> {
    /// Whether it waits for the other.
    fn waits(&self) -> bool {
        if self.other.load(Ordering::SeqCst) >= WELCOME {
            return false;
        }
        if self.idle < PATIENCE {
            return true;
        }
        self.tired.fetch_add(1, Ordering::SeqCst);
        false
    }
}

impl Link for Guest<'_> {
    ghost counts = { λ g. record { faults = g.faults; ends = g.ends; idle_reads = g.idle; idle_writes = 0; stalled = 0 } };

    ghost left = { λ _. None };

    ghost was_read = { λ _. None };

    ghost held = { λ _. None };

    fn read(&mut self, out: &mut [u8]) -> LinkGot {
        if self.ends == 0 {
            if !self.brought {
                self.brought = true;
                let n = JOIN.len().min(out.len());
                out[..n].copy_from_slice(&JOIN[..n]);
                return LinkGot::Bytes(n);
            }
            if self.waits() {
                self.idle = self.idle.saturating_add(1);
                return LinkGot::Nothing;
            }
        }
        self.ends = self.ends.saturating_add(1);
        LinkGot::End
    }

    fn write(&mut self, bytes: &[u8]) -> LinkWrote {
        match self.written.extend_from_slice(bytes) {
            Ok(()) => {
                self.own.store(self.written.len() as u64, Ordering::SeqCst);
                LinkWrote::Count(bytes.len())
            }
            Err(_) => {
                self.faults = self.faults.saturating_add(1);
                LinkWrote::Failed
            }
        }
    }
}

/// A door with one guest.
#[derive(Drop)]
pub struct Inn<'a> {
    alloc: Global,
    own: &'a AtomicU64,
    other: &'a AtomicU64,
    tired: &'a AtomicU64,
    back: &'a AtomicU64,
    opened: bool,
    idle: u64,
    gone: Option<Guest<'a>>,
}

impl Inn<'_> {
    /// What its guest was written, once it is gone.
    pub fn written(&self) -> Option<&[u8]> {
        match &self.gone {
            Some(guest) => Some(&guest.written),
            None => None,
        }
    }
}

impl<'a> Listener for Inn<'a> {
    ghost use Rattle.tt_edge.specs.Listener.{door_counts};

    type Link = Guest<'a>;

    ghost counts = { λ i. door_counts 0 i.idle };

    ghost served = { λ _. None };

    ghost peers = { λ _. None };

    ghost out = { λ _. None };

    fn accept(&mut self) -> Accepted<Guest<'a>> {
        if self.opened {
            self.idle = self.idle.saturating_add(1);
            return Accepted::Nothing;
        }
        self.opened = true;
        let guest = Guest {
            own: self.own,
            other: self.other,
            tired: self.tired,
            brought: false,
            written: Vec::new(self.alloc),
            faults: 0,
            ends: 0,
            idle: 0,
        };
        Accepted::Link(guest, HOME)
    }

    fn retire(&mut self, _served_as: Served, link: Guest<'a>) {
        self.gone = Some(link);
        self.back.fetch_add(1, Ordering::SeqCst);
    }
}

/// A listener in memory that counts the links that came back.
#[derive(Drop)]
pub struct Watched<'a> {
    door: MemListener,
    back: &'a AtomicU64,
}

impl Watched<'_> {
    /// What its first link was written, once it is back.
    pub fn written(&self) -> Option<&[u8]> {
        let (_, link) = self.door.served().first()?;
        Some(link.written())
    }
}

impl Listener for Watched<'_> {
    ghost use Rattle.tt_edge.specs.Listener.{door_counts};
    ghost use Rattle.tt_edge.specs.MemListener.{served_of, peers_of, out_of};

    type Link = MemLink;

    ghost counts = { λ w. door_counts w.door.faults w.door.idle };

    ghost served = { λ w. Some (served_of w.door) };

    ghost peers = { λ w. Some (peers_of w.door) };

    ghost out = { λ w. Some (out_of w.door) };

    fn accept(&mut self) -> Accepted<MemLink> {
        self.door.accept()
    }

    fn retire(&mut self, served_as: Served, link: MemLink) {
        self.door.retire(served_as, link);
        self.back.fetch_add(1, Ordering::SeqCst);
    }
}

/// A clock that tells so many ticks; then, once so many links came back, it fails, or tells Stop. Where they don't come, it fails.
#[derive(Drop)]
pub struct Patient<'a> {
    back: &'a AtomicU64,
    wanted: u64,
    ticks: u64,
    broken: bool,
    faults: u64,
    stops: u64,
}

impl<'a> Patient<'a> {
    /// A clock that tells Stop at its end.
    pub fn new(back: &'a AtomicU64, wanted: u64, ticks: u64) -> Patient<'a> {
        Patient {
            back,
            wanted,
            ticks,
            broken: false,
            faults: 0,
            stops: 0,
        }
    }

    /// The same clock, which fails at its end.
    pub fn broken(mut self) -> Patient<'a> {
        self.broken = true;
        self
    }
}

impl Ticker for Patient<'_> {
    ghost counts = { λ p. record { faults = p.faults; stops = p.stops } };

    ghost beats = { λ _. None };

    fn wait(&mut self) -> Beat {
        if self.ticks > 0 {
            self.ticks -= 1;
            return Beat::Tick;
        }
        if !reaches(self.back, self.wanted) || self.broken {
            self.faults = self.faults.saturating_add(1);
            return Beat::Failed;
        }
        self.stops = self.stops.saturating_add(1);
        Beat::Stop
    }
}

/// Doors over links in memory.
pub type Gates<'a> = Doors<Watched<'a>, Watched<'a>, Patient<'a>>;

/// Doors over two guests, each of which waits for the other.
pub type Inns<'a> = Doors<Inn<'a>, Inn<'a>, Patient<'a>>;

/// Two doors with a guest each, and a clock that tells Stop once both are gone.
pub fn inns<'a>(alloc: Global, table: &'a Table) -> Result<Inns<'a>, Fail> {
    let mut game = Vec::new(alloc);
    for (own, other) in [(&table.first, &table.second), (&table.second, &table.first)] {
        game.push(Inn {
            alloc,
            own,
            other,
            tired: &table.tired,
            back: &table.back,
            opened: false,
            idle: 0,
            gone: None,
        })?;
    }
    Ok(Doors {
        game,
        admin: Vec::new(alloc),
        ticker: Some(Patient::new(&table.back, 2, 0)),
    })
}

/// The numbers of some calls: from the first on, and below the second.
pub type Calls = (u64, u64);

/// How a door behaves that has one link, which brings a join and ends: which reads and writes of the link fail, which of its reads
/// answer Nothing, how many bytes it moves at most, and which calls of the door fail or answer Nothing.
#[derive(Clone, Copy, Debug)]
pub struct Planned {
    pub most: usize,
    pub failing_reads: Calls,
    pub idle_reads: Calls,
    pub failing_writes: Calls,
    pub failing: Calls,
    pub idle: Calls,
}

/// A door that works, with a link that works.
pub const SOUND: Planned = Planned {
    most: 100,
    failing_reads: (0, 0),
    idle_reads: (0, 0),
    failing_writes: (0, 0),
    failing: (0, 0),
    idle: (0, 0),
};

fn numbers(alloc: Global, calls: Calls) -> Result<Vec<u64>, Fail> {
    Ok((calls.0..calls.1).collect(alloc)?)
}

/// A link that brings a join and ends, so many bytes at a time.
fn link(alloc: Global, most: usize, plan: LinkPlan) -> Result<MemLink, Fail>
    requires { 0 < most }
    ensures { IfOk result IsFreshLink }
{
    Ok(MemLink::new(alloc, JOIN.to_vec(alloc)?, 400, plan)?.at_most(most))
}

/// A door with that link.
fn door<'a>(alloc: Global, planned: &Planned, back: &'a AtomicU64) -> Result<Watched<'a>, Fail> {
    if planned.most == 0 {
        return Err("a link has to move a byte")?;
    }
    let plan = LinkPlan {
        failing_reads: numbers(alloc, planned.failing_reads)?,
        idle_reads: numbers(alloc, planned.idle_reads)?,
        failing_writes: numbers(alloc, planned.failing_writes)?,
        idle_writes: Vec::new(alloc),
    };
    let mut coming = Vec::new(alloc);
    coming.push((link(alloc, planned.most, plan)?, HOME))?;
    let failing = numbers(alloc, planned.failing)?;
    let door = MemListener::new(alloc, coming, failing, numbers(alloc, planned.idle)?)?;
    Ok(Watched { door, back })
}

/// A door for each of these, and a clock.
pub fn gates<'a>(
    alloc: Global,
    doors: &[Planned],
    back: &'a AtomicU64,
    clock: Patient<'a>,
) -> Result<Gates<'a>, Fail> {
    let mut game = Vec::new(alloc);
    for planned in doors {
        game.push(door(alloc, planned, back)?)?;
    }
    Ok(Doors {
        game,
        admin: Vec::new(alloc),
        ticker: Some(clock),
    })
}

/// One door to which nobody comes, and a clock that tells so many ticks and then Stop.
pub fn empty<'a>(alloc: Global, back: &'a AtomicU64, ticks: u64) -> Result<Gates<'a>, Fail> {
    let door = MemListener::new(alloc, Vec::new(alloc), Vec::new(alloc), Vec::new(alloc))?;
    let mut game = Vec::new(alloc);
    game.push(Watched { door, back })?;
    Ok(Doors {
        game,
        admin: Vec::new(alloc),
        ticker: Some(Patient::new(back, 0, ticks)),
    })
}
