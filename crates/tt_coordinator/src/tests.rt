//! The coordinator's top call over doors in memory: a server that registers, also beside one whose link fails, and faults that are told.
ghost use Rattle.std.specs.Prelude.{◌≡◌, ◌<◌, IfOk, None, Some};
ghost use Rattle.tt_edge.specs.MemLink.{IsFreshLink};

use crate::coordinate::coordinate_main;
use std::alloc::Global;
use std::sync::Wait;
use std::sync::atomic::{AtomicU64, Ordering};
use std::test::*;
use std::thread::Threads;
use std::time::Clock;
use tt_edge::*;
use tt_frame::Line;
use tt_workers::Doors;

/// The packet by which a server is registered that has no code yet: kind 1, port 3979.
const REGISTER: &[u8] = b"\x09\x00\x01\x01\x01\x8b\x0f\x00\x00";

/// The packet by which the first code is told, and its secret, where the random words are 0 and 0.
const ACK: &[u8] = b"\x2d\x00\x02+9ZDDVF\x00S32A5CAX5WU9Z5BUPKLCGXR9JWS22WGH\x00\x00";

/// Where the link comes from.
const HOME: Peer = Peer {
    host: [127, 0, 0, 1],
    port: 4000,
};

/// How often one looks at a number before one gives up.
const LOOKS: u64 = 1_000_000_000;

/// Looks at a number until it is as large as this. False where it gave up.
fn reaches(number: &AtomicU64, wanted: u64) -> bool {
    for _ in 0..LOOKS {
        if number.load(Ordering::SeqCst) >= wanted {
            return true;
        }
    }
    false
}

/// A listener in memory that counts the links that came back.
#[derive(Drop)]
struct Watched<'a> {
    door: MemListener,
    back: &'a AtomicU64,
}

impl Listener for Watched<'_> {
    ghost use Rattle.std.specs.Prelude.{Some};
    ghost use Rattle.tt_edge.specs.Listener.{door_counts};
    ghost use Rattle.tt_edge.specs.MemListener.{served_of, peers_of, out_of};

    type Link = MemLink;

    ghost counts = { λ w. door_counts w.door.faults w.door.idle };

    ghost served = { λ w. Some (served_of w.door) };

    ghost peers = { λ w. Some (peers_of w.door) };

    ghost out = { λ w. Some (out_of w.door) };

    fn accept(&mut self) -> Accepted<MemLink> {
        self.door.accept()
    }

    fn retire(&mut self, served_as: Served, link: MemLink) {
        self.door.retire(served_as, link);
        self.back.fetch_add(1, Ordering::SeqCst);
    }
}

/// A clock that tells one tick once so many links came back; then it fails, or tells Stop. Where they don't come, it fails.
#[derive(Drop)]
struct Patient<'a> {
    back: &'a AtomicU64,
    wanted: u64,
    broken: bool,
    ticked: bool,
    faults: u64,
    stops: u64,
}

impl Ticker for Patient<'_> {
    ghost counts = { λ p. record { faults = p.faults; stops = p.stops } };

    ghost beats = { λ _. None };

    fn wait(&mut self) -> Beat {
        if !reaches(self.back, self.wanted) {
            self.faults = self.faults.saturating_add(1);
            return Beat::Failed;
        }
        if !self.ticked {
            self.ticked = true;
            return Beat::Tick;
        }
        if self.broken {
            self.faults = self.faults.saturating_add(1);
            return Beat::Failed;
        }
        self.stops = self.stops.saturating_add(1);
        Beat::Stop
    }
}

/// A clock that tells Stop in the end.
fn clock(back: &AtomicU64, wanted: u64) -> Patient<'_> {
    Patient {
        back,
        wanted,
        broken: false,
        ticked: false,
        faults: 0,
        stops: 0,
    }
}

/// The doors of these tests.
type TestDoors<'a> = Doors<Watched<'a>, Watched<'a>, Patient<'a>>;

/// How a door behaves that has one link, which brings a registration and ends: how many bytes the link moves at most, at which of its
/// reads and writes it fails, and at which of its own calls the door does.
#[derive(Clone, Copy, Debug)]
struct Planned {
    most: usize,
    reads: Option<u64>,
    writes: Option<u64>,
    accepts: Option<u64>,
}

/// A door that works, with a link that works.
const SOUND: Planned = Planned {
    most: 100,
    reads: None,
    writes: None,
    accepts: None,
};

/// The number of a call, where it is there.
fn calls(alloc: Global, number: Option<u64>) -> Result<Vec<u64>, Fail> {
    let mut numbers = Vec::new(alloc);
    if let Some(number) = number {
        numbers.push(number)?;
    }
    Ok(numbers)
}

/// A link that brings a registration and ends, so many bytes at a time.
fn link(alloc: Global, most: usize, plan: LinkPlan) -> Result<MemLink, Fail>
    requires { 0 < most }
    ensures { IfOk result IsFreshLink }
{
    Ok(MemLink::new(alloc, REGISTER.to_vec(alloc)?, 4000, plan)?.at_most(most))
}

/// A door with that link.
fn door<'a>(alloc: Global, planned: &Planned, back: &'a AtomicU64) -> Result<Watched<'a>, Fail> {
    if planned.most == 0 {
        return Err("a link has to move a byte")?;
    }
    let plan = LinkPlan {
        failing_reads: calls(alloc, planned.reads)?,
        idle_reads: Vec::new(alloc),
        failing_writes: calls(alloc, planned.writes)?,
        idle_writes: Vec::new(alloc),
    };
    let mut coming = Vec::new(alloc);
    coming.push((link(alloc, planned.most, plan)?, HOME))?;
    let failing = calls(alloc, planned.accepts)?;
    let door = MemListener::new(alloc, coming, failing, Vec::new(alloc))?;
    Ok(Watched { door, back })
}

/// A handle of the main door for each of these, and a clock.
fn doors<'a>(
    alloc: Global,
    handles: &[Planned],
    back: &'a AtomicU64,
    clock: Patient<'a>,
) -> Result<TestDoors<'a>, Fail> {
    let mut game = Vec::new(alloc);
    for planned in handles {
        game.push(door(alloc, planned, back)?)?;
    }
    Ok(Doors {
        game,
        admin: Vec::new(alloc),
        ticker: Some(clock),
    })
}

/// The call, where its conditions are met; 255 where they are not.
fn called<'a, R: Threads + Wait + Clock + Sync>(
    rt: &R,
    alloc: Global,
    args: &[Line],
    doors: &mut TestDoors<'a>,
    sink: &mut MemSink,
) -> u8 {
    let handles = doors.game.len();
    if doors.ticker.is_none() || handles == 0 || handles > 9 || !doors.admin.is_empty() {
        return 255;
    }
    coordinate_main(rt, alloc, args, doors, sink)
}

/// What the first link of a handle was written.
fn written<'d>(doors: &'d TestDoors<'_>, place: usize) -> Option<&'d [u8]> {
    let (_, link) = doors.game.get(place)?.door.served().first()?;
    Some(link.written())
}

/// A sink with room for a summary.
fn summary(alloc: Global) -> Result<MemSink, Fail> {
    Ok(MemSink::new(alloc, 400, Vec::new(alloc))?)
}

#[test]
fn a_server_registers(rt: HostRuntime) -> Result<(), Fail> {
    let alloc = rt.alloc();
    let back = AtomicU64::new(0);
    let mut doors = doors(alloc, &[SOUND], &back, clock(&back, 1))?;
    let mut sink = summary(alloc)?;
    assert_eq!(rt; called(&rt, alloc, &[], &mut doors, &mut sink), 0);
    assert_eq!(rt; written(&doors, 0), Some(ACK));
    assert_eq!(rt; sink.bytes(), b"connections 1\nconn 1 45\n".as_slice());
    Ok(())
}

#[test]
fn bad_words_touch_nothing(rt: HostRuntime) -> Result<(), Fail> {
    let alloc = rt.alloc();
    let back = AtomicU64::new(0);
    let mut doors = doors(alloc, &[SOUND], &back, clock(&back, 1))?;
    let mut sink = summary(alloc)?;
    let args = [
        Line::new(b"--first").ok_or("no word")?,
        Line::new(b"07").ok_or("no word")?,
    ];
    assert_eq!(rt; called(&rt, alloc, &args, &mut doors, &mut sink), 2);
    assert!(rt; written(&doors, 0).is_none());
    assert!(rt; sink.bytes().is_empty());
    Ok(())
}

#[test]
fn faults_of_a_listener_and_of_the_clock_are_told(rt: HostRuntime) -> Result<(), Fail> {
    let alloc = rt.alloc();
    let told = b"connections 1\nconn 1 45\n";
    let back = AtomicU64::new(0);
    let deaf = Planned {
        accepts: Some(0),
        ..SOUND
    };
    let mut deaf = doors(alloc, &[deaf, SOUND], &back, clock(&back, 1))?;
    let mut sink = summary(alloc)?;
    assert_eq!(rt; called(&rt, alloc, &[], &mut deaf, &mut sink), 8);
    assert_eq!(rt; sink.bytes(), told.as_slice());
    let again = AtomicU64::new(0);
    let broken = Patient {
        broken: true,
        ..clock(&again, 1)
    };
    let mut untimed = doors(alloc, &[SOUND], &again, broken)?;
    let mut sink = summary(alloc)?;
    assert_eq!(rt; called(&rt, alloc, &[], &mut untimed, &mut sink), 9);
    assert_eq!(rt; sink.bytes(), told.as_slice());
    Ok(())
}

/// A link that fails at one of its calls ends alone: beside it another server is registered, with a code of as many bytes.
fn beside<R: Threads + Wait + Clock + Sync>(
    rt: &R,
    alloc: Global,
    reads: Option<u64>,
    writes: Option<u64>,
) -> Result<(u8, Option<usize>), Fail> {
    let back = AtomicU64::new(0);
    let failing = Planned {
        most: 1,
        reads,
        writes,
        accepts: None,
    };
    let mut doors = doors(alloc, &[failing, SOUND], &back, clock(&back, 2))?;
    let mut sink = summary(alloc)?;
    let status = called(rt, alloc, &[], &mut doors, &mut sink);
    Ok((status, written(&doors, 1).map(|bytes| bytes.len())))
}

#[test]
fn a_link_that_fails_at_any_of_its_calls_ends_alone(rt: HostRuntime) -> Result<(), Fail> {
    for call in 0..9 {
        let found = beside(&rt, rt.alloc(), Some(call), None)?;
        assert_eq!(rt; (call, found), (call, (0, Some(45))));
    }
    for call in 0..45 {
        let found = beside(&rt, rt.alloc(), None, Some(call))?;
        assert_eq!(rt; (call, found), (call, (0, Some(45))));
    }
    Ok(())
}
