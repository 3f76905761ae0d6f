//! The server's top call over doors in memory: who is served beside whom, what is told at the end, and each status once.
ghost use Rattle.std.specs.Prelude.{◌≡◌};

mod guests;
mod loopback;

use self::guests::{Calls, Gates, Inns, Patient, Planned, SOUND, Table, empty, gates, inns};
use crate::server::serve_main;
use std::alloc::Global;
use std::process::Abort;
use std::sync::Wait;
use std::sync::atomic::{AtomicU64, Ordering};
use std::test::*;
use std::thread::Threads;
use std::time::Clock;
use tt_edge::{FileSource, Listener, MemSink, MemSource, Source, Ticker};
use tt_frame::Line;
use tt_workers::Doors;

/// The welcome of client 2, and that of client 3.
const SECOND: &[u8] = b"\x0e\x00\x0c\x02\x00\x00\x00\x00\x00\x00\x00tt\x00";

const THIRD: &[u8] = b"\x0e\x00\x0c\x03\x00\x00\x00\x00\x00\x00\x00tt\x00";

/// What is told behind a welcome where the game was over first.
const OVER: &[u8] = b"\x03\x00\x25";

/// The map of day 29, with one company; and the same of the first day that is too late.
const SAVED: &[u8] = b"OTTN\x00\x01\x00\x00GAME\x00\x00\x00\x06\x00\x00\x00\x1d\x49\x00\
    RAND\x00\x00\x00\x08\x00\x00\x00\x00\x00\x00\x00\x00\
    CMPY\x00\x00\x00\x12\x01\x00\x00\x00\x00\x00\x00\x00\x00\x00\x00\x04\x93\xe0\x01A\x01B\
    SIGN\x00\x00\x00\x02\x00\x00ENDC\x00\x00\x00\x00";

const LATE: &[u8] = b"OTTN\x00\x01\x00\x00GAME\x00\x00\x00\x06\x35\xa4\xe9\x01\x49\x00\
    RAND\x00\x00\x00\x08\x00\x00\x00\x00\x00\x00\x00\x00\
    CMPY\x00\x00\x00\x12\x01\x00\x00\x00\x00\x00\x00\x00\x00\x00\x00\x04\x93\xe0\x01A\x01B\
    SIGN\x00\x00\x00\x02\x00\x00ENDC\x00\x00\x00\x00";

/// The call, where its conditions are met; 255 where they are not.
fn called<R: Threads + Wait + Clock + Sync, S: Source, L: Listener + Send, T: Ticker + Send>(
    rt: &R,
    alloc: Global,
    args: &[Line],
    saved: &mut Option<S>,
    doors: &mut Doors<L, L, T>,
    sink: &mut MemSink,
) -> u8
where
    L::Link: Send,
{
    let handles = doors.game.len();
    if doors.ticker.is_none() || handles == 0 || handles > 9 || !doors.admin.is_empty() {
        return 255;
    }
    serve_main(rt, alloc, args, saved, doors, sink)
}

/// The call without words, over doors in memory.
fn served<R: Threads + Wait + Clock + Sync>(
    rt: &R,
    alloc: Global,
    doors: &mut Gates<'_>,
    sink: &mut MemSink,
) -> u8 {
    called(rt, alloc, &[], &mut None::<MemSource>, doors, sink)
}

/// What the first link of a handle was written.
fn written<'d>(doors: &'d Gates<'_>, place: usize) -> Option<&'d [u8]> {
    doors.game.get(place)?.written()
}

/// Whether bytes are a welcome, and nothing behind it, or that the game is over.
fn is_welcome(bytes: Option<&[u8]>, welcome: &[u8]) -> bool {
    let Some(rest) = bytes.and_then(|bytes| bytes.strip_prefix(welcome)) else {
        return false;
    };
    rest.is_empty() || rest == OVER
}

/// Whether two guests were welcomed, one as client 2 and the other as client 3.
fn both_welcome(doors: &Inns<'_>) -> bool {
    let [one, other] = doors.game.as_slice() else {
        return false;
    };
    let (one, other) = (one.written(), other.written());
    is_welcome(one, SECOND) && is_welcome(other, THIRD)
        || is_welcome(one, THIRD) && is_welcome(other, SECOND)
}

/// A sink with room for a summary.
fn summary(alloc: Global) -> Result<MemSink, Fail> {
    Ok(MemSink::new(alloc, 400, Vec::new(alloc))?)
}

#[test]
fn two_guests_are_served_beside_each_other(rt: HostRuntime) -> Result<(), Fail> {
    let alloc = rt.alloc();
    let table = Table::new();
    let mut doors = inns(alloc, &table)?;
    let mut sink = summary(alloc)?;
    let status = called(
        &rt,
        alloc,
        &[],
        &mut None::<MemSource>,
        &mut doors,
        &mut sink,
    );
    assert_eq!(rt; table.tired.load(Ordering::SeqCst), 0);
    assert_eq!(rt; status, 0);
    assert!(rt; both_welcome(&doors));
    assert!(rt; sink.bytes().starts_with(b"connections 2\nframe 0\n"));
    Ok(())
}

#[test]
fn a_join_may_come_late_and_in_pieces(rt: HostRuntime) -> Result<(), Fail> {
    let alloc = rt.alloc();
    let back = AtomicU64::new(0);
    let late = Planned {
        most: 9,
        idle_reads: (1, 2),
        idle: (0, 1),
        ..SOUND
    };
    let mut doors = gates(alloc, &[late], &back, Patient::new(&back, 1, 3))?;
    let mut sink = summary(alloc)?;
    assert_eq!(rt; served(&rt, alloc, &mut doors, &mut sink), 0);
    assert_eq!(rt; written(&doors, 0), Some(SECOND));
    let told = b"connections 1\nframe 3\nentries 0\nwords d75be1b8 1fffffff\nconn 1 14\n";
    assert_eq!(rt; sink.bytes(), told.as_slice());
    Ok(())
}

#[test]
fn faults_of_a_listener_and_of_the_clock_are_told(rt: HostRuntime) -> Result<(), Fail> {
    let alloc = rt.alloc();
    let back = AtomicU64::new(0);
    let failing = Planned {
        failing: (0, 1),
        ..SOUND
    };
    let mut doors = gates(alloc, &[failing, SOUND], &back, Patient::new(&back, 1, 0))?;
    let mut sink = summary(alloc)?;
    assert_eq!(rt; served(&rt, alloc, &mut doors, &mut sink), 8);
    assert_eq!(rt; written(&doors, 1), Some(SECOND));
    assert!(rt; sink.bytes().starts_with(b"connections 1\nframe 0\n"));
    let again = AtomicU64::new(0);
    let mut doors = gates(alloc, &[SOUND], &again, Patient::new(&again, 1, 2).broken())?;
    let mut sink = summary(alloc)?;
    assert_eq!(rt; served(&rt, alloc, &mut doors, &mut sink), 9);
    assert!(rt; sink.bytes().starts_with(b"connections 1\nframe 2\n"));
    Ok(())
}

/// A link that fails at one of its calls ends alone: beside it another is welcomed.
fn beside<R: Threads + Wait + Clock + Sync>(
    rt: &R,
    alloc: Global,
    reads: Calls,
    writes: Calls,
) -> Result<(u8, bool), Fail> {
    let back = AtomicU64::new(0);
    let failing = Planned {
        most: 1,
        failing_reads: reads,
        failing_writes: writes,
        ..SOUND
    };
    let mut doors = gates(alloc, &[failing, SOUND], &back, Patient::new(&back, 2, 0))?;
    let mut sink = summary(alloc)?;
    let status = served(rt, alloc, &mut doors, &mut sink);
    let other = written(&doors, 1);
    Ok((
        status,
        is_welcome(other, SECOND) || is_welcome(other, THIRD),
    ))
}

#[test]
fn a_link_that_fails_at_any_of_its_calls_ends_alone(rt: HostRuntime) -> Result<(), Fail> {
    for call in 0..17 {
        let found = beside(&rt, rt.alloc(), (call, call + 1), (0, 0))?;
        assert_eq!(rt; (call, found), (call, (0, true)));
    }
    for call in 0..14 {
        let found = beside(&rt, rt.alloc(), (0, 0), (call, call + 1))?;
        assert_eq!(rt; (call, found), (call, (0, true)));
    }
    Ok(())
}

/// The status where a saved map is handed in and one tick is told, and what is told at the end.
fn resumed<R: Threads + Wait + Clock + Sync, S: Source + Drop>(
    rt: &R,
    alloc: Global,
    source: S,
) -> Result<(u8, MemSink), Fail> {
    let back = AtomicU64::new(0);
    let args = [
        Line::new(b"--map").ok_or("no word")?,
        Line::new(b"saved").ok_or("no word")?,
    ];
    let mut doors = empty(alloc, &back, 1)?;
    let mut sink = summary(alloc)?;
    let status = called(rt, alloc, &args, &mut Some(source), &mut doors, &mut sink);
    Ok((status, sink))
}

/// A saved map makes this status, and this is told at the end.
fn comes_to<R: Threads + Wait + Clock + Abort + Sync, S: Source + Drop>(
    rt: &R,
    alloc: Global,
    source: S,
    wanted: u8,
    told: &[u8],
) -> Result<(), Fail> {
    let (status, sink) = resumed(rt, alloc, source)?;
    assert_eq!(rt; (status, sink.bytes()), (wanted, told));
    Ok(())
}

#[test]
fn a_saved_map_is_begun_from_or_refused(rt: HostRuntime) -> Result<(), Fail> {
    let alloc = rt.alloc();
    let none = Vec::new(alloc);
    let sound = MemSource::new(SAVED.to_vec(alloc)?, none);
    let told = b"connections 0\nframe 1\nentries 0\nwords 00000001 bfc48d14\n";
    comes_to(&rt, alloc, sound, 0, told)?;
    let late = MemSource::new(LATE.to_vec(alloc)?, Vec::new(alloc));
    comes_to(&rt, alloc, late, 3, b"")?;
    let long = MemSource::new(vec![in alloc; 0u8; 65_537]?, Vec::new(alloc));
    comes_to(&rt, alloc, long, 7, b"")?;
    let failing = MemSource::new(SAVED.to_vec(alloc)?, vec![in alloc; 0u64]?);
    comes_to(&rt, alloc, failing, 4, b"")?;
    let nowhere = FileSource::new(&rt, String::from_str(alloc, "there is no such file")?);
    comes_to(&rt, alloc, nowhere, 4, b"")
}
