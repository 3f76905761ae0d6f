//! A core served over all handles of its doors, which stand there again afterwards.
ghost use Rattle.std.specs.Prelude.{◌≡◌, []};

use super::watched::{Patient, Watched};
use super::{ANSWER, Planned, SHORT, SOUND, handle_of, patient};
use std::alloc::Global;
use std::process::Abort;
use std::sync::Wait;
use std::sync::atomic::AtomicU64;
use std::test::*;
use std::thread::Threads;
use std::time::Clock;
use tt_edge::LinkEnd;
use tt_edge::echo::EchoCore;
use tt_workers::{Doors, Ends, Role, serve};

/// Doors with watched handles.
type Watches<'a> = Doors<Watched<'a>, Watched<'a>, Patient<'a>>;

/// Doors with a handle for each of these links, and a clock that tells Stop once so many links came back.
fn doors<'a>(
    alloc: Global,
    links: &[Planned],
    back: &'a AtomicU64,
    wanted: u64,
) -> Result<Watches<'a>, Fail> {
    let mut game = Vec::new(alloc);
    for planned in links {
        if let Role::Game(handle) = handle_of::<Patient<'a>>(alloc, planned, back)? {
            game.push(handle)?;
        }
    }
    let ticker = match patient(back, wanted) {
        Role::Ticker(ticker) => Some(ticker),
        Role::Game(_) | Role::Admin(_) => None,
    };
    let admin = Vec::new(alloc);
    Ok(Doors {
        game,
        admin,
        ticker,
    })
}

/// Serves an echo core over these doors. None where memory ran out, or where the doors have no handle or no ticker.
fn served<R: Threads + Wait + Clock + Sync>(
    rt: &R,
    alloc: Global,
    doors: &mut Watches<'_>,
) -> Option<Ends> {
    let (games, admins) = (doors.game.len(), doors.admin.len());
    if games == 0 || games > 100 || admins > 100 || doors.ticker.is_none() {
        return None;
    }
    match serve(rt, alloc, EchoCore::new(alloc, 7), doors) {
        Ok(ran) => Some(ran.ends),
        Err(_) => None,
    }
}

/// The first link of a handle ended so, and was written this.
fn first_ended<R: Abort>(rt: &R, doors: &Watches<'_>, place: usize, end: LinkEnd, written: &[u8]) {
    let found = match doors.game.get(place) {
        Some(handle) => match handle.door.served().first() {
            Some((served, link)) => Some((served.end, link.written() == written)),
            None => None,
        },
        None => None,
    };
    assert_eq!(rt; (place, found), (place, Some((end, true))));
}

#[test]
fn a_served_core_gives_all_handles_back_in_their_order(rt: HostRuntime) -> Result<(), Fail> {
    let back = AtomicU64::new(0);
    let failing = Planned {
        failing_reads: (0, 1),
        ..SOUND
    };
    let mut doors = doors(rt.alloc(), &[SOUND, failing, SOUND], &back, 3)?;
    let ends = served(&rt, rt.alloc(), &mut doors).ok_or(SHORT)?;
    assert_eq!(rt;
        (ends.memory, ends.listen_fault, ends.tick_fault),
        (false, false, false)
    );
    assert_eq!(rt; (doors.game.len(), doors.ticker.is_some()), (3, true));
    first_ended(&rt, &doors, 0, LinkEnd::PeerEnd, ANSWER);
    first_ended(&rt, &doors, 1, LinkEnd::LinkFault, b"\x07");
    first_ended(&rt, &doors, 2, LinkEnd::PeerEnd, ANSWER);
    Ok(())
}

#[test]
fn a_listener_that_fails_is_told_of_a_served_core(rt: HostRuntime) -> Result<(), Fail> {
    let back = AtomicU64::new(0);
    let failing = Planned {
        failing: (0, 1),
        ..SOUND
    };
    let mut doors = doors(rt.alloc(), &[failing, SOUND], &back, 1)?;
    let ends = served(&rt, rt.alloc(), &mut doors).ok_or(SHORT)?;
    assert_eq!(rt;
        (ends.memory, ends.listen_fault, ends.tick_fault),
        (false, true, false)
    );
    first_ended(&rt, &doors, 1, LinkEnd::PeerEnd, ANSWER);
    Ok(())
}
