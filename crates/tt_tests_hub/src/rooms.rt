//! A room over a hub, with a pass for each of two threads.
ghost use Rattle.tt_room.specs.Passes.{IsOf};
ghost use Rattle.std.specs.Prelude.{◌≡◌, true};
ghost use Rattle.tt_edge.specs.Event.{is_open};

use std::alloc::Global;
use std::process::Abort;
use std::sync::Wait;
use std::test::*;
use std::thread::{Threads, join};
use tt_edge::{Door, Event, Peer};
use tt_hub::Hub;
use tt_room::{CloseErr, Pass, Room};
use tt_world::Setup;

/// Where the tests' connections come from.
fn opening() -> Event
    ensures { is_open result ≡ true }
{
    let host = [127, 0, 0, 1];
    Event::Open {
        door: Door::Main,
        peer: Peer { host, port: 3979 },
    }
}

/// A room over a hub, with its two passes.
fn room_for_two<R: Abort>(rt: &R, alloc: Global) -> (Room<Hub>, Pass<Hub>, Pass<Hub>)
    ensures { IsOf result.0 result.1 × IsOf result.0 result.2 }
{
    let setup = Setup::plain();
    if !setup.fits() {
        panic!(rt; "the plain setup is out of range")
    }
    let Ok(hub) = Hub::new(alloc, &setup) else {
        panic!(rt; "memory ran out")
    };
    let Ok((room, mut passes)) = Room::new(alloc, hub, 2) else {
        panic!(rt; "memory ran out")
    };
    let second = passes.pop().expect(rt, "two passes");
    let first = passes.pop().expect(rt, "two passes");
    (room, first, second)
}

#[test]
fn a_room_gives_its_hub_back_with_all_passes_only(rt: HostRuntime) -> Result<(), Fail> {
    let alloc = rt.alloc();
    let (room, mut first, mut second) = room_for_two(&rt, alloc);
    let Ok(conn) = room.event(&rt, &mut first, opening()) else {
        panic!(rt; "the opening was refused")
    };
    assert_eq!(rt; conn, 1);
    assert_eq!(rt; room.event(&rt, &mut second, Event::Tick), Ok(0));
    let mut piece = [0; 4];
    let took = room.take(&rt, &mut first, conn, &mut piece);
    assert_eq!(rt; (took.count, took.done), (0, false));
    let mut passes = Vec::new(alloc);
    passes.push(first)?;
    let Err(
        CloseErr::Short {
            held,
            given,
            room,
            mut passes,
        },
    ) = room.close(passes)
    else {
        panic!(rt; "one pass was missing")
    };
    assert_eq!(rt; (held, given), (2, 1));
    passes.push(second)?;
    let Ok(hub) = room.close(passes) else {
        panic!(rt; "all passes are there")
    };
    assert_eq!(rt; (hub.frame(), hub.connections()), (1, 1));
    Ok(())
}

/// Puts 100 ticks, and answers how many of them were taken.
fn tick_often<R: Wait>(rt: &R, room: &Room<Hub>, mut pass: Pass<Hub>) -> (Pass<Hub>, u32)
    requires { IsOf room.now pass }
    ensures { IsOf room.now result.0 }
{
    let mut taken = 0;
    for i in 0..100u32 {
        if room.event(rt, &mut pass, Event::Tick).is_ok() && taken <= i {
            taken += 1;
        }
    }
    (pass, taken)
}

/// Two threads put 100 ticks each; the answer is the frame of the hub that comes out.
fn tick_in_two_threads<R: Threads + Wait + Abort + Sync>(
    rt: &R,
    alloc: Global,
    room: Room<Hub>,
    first: Pass<Hub>,
    second: Pass<Hub>,
) -> Result<u32, Fail>
    requires { IsOf room first × IsOf room second }
{
    let ((first, a), (second, b)) = join(
        rt,
        || -> (Pass<Hub>, u32)
            requires { IsOf room first }
            ensures { IsOf room result.0 }
        { tick_often(rt, &room, first) },
        || -> (Pass<Hub>, u32)
            requires { IsOf room second }
            ensures { IsOf room result.0 }
        { tick_often(rt, &room, second) },
    );
    assert_eq!(rt; (a, b), (100, 100));
    let mut passes = Vec::new(alloc);
    passes.push(first)?;
    passes.push(second)?;
    let Ok(hub) = room.close(passes) else {
        return Ok(0);
    };
    Ok(hub.frame())
}

#[test]
fn no_tick_of_two_threads_is_lost(rt: HostRuntime) -> Result<(), Fail> {
    let alloc = rt.alloc();
    let (room, first, second) = room_for_two(&rt, alloc);
    assert_eq!(rt; tick_in_two_threads(&rt, alloc, room, first, second)?, 200);
    Ok(())
}
