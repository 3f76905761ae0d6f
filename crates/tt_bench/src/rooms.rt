//! Ticks that threads put into one room over a hub.
ghost use Rattle.std.specs.Prelude.{◌≡◌, ◌<◌, ◌≤◌, All, IfOk, vec_len};
ghost use Rattle.tt_room.specs.Passes.{IsOf, seats_of};

use std::alloc::Global;
use std::sync::Wait;
use std::thread;
use std::thread::Threads;
use tt_edge::Event;
use tt_frame::OutOfMemory;
use tt_hub::Hub;
use tt_room::{Pass, Room};
use tt_world::Setup;

/// Puts so many ticks into a room over a hub, each thread the same number of them; answers how many the hub took.
pub fn ticks<R: Threads + Wait + Sync>(
    rt: &R,
    alloc: Global,
    count: u32,
    threads: u32,
) -> Result<u64, OutOfMemory>
    requires { (0 < threads) × (threads ≤ 1024) }
{
    let (room, mut passes) = room_for(alloc, threads)?;
    put_by_all(rt, &room, &mut passes, count / threads);
    Ok(taken(room, passes))
}

/// A room over a hub, with a pass for each thread.
fn room_for(alloc: Global, threads: u32) -> Result<(Room<Hub>, Vec<Pass<Hub>>), OutOfMemory>
    requires { (0 < threads) × (threads ≤ 1024) }
    ensures { IfOk result (λ made. All (IsOf made.0) made.1.items × (vec_len made.1 ≡ seats_of made.0)) }
{
    let hub = Hub::new(alloc, &Setup::plain())?;
    match Room::new(alloc, hub, threads) {
        Ok(made) => Ok(made),
        Err(_) => Err(OutOfMemory),
    }
}

/// Puts so many ticks with each pass, in a thread of its own.
fn put_by_all<R: Threads + Wait + Sync>(
    rt: &R,
    room: &Room<Hub>,
    passes: &mut [Pass<Hub>],
    each: u32,
)
    requires { All (IsOf room.now) passes.old }
    ensures { All (IsOf room.now) passes.new }
{
    let threads = passes.len();
    if threads == 0 {
        return;
    }
    thread::for_each_mut(
        rt,
        passes,
        threads,
        &|_, pass: &mut Pass<Hub>|
            requires { IsOf room.now pass.old }
            ensures { IsOf room.entry.now pass.new }
        { put(rt, room, pass, each) },
    );
}

/// Puts so many ticks with one pass; it stops where one is refused.
fn put<R: Wait>(rt: &R, room: &Room<Hub>, pass: &mut Pass<Hub>, count: u32)
    requires { IsOf room.now pass.old }
    ensures { IsOf room.now pass.new }
{
    for _ in 0..count {
        if room.event(rt, pass, Event::Tick).is_err() {
            break;
        }
    }
}

/// Closes the room with all its passes; answers how many ticks its hub has taken.
fn taken(room: Room<Hub>, passes: Vec<Pass<Hub>>) -> u64
    requires room { All (IsOf room) passes.items }
    requires all { vec_len passes ≡ seats_of room }
{
    match room.close(passes) {
        Ok(hub) => u64::from(hub.frame()),
        Err(_) => unreachable!(),
    }
}
