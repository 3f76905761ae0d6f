//! The workers of this repository over the echo core. At each beat each link is told one byte.
ghost use Rattle.std.specs.Prelude.{◌≡◌, ◌<◌, ◌≤◌, All, IfSome};
ghost use Rattle.tt_room.specs.Passes.{IsOf};
ghost use Rattle.tt_workers.specs.Working.{IsReady};

mod telling;

use self::telling::Telling;
use crate::board::Board;
use std::alloc::Global;
use std::net::TcpListener;
use std::sync::Wait;
use std::thread::Threads;
use std::time::Clock;
use tt_edge::TcpDoor;
use tt_edge::echo::EchoCore;
use tt_frame::Framer;
use tt_room::{Pass, Room};
use tt_workers::{Role, Worker, WorkerEnd, run_workers};

/// The byte that the echo core greets each link with.
pub const GREETING: u8 = 254;

/// A worker of a measured server.
type Hand<'a, R> = Worker<EchoCore, TcpDoor<&'a R>, TcpDoor<&'a R>, Telling<'a, R>>;

/// A worker with this role and this pass. None where memory ran out.
fn hand<'a, R>(
    alloc: Global,
    room: &Room<EchoCore>,
    role: Role<TcpDoor<&'a R>, TcpDoor<&'a R>, Telling<'a, R>>,
    pass: Pass<EchoCore>,
) -> Option<Hand<'a, R>>
    requires { IsOf room.now pass }
    ensures { IfSome result (IsReady room.now) }
{
    let Ok(framer) = Framer::new(alloc, 32767) else {
        return None;
    };
    let end = WorkerEnd::Fresh;
    Some(Worker {
        role,
        pass,
        framer,
        end,
    })
}

/// A worker with a handle on the door for each pass. None where memory, or descriptors, ran out.
fn hire<'a, R: Clock>(
    alloc: Global,
    room: &Room<EchoCore>,
    mut passes: Vec<Pass<EchoCore>>,
    door: &TcpDoor<&'a R>,
) -> Option<Vec<Hand<'a, R>>>
    requires { All (IsOf room.now) passes.items }
    ensures { IfSome result (λ workers. All (IsReady room.now) workers.items) }
{
    let mut workers = Vec::new(alloc);
    'hiring: while let Some(pass) = passes.pop() {
        let worker = hand(alloc, room, Role::Game(door.another().ok()?), pass)?;
        match workers.push(worker) {
            Ok(()) => {}
            Err(_) => return None,
        }
    }
    Some(workers)
}

/// All workers: one with the clock, and one with a handle on the socket for each of the passes. None where memory, or
/// descriptors, ran out.
fn hire_all<'a, R: Wait + Clock>(
    rt: &'a R,
    alloc: Global,
    room: &'a Room<EchoCore>,
    mut passes: Vec<Pass<EchoCore>>,
    listener: TcpListener,
    board: &'a Board,
) -> Option<Vec<Hand<'a, R>>>
    requires { All (IsOf room.now) passes.items }
    ensures { IfSome result (λ workers. All (IsReady room.now) workers.items) }
{
    let telling = passes.pop()?;
    let ticking = passes.pop()?;
    let door = TcpDoor::new(rt, listener).ok()?;
    let ticker = Telling::new(rt, alloc, room, telling, board);
    let clock = hand(alloc, room, Role::Ticker(ticker), ticking)?;
    let mut workers = hire(alloc, room, passes, &door)?;
    match workers.push(clock) {
        Ok(()) => Some(workers),
        Err(_) => None,
    }
}

/// Serves a socket with so many handles, until all is done. None where memory, or descriptors, ran out.
pub fn serve<R: Threads + Wait + Clock + Sync>(
    rt: &R,
    alloc: Global,
    listener: TcpListener,
    handles: u32,
    board: &Board,
) -> Option<()>
    requires { handles ≤ 1000 }
{
    let (room, passes) = Room::new(alloc, EchoCore::new(alloc, GREETING), handles + 2).ok()?;
    let mut workers = hire_all(rt, alloc, &room, passes, listener, board)?;
    run_workers(rt, alloc, &room, &mut workers);
    Some(())
}
