//! Workers, and how they run side by side.
ghost use Rattle.std.specs.Prelude.{◌≡◌, ◌<◌, ℕ, All, vec_len, slice_index_or};
ghost use Rattle.tt_frame.specs.Runs.{empty_of};
ghost use Rattle.tt_room.specs.Passes.{start_of};
ghost use Rattle.tt_workers.specs.Telling.{link_now};
ghost use Rattle.tt_workers.specs.Working.{IsReady, Works, core_view, door_view, tick_view, tick_end};

use crate::attending::{WorkerEnd, attend};
use crate::gate::{Gate, OpenGate};
use crate::rest::Rest;
use crate::ticks::{TickEnd, tick_loop};
use std::alloc::Global;
use std::sync::Wait;
use std::thread;
use std::thread::Threads;
use std::time::Clock;
use tt_edge::{Door, Listener, Servable, Ticker};
use tt_frame::Framer;
use tt_room::{Pass, Room};

/// What a server listens on: handles on the sockets of its two doors, and its clock.
#[derive(Drop)]
pub struct Doors<L, A, T> {
    /// The handles of the main door.
    pub game: Vec<L>,
    /// The handles of the side door.
    pub admin: Vec<A>,
    /// The clock, where it is there.
    pub ticker: Option<T>,
}

/// What a worker does.
#[derive(Drop)]
pub enum Role<L, A, T> {
    /// It serves the links of a listener at the main door.
    Game(L),
    /// It serves the links of a listener at the side door.
    Admin(A),
    /// It hands over what a ticker tells.
    Ticker(T),
}

/// One thread's part of a server.
#[derive(Drop)]
pub struct Worker<C, L, A, T> {
    pub role: Role<L, A, T>,
    pub pass: Pass<C>,
    pub framer: Framer,
    pub end: WorkerEnd,
}

/// A worker's end, by that of its tick loop.
fn tick_end(end: TickEnd) -> WorkerEnd
    ensures { result ≡ tick_end end }
{
    match end {
        TickEnd::Over => WorkerEnd::Over,
        TickEnd::Stopped => WorkerEnd::Stopped,
        TickEnd::Fault => WorkerEnd::TickFault,
        TickEnd::Memory => WorkerEnd::Memory,
    }
}

/// Runs one worker to its end.
fn run<R: Wait + Clock, C: Servable, L: Listener, A: Listener, T: Ticker, G: Gate>(
    rt: &R,
    alloc: Global,
    room: &Room<C>,
    gate: &G,
    rest: &Rest,
    worker: &mut Worker<C, L, A, T>,
)
    requires { IsReady room.now worker.old }
    ensures { Works room.now (core_view (C.sent (C.made (start_of room.now))) (C.is_live (C.made (start_of room.now)))
        (C.is_over (C.made (start_of room.now))))
        (door_view L.counts L.served L.peers (link_now L.Link.counts L.Link.left L.Link.was_read L.Link.held))
        (door_view A.counts A.served A.peers (link_now A.Link.counts A.Link.left A.Link.was_read A.Link.held))
        (tick_view T.counts T.beats) worker.old worker.new }
{
    match &mut worker.role {
        Role::Game(listener) => {
            worker.end = attend(
                rt,
                alloc,
                room,
                &mut worker.pass,
                gate,
                rest,
                &mut worker.framer,
                Door::Main,
                listener,
            );
        }
        Role::Admin(listener) => {
            worker.end = attend(
                rt,
                alloc,
                room,
                &mut worker.pass,
                gate,
                rest,
                &mut worker.framer,
                Door::Side,
                listener,
            );
        }
        Role::Ticker(ticker) => {
            worker.end = tick_end(tick_loop(rt, room, &mut worker.pass, ticker));
        }
    }
}

/// Runs all workers, each in a thread of its own, until each has ended.
fn run_all<
    R: Threads + Wait + Clock + Sync,
    C: Servable + Send,
    L: Listener + Send,
    A: Listener + Send,
    T: Ticker + Send,
    G: Gate + Sync,
>(
    rt: &R,
    alloc: Global,
    room: &Room<C>,
    workers: &mut Vec<Worker<C, L, A, T>>,
    gate: &G,
    rest: &Rest,
)
where
    L::Link: Send,
    A::Link: Send,
    requires { All (IsReady room.now) workers.old.items }
    ensures len { vec_len workers.new ≡ vec_len workers.old }
    ensures parts { (i : ℕ) (d : _) → i < vec_len workers.old → Works room.now
        (core_view (C.sent (C.made (start_of room.now))) (C.is_live (C.made (start_of room.now))) (C.is_over (C.made (start_of room.now))))
        (door_view L.counts L.served L.peers (link_now L.Link.counts L.Link.left L.Link.was_read L.Link.held))
        (door_view A.counts A.served A.peers (link_now A.Link.counts A.Link.left A.Link.was_read A.Link.held))
        (tick_view T.counts T.beats) (slice_index_or workers.old.items i d) (slice_index_or workers.new.items i d) }
{
    let threads = workers.len().max(1);
    let all = workers.as_mut_slice();
    thread::for_each_mut(
        rt,
        all,
        threads,
        &|_, worker: &mut Worker<C, L, A, T>|
            requires { IsReady room.now worker.old }
            ensures { Works room.entry.now (core_view (C.sent (C.made (start_of room.entry.now)))
                (C.is_live (C.made (start_of room.entry.now))) (C.is_over (C.made (start_of room.entry.now))))
                (door_view L.counts L.served L.peers (link_now L.Link.counts L.Link.left L.Link.was_read L.Link.held))
                (door_view A.counts A.served A.peers (link_now A.Link.counts A.Link.left A.Link.was_read A.Link.held))
                (tick_view T.counts T.beats) worker.old worker.new }
        { run(rt, alloc, room, gate, rest, worker) },
    );
}

/// Runs all workers, each in a thread of its own, until each has ended. Where threads can't be started, the threads that
/// there are run the workers, one after another.
pub fn run_workers_with<
    R: Threads + Wait + Clock + Sync,
    C: Servable + Send,
    L: Listener + Send,
    A: Listener + Send,
    T: Ticker + Send,
    G: Gate + Sync,
>(rt: &R, alloc: Global, room: &Room<C>, workers: &mut Vec<Worker<C, L, A, T>>, gate: &G)
where
    L::Link: Send,
    A::Link: Send,
    requires { All (IsReady room.now) workers.old.items }
    ensures len { vec_len workers.new ≡ vec_len workers.old }
    ensures parts { (i : ℕ) (d : _) → i < vec_len workers.old → Works room.now
        (core_view (C.sent (C.made (start_of room.now))) (C.is_live (C.made (start_of room.now))) (C.is_over (C.made (start_of room.now))))
        (door_view L.counts L.served L.peers (link_now L.Link.counts L.Link.left L.Link.was_read L.Link.held))
        (door_view A.counts A.served A.peers (link_now A.Link.counts A.Link.left A.Link.was_read A.Link.held))
        (tick_view T.counts T.beats) (slice_index_or workers.old.items i d) (slice_index_or workers.new.items i d) }
{
    let rest = Rest::new(workers.len());
    run_all(rt, alloc, room, workers, gate, &rest);
}

/// The same with no gate.
pub fn run_workers<
    R: Threads + Wait + Clock + Sync,
    C: Servable + Send,
    L: Listener + Send,
    A: Listener + Send,
    T: Ticker + Send,
>(rt: &R, alloc: Global, room: &Room<C>, workers: &mut Vec<Worker<C, L, A, T>>)
where
    L::Link: Send,
    A::Link: Send,
    requires { All (IsReady room.now) workers.old.items }
    ensures len { vec_len workers.new ≡ vec_len workers.old }
    ensures parts { (i : ℕ) (d : _) → i < vec_len workers.old → Works room.now
        (core_view (C.sent (C.made (start_of room.now))) (C.is_live (C.made (start_of room.now))) (C.is_over (C.made (start_of room.now))))
        (door_view L.counts L.served L.peers (link_now L.Link.counts L.Link.left L.Link.was_read L.Link.held))
        (door_view A.counts A.served A.peers (link_now A.Link.counts A.Link.left A.Link.was_read A.Link.held))
        (tick_view T.counts T.beats) (slice_index_or workers.old.items i d) (slice_index_or workers.new.items i d) }
{
    run_workers_with(rt, alloc, room, workers, &OpenGate);
}
