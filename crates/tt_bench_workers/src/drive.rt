//! One run: a server on a socket of 127.0.0.1 and its clients, in one process.
ghost use Rattle.std.specs.Prelude.{◌≤◌};

use crate::board::{Board, now};
use crate::figures::Figures;
use crate::{client, plain, served};
use std::alloc::{AllocGlobal, Global};
use std::fs::{self, Files};
use std::net::{Net, SocketAddr, TcpListener, TcpStream};
use std::sync::Wait;
use std::thread::{self, Threads, join};
use std::time::{Clock, CpuClock, Duration};

/// Who serves.
#[derive(Clone, Copy, Debug, PartialEq, Eq)]
pub enum Way {
    /// The workers of this repository.
    Workers,
    /// A loop over std's sockets.
    Plain,
}

/// What a run is to do.
#[derive(Clone, Copy)]
pub struct Task {
    pub way: Way,
    /// How many handles the server has, at most 1,000.
    pub handles: u32,
    /// How many links are connected.
    pub links: u32,
    /// How many bytes of beats, and how many answers, are waited for.
    pub wanted: (usize, usize),
    /// How many connections are made and dropped one after another, before that.
    pub visits: u32,
    /// How many milliseconds the server is left alone, before that.
    pub rest: u64,
}

/// What a run came to. All times are in microseconds.
#[derive(Clone, Copy, Debug)]
pub struct Outcome {
    /// Beats at 50 and 95 of 100, and answers.
    pub late: [u64; 4],
    /// Until all links were greeted.
    pub greeted: u64,
    /// How long the visits took.
    pub visited: u64,
    /// Of a million of a processor's time, how much was used while the server was left alone.
    pub idle: u64,
    /// The same while beats were told and links asked.
    pub busy: u64,
    /// The bytes of memory that each link took.
    pub bytes: u64,
    /// The bytes of memory that the process held with all links.
    pub held: u64,
}

/// Of a million of the time since, how much of a processor's.
fn share<R: Clock + CpuClock>(rt: &R, since: u64, used: u64) -> u64 {
    let passed = now(rt).saturating_sub(since).max(1);
    used_by(rt).saturating_sub(used).saturating_mul(1_000_000) / passed
}

/// The processor's time that was used by now.
fn used_by<R: CpuClock>(rt: &R) -> u64 {
    rt.process_cpu_time().map_or(0, crate::board::micros)
}

/// The bytes of memory that the process holds.
fn held<R: Files + AllocGlobal>(rt: &R) -> Option<u64> {
    let text = fs::read_to_string(rt, "/proc/self/statm").ok()?;
    let pages = text.split(' ').nth(1)?.parse::<u64>().ok()?;
    Some(pages.saturating_mul(4096))
}

/// Leaves the server alone, and answers how much of a processor it used, of a million.
fn alone<R: Clock + CpuClock>(rt: &R, milliseconds: u64) -> u64 {
    let (since, used) = (now(rt), used_by(rt));
    thread::sleep(rt, Duration::from_millis(milliseconds));
    share(rt, since, used)
}

/// Connects so often, one connection after another, and answers how long that took.
fn visit<R: Net<Listener = TcpListener, Stream = TcpStream> + Clock>(
    rt: &R,
    place: SocketAddr,
    visits: u32,
) -> Option<u64> {
    let since = now(rt);
    for _ in 0..visits {
        let mut stream = client::connect(rt, place)?;
        client::greeted(&mut stream)?;
    }
    Some(now(rt).saturating_sub(since))
}

/// What the clients do.
fn drive<R>(rt: &R, alloc: Global, place: SocketAddr, task: &Task, board: &Board) -> Option<Outcome>
where
    R: Net<Listener = TcpListener, Stream = TcpStream> + Clock + CpuClock + Files + AllocGlobal,
{
    let idle = alone(rt, task.rest);
    let before = held(rt)?;
    let since = now(rt);
    let mut streams = client::all(rt, alloc, place, task.links)?;
    let greeted = now(rt).saturating_sub(since);
    let held = held(rt)?;
    let bytes = held.saturating_sub(before) / u64::from(task.links.max(1));
    board.greet(task.links);
    let (since, used) = (now(rt), used_by(rt));
    let mut figures = Figures::new(alloc);
    client::listen(rt, alloc, &mut streams, board, task.wanted, &mut figures)?;
    let busy = share(rt, since, used);
    let late = figures.told();
    board.greet(0);
    drop(streams);
    let visited = visit(rt, place, task.visits)?;
    Some(Outcome {
        late,
        greeted,
        visited,
        idle,
        busy,
        bytes,
        held,
    })
}

/// Does a task. None where a socket, memory or descriptors failed.
pub fn run<R>(rt: &R, alloc: Global, task: &Task) -> Option<Outcome>
where
    R: Net<Listener = TcpListener, Stream = TcpStream>
        + Threads
        + Wait
        + Clock
        + CpuClock
        + Files
        + AllocGlobal
        + Sync,
    requires { task.now.handles ≤ 1000 }
{
    let listener = TcpListener::bind(rt, "127.0.0.1:0").ok()?;
    let place = listener.local_addr().ok()?;
    let board = Board::new(alloc).ok()?;
    let shared = &board;
    let handles = task.handles;
    let way = task.way;
    let (served, driven) = join(
        rt,
        move || -> Option<()>
            requires { handles ≤ 1000 }
        {
            match way {
                Way::Workers => served::serve(rt, alloc, listener, handles, shared),
                Way::Plain => plain::serve(rt, alloc, listener, handles, shared),
            }
        },
        move || {
            let driven = drive(rt, alloc, place, task, shared);
            shared.end();
            driven
        },
    );
    served?;
    driven
}
