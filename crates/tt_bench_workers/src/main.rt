//! How soon what a core tells is at the other end of a socket, with the workers of this repository and, beside them, with a plain
//! loop over std's sockets.
//!
//! `tt_bench_workers` makes a small run of each, and writes that all came; that is the same at each run.
//! `tt_bench_workers full` measures, for a minute or two.
#![tactic(auto)]

ghost use Rattle.std.specs.Prelude.{◌≤◌};

mod board;
mod client;
mod drive;
mod figures;
mod plain;
mod served;

use crate::drive::{Outcome, Task, Way, run};
use std::alloc::Global;
use std::env;
use std::fs::Files;
use std::io::{self, Print};
use std::net::{Net, TcpListener, TcpStream};
use std::process::ExitCode;
use std::rt::Env;
use std::sync::Wait;
use std::thread::Threads;
use std::time::{Clock, CpuClock};

/// How many handles a server has that is measured: as many as a game server with its admins.
const HANDLES: u32 = 273;

/// How it is used.
const HELP: &str = "Measures workers over loopback, beside a plain loop over std's sockets.

Use: tt_bench_workers [full]

Without a word it makes a small run of each and tells no times. With full it measures
for a minute or two. The exit status is 0 when all was done, 1 when a socket failed
or memory ran out, 2 for unknown words, and 5 when writing failed.";

/// Which version it is.
const VERSION: &str = "tt_bench_workers 0.1";

/// What was asked for.
#[derive(Clone, Copy)]
enum Asked {
    Text(&'static str),
    Small,
    Full,
}

fn main(rt: HostRuntime) -> ExitCode {
    let done = match asked_by(&rt) {
        None => return ExitCode::from(2),
        Some(Asked::Text(text)) => say(&rt, text),
        Some(Asked::Small) => small(&rt, rt.alloc()),
        Some(Asked::Full) => full(&rt, rt.alloc()),
    };
    match done {
        Ok(true) => ExitCode::from(0),
        Ok(false) => ExitCode::from(1),
        Err(_) => ExitCode::from(5),
    }
}

/// What the words ask for.
fn asked_by<R: Env + AllocGlobal>(rt: &R) -> Option<Asked> {
    let mut words = env::args(rt).ok()?.skip(1);
    let Some(word) = words.next() else {
        return Some(Asked::Small);
    };
    match word.as_str() {
        "full" => Some(Asked::Full),
        "--help" => Some(Asked::Text(HELP)),
        "--version" => Some(Asked::Text(VERSION)),
        _ => None,
    }
}

/// Writes a text and the end of its line.
fn say<R: Print>(rt: &R, text: &str) -> io::Result<bool> {
    println!(rt; "{text}")?;
    Ok(true)
}

/// Who serves, in a word.
fn name(way: Way) -> &'static str {
    match way {
        Way::Workers => "workers",
        Way::Plain => "plain loop",
    }
}

/// A small run of each way.
fn small<R>(rt: &R, alloc: Global) -> io::Result<bool>
where
    R: Net<Listener = TcpListener, Stream = TcpStream>
        + Threads
        + Wait
        + Clock
        + CpuClock
        + Files
        + Print
        + AllocGlobal
        + Sync,
{
    for way in [Way::Workers, Way::Plain] {
        let task = Task {
            way,
            handles: 8,
            links: 4,
            wanted: (40, 8),
            visits: 5,
            rest: 10,
        };
        if run(rt, alloc, &task).is_none() {
            return Ok(false);
        }
        println!(rt;
            "{}: 4 links, each told its beats and answered, and 5 visits",
            name(way)
        )?;
    }
    Ok(true)
}

/// The figures of each way.
fn full<R>(rt: &R, alloc: Global) -> io::Result<bool>
where
    R: Net<Listener = TcpListener, Stream = TcpStream>
        + Threads
        + Wait
        + Clock
        + CpuClock
        + Files
        + Print
        + AllocGlobal
        + Sync,
{
    for way in [Way::Workers, Way::Plain] {
        for links in [1, 25, 255] {
            let task = Task {
                way,
                handles: HANDLES,
                links,
                wanted: (200 * links as usize, 500),
                visits: if links == 1 { 300 } else { 0 },
                rest: if links == 1 { 10_000 } else { 1_000 },
            };
            let Some(told) = run(rt, alloc, &task) else {
                return Ok(false);
            };
            tell(rt, &task, &told)?;
        }
    }
    Ok(true)
}

/// Writes what a run came to.
fn tell<R: Print>(rt: &R, task: &Task, run: &Outcome) -> io::Result<()> {
    let [beat, late_beat, answer, late_answer] = run.late;
    println!(rt; "{}, {} links:", name(task.way), task.links)?;
    println!(rt; "  from a beat to its byte: {beat} us at 50 of 100, {late_beat} us at 95")?;
    println!(rt; "  from a byte to its echo: {answer} us at 50 of 100, {late_answer} us at 95")?;
    println!(rt; "  all greeted after {} us", run.greeted)?;
    println!(rt;
        "  bytes of memory: {} a link, {} in all",
        run.bytes, run.held
    )?;
    println!(rt;
        "  millionths of a processor: {} with no link, {} with all",
        run.idle, run.busy
    )?;
    if task.visits > 0 {
        println!(rt; "  {} connections in {} us", task.visits, run.visited)?;
    }
    Ok(())
}
