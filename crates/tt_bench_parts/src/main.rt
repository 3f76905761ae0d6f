//! Each line says how much work a part did by itself, without a room or sockets, and what came of it; with the word `time`
//! also how long each took.
//!
//! `tt_bench_parts N` tells a packet of chat N times to 255 connections at once, and N times to each of them alone; each
//! time they take it whole. What comes to the members of a game is planned and put in force N times, without bytes: the
//! acknowledgements of 25, chats among 255, and ticks of 25 and of 255. Then it feeds a client a game of N frames, once in pieces of 1,400 bytes and once byte by byte,
//! and runs the same frames on a bare world beside; all three come to the same frame and random word. The same bytes are cut
//! and decoded alone, which a client can't do without. Last, a client is told the words of N frames, the last frame first,
//! before it may run them: it keeps them all. What it prints is the same at each run; `tt_bench_parts N time` adds the times,
//! which are not: nanoseconds of one packet for all, with its taking, and of one frame.
#![tactic(auto)]

mod crowd;
mod decoding;
mod fault;
mod game;
mod outgoing;
mod playing;

use crate::crowd::{Course, crowd_of, gone_on};
use crate::decoding::decoded;
use crate::fault::{Fault, Reached};
use crate::game::{bare, stream, words_backward};
use crate::outgoing::{owned, shared};
use crate::playing::played;
use std::alloc::Global;
use std::env;
use std::io::Print;
use std::process::ExitCode;
use std::rt::Env;
use std::time::{Clock, Duration, Instant};

/// The most of each that are measured.
const MOST: u32 = 1_000_000;

/// The sizes of the pieces in which a stream is fed.
const LARGE: usize = 1_400;

const SINGLE: usize = 1;

/// How it is used.
const HELP: &str = "Measures outgoing bytes and the client, each by itself.

Use: tt_bench_parts N [time]

It does each kind of work N times, at most 1000000, and writes a line for each.
With the word time each line tells how many nanoseconds one took. The exit status is
0 when all was done, 1 when a client or a sum is not as it should be, 2 for unknown
words, 5 when writing or the clock failed, and 6 when memory ran out.";

/// Which version it is.
const VERSION: &str = "tt_bench_parts 0.1";

/// What was asked for: a text, or work.
#[derive(Clone, Copy)]
enum Asked {
    Text(&'static str),
    Work(Words),
}

/// How much work is to be done, and whether its times are told.
#[derive(Clone, Copy)]
struct Words {
    count: u32,
    timed: bool,
}

fn main(rt: HostRuntime) -> ExitCode {
    let done = match asked_by(&rt) {
        None => return ExitCode::from(2),
        Some(Asked::Text(text)) => say(&rt, text),
        Some(Asked::Work(words)) => all_measured(&rt, rt.alloc(), &words),
    };
    match done {
        Ok(()) => ExitCode::from(0),
        Err(Fault::Apart) => ExitCode::from(1),
        Err(Fault::Io) => ExitCode::from(5),
        Err(Fault::Memory) => ExitCode::from(6),
    }
}

/// What the words ask for: a number, and perhaps `time` behind it, or a text.
fn asked_by<R: Env + AllocGlobal>(rt: &R) -> Option<Asked> {
    let mut words = env::args(rt).ok()?.skip(1);
    let first = words.next()?;
    if first.as_str() == "--help" {
        return Some(Asked::Text(HELP));
    }
    if first.as_str() == "--version" {
        return Some(Asked::Text(VERSION));
    }
    let count = first.as_str().parse::<u32>().ok()?;
    let timed = match words.next() {
        Some(word) => word.as_str() == "time",
        None => false,
    };
    if count > MOST {
        return None;
    }
    Some(Asked::Work(Words { count, timed }))
}

/// Writes a text; it needs no memory.
fn say<R: Print>(rt: &R, text: &str) -> Result<(), Fault> {
    println!(rt; "{text}")?;
    Ok(())
}

/// Does all of the work and prints a line for each.
fn all_measured<R: Clock + Print>(rt: &R, alloc: Global, words: &Words) -> Result<(), Fault> {
    outgoing_measured(rt, alloc, words)?;
    members_measured(rt, alloc, words)?;
    client_measured(rt, alloc, words)?;
    decoding_measured(rt, alloc, words)?;
    backward_measured(rt, alloc, words)
}

/// A packet for all connections, shared and told to each alone; they take as many bytes of the one as of the other.
fn outgoing_measured<R: Clock + Print>(rt: &R, alloc: Global, words: &Words) -> Result<(), Fault> {
    let before = Instant::now(rt)?;
    let by_share = shared(alloc, words.count)?;
    let between = Instant::now(rt)?;
    let by_own = owned(alloc, words.count)?;
    let behind = Instant::now(rt)?;
    if by_share != by_own {
        return Err(Fault::Apart);
    }
    let lines = [
        ("share to 255", by_share, between.duration_since(before)),
        ("own to 255", by_own, behind.duration_since(between)),
    ];
    for (what, sum, time) in lines {
        tell(rt, words.timed, (what, words.count), ("bytes", sum), time)?;
    }
    Ok(())
}

/// What comes to the members of a game, planned and put in force by itself.
fn members_measured<R: Clock + Print>(rt: &R, alloc: Global, words: &Words) -> Result<(), Fault> {
    let works = [
        (
            "acknowledgements of 25 members",
            25,
            Course::Acknowledgements,
        ),
        ("chats among 255 members", 255, Course::Chats),
        ("ticks of 25 members", 25, Course::Ticks),
        ("ticks of 255 members", 255, Course::Ticks),
    ];
    for (what, size, course) in works {
        let mut crowd = crowd_of(alloc, size)?;
        let before = Instant::now(rt)?;
        let steps = gone_on(alloc, &mut crowd, course, words.count)?;
        let time = Instant::now(rt)?.duration_since(before);
        tell(rt, words.timed, (what, words.count), ("steps", steps), time)?;
    }
    Ok(())
}

/// A game that a client is fed in large pieces and byte by byte, and the same game on a bare world.
fn client_measured<R: Clock + Print>(rt: &R, alloc: Global, words: &Words) -> Result<(), Fault> {
    let stream = stream(alloc, words.count)?;
    let before = Instant::now(rt)?;
    let whole = played(alloc, &stream, LARGE)?;
    let between = Instant::now(rt)?;
    let single = played(alloc, &stream, SINGLE)?;
    let behind = Instant::now(rt)?;
    let alone = bare(alloc, words.count)?;
    let last = Instant::now(rt)?;
    if whole != alone || single != alone {
        return Err(Fault::Apart);
    }
    let lines = [
        (
            "client frames by 1400",
            whole,
            between.duration_since(before),
        ),
        ("client frames by 1", single, behind.duration_since(between)),
        ("bare frames", alone, last.duration_since(behind)),
    ];
    for (what, Reached { frame, word }, time) in lines {
        tell(
            rt,
            words.timed,
            (what, frame),
            ("word", u64::from(word)),
            time,
        )?;
    }
    Ok(())
}

/// The packets of that game, cut and decoded alone.
fn decoding_measured<R: Clock + Print>(rt: &R, alloc: Global, words: &Words) -> Result<(), Fault> {
    let stream = stream(alloc, words.count)?;
    let before = Instant::now(rt)?;
    let whole = decoded(alloc, &stream, LARGE)?;
    let between = Instant::now(rt)?;
    let single = decoded(alloc, &stream, SINGLE)?;
    let behind = Instant::now(rt)?;
    let lines = [
        ("decoding by 1400", whole, between.duration_since(before)),
        ("decoding by 1", single, behind.duration_since(between)),
    ];
    for (what, sum, time) in lines {
        tell(rt, words.timed, (what, words.count), ("packets", sum), time)?;
    }
    Ok(())
}

/// A client that is told the words of all frames backward, before it may run them.
fn backward_measured<R: Clock + Print>(rt: &R, alloc: Global, words: &Words) -> Result<(), Fault> {
    let (stream, wanted) = words_backward(alloc, words.count)?;
    let before = Instant::now(rt)?;
    let reached = played(alloc, &stream, LARGE)?;
    let behind = Instant::now(rt)?;
    if reached != wanted {
        return Err(Fault::Apart);
    }
    tell(
        rt,
        words.timed,
        ("client words backward", reached.frame),
        ("word", u64::from(reached.word)),
        behind.duration_since(before),
    )
}

/// Prints how much of what was done and which sum came of it, and where it is asked for how long each took.
fn tell<R: Print>(
    rt: &R,
    timed: bool,
    (what, count): (&str, u32),
    (unit, sum): (&str, u64),
    time: Duration,
) -> Result<(), Fault> {
    if timed {
        let each = time.as_nanos() / u128::from(count.max(1));
        println!(rt; "{what} {count}, {unit} {sum}, {each} nanoseconds each")?;
    } else {
        println!(rt; "{what} {count}, {unit} {sum}")?;
    }
    Ok(())
}
