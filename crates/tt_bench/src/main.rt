//! Each line says how much work was done, and with the word `time` how long that took.
//!
//! `tt_bench N` cuts a stream of N join packets into packets, decodes and encodes each, once from large pieces and once
//! byte by byte, and runs N frames of a game. It does the same to a stream of N packets of nine kinds, and goes over its
//! bytes in a plain loop beside. Then it puts N ticks into a bare hub, and into rooms over a hub by 1, 2 and 4
//! threads, shared evenly among them; what is left over is not put. Last, it plays whole games without a room, with 4, 25 and
//! 255 members that acknowledge each frame: N ticks with 4 members, and as many fewer with more that about as many frames
//! are acknowledged in each game, so the times of one acknowledgement, with its share of the tick, stand side by side. Then 4
//! members go on behind 10,000 commands, and with 1,000 signs; and clients download the map of a new game and of one with
//! 1,000 signs. Of games and downloads there are no more than from N = 100000. What it prints is the same at each run;
//! `tt_bench N time` adds the times, which are not.
#![tactic(auto)]

mod games;
mod rooms;
mod work;

use crate::games::{
    Course, Party, behind_commands, gone_on, left_with_signs, party_of, with_signs,
};
use crate::rooms::ticks;
use crate::work::{frames, gone_over, joins, messages, mixed};
use std::alloc::Global;
use std::io::Print;
use std::process::ExitCode;
use std::rt::Env;
use std::sync::Wait;
use std::thread::Threads;
use std::time::{Clock, Duration, Instant};
use std::{env, io};
use tt_edge::CoreErr;
use tt_frame::OutOfMemory;

/// The most of each that are measured.
const MOST: u32 = 10_000_000;

/// The most ticks of a game, and downloads, that are measured: a game keeps all that its members say.
const MOST_OF_GAMES: u32 = 100_000;

/// One download with 1,000 signs is measured for so many of a new game.
const SHARE_WITH_SIGNS: u32 = 20;

/// The sizes of the pieces in which a stream is fed.
const LARGE: usize = 1_700;

const SINGLE: usize = 1;

/// How it is used.
const HELP: &str = "Measures packets, messages, frames, events, and games with members.

Use: tt_bench N [time]

It does each kind of work N times, at most 10000000, and writes a line for each; of
games with members and downloads, at most 100000. With the word time each line tells
how long that took. The exit status is 0 when all was done, 2 for unknown words, 5 when
writing failed, and 6 when memory ran out.";

/// Which version it is.
const VERSION: &str = "tt_bench 0.1";

/// What was asked for: a text, or work.
#[derive(Clone, Copy)]
enum Asked {
    Text(&'static str),
    Work(Words),
}

/// How much work is to be done, and whether its times are told.
#[derive(Clone, Copy)]
struct Words {
    count: u32,
    timed: bool,
}

fn main(rt: HostRuntime) -> ExitCode {
    let done = match asked_by(&rt) {
        None => return ExitCode::from(2),
        Some(Asked::Text(text)) => say(&rt, text),
        Some(Asked::Work(words)) => all_measured(&rt, rt.alloc(), &words),
    };
    match done {
        Ok(true) => ExitCode::from(0),
        Ok(false) => ExitCode::from(6),
        Err(_) => ExitCode::from(5),
    }
}

/// What the words ask for: a number, and perhaps `time` behind it, or a text.
fn asked_by<R: Env + AllocGlobal>(rt: &R) -> Option<Asked> {
    let mut words = env::args(rt).ok()?.skip(1);
    let first = words.next()?;
    if first.as_str() == "--help" {
        return Some(Asked::Text(HELP));
    }
    if first.as_str() == "--version" {
        return Some(Asked::Text(VERSION));
    }
    let count = first.as_str().parse::<u32>().ok()?;
    let timed = match words.next() {
        Some(word) => word.as_str() == "time",
        None => false,
    };
    if count > MOST {
        return None;
    }
    Some(Asked::Work(Words { count, timed }))
}

/// Writes a text; it needs no memory.
fn say<R: Print>(rt: &R, text: &str) -> io::Result<bool> {
    println!(rt; "{text}")?;
    Ok(true)
}

/// Does all of the work and prints a line for each; false where memory ran out.
fn all_measured<R: Threads + Wait + Clock + Print + Sync>(
    rt: &R,
    alloc: Global,
    words: &Words,
) -> io::Result<bool> {
    Ok(
        measured(rt, alloc, words)?
            && mixed_measured(rt, alloc, words)?
            && rooms_measured(rt, alloc, words)?
            && games_measured(rt, alloc, words)?
            && pasts_measured(rt, alloc, words)?
            && downloads_measured(rt, alloc, words)?,
    )
}

/// The ticks of a bare hub, and of rooms by 1, 2 and 4 threads.
fn rooms_measured<R: Threads + Wait + Clock + Print + Sync>(
    rt: &R,
    alloc: Global,
    words: &Words,
) -> io::Result<bool> {
    let before = Instant::now(rt)?;
    let bare = frames(alloc, words.count);
    let first = Instant::now(rt)?;
    let by_one = ticks(rt, alloc, words.count, 1);
    let second = Instant::now(rt)?;
    let by_two = ticks(rt, alloc, words.count, 2);
    let third = Instant::now(rt)?;
    let by_four = ticks(rt, alloc, words.count, 4);
    let last = Instant::now(rt)?;
    let (Ok(bare), Ok(one), Ok(two), Ok(four)) = (bare, by_one, by_two, by_four) else {
        return Ok(false);
    };
    let lines = [
        ("events bare", bare, first.duration_since(before)),
        ("events by 1 thread", one, second.duration_since(first)),
        ("events by 2 threads", two, third.duration_since(second)),
        ("events by 4 threads", four, last.duration_since(third)),
    ];
    for (what, count, time) in lines {
        tell(rt, what, count, words.timed, time)?;
    }
    Ok(true)
}

/// Games of more and more members.
fn games_measured<R: Clock + Print>(rt: &R, alloc: Global, words: &Words) -> io::Result<bool> {
    let lines = [
        ("frames acknowledged by 4 members", 4),
        ("frames acknowledged by 25 members", 25),
        ("frames acknowledged by 255 members", 255),
    ];
    for (what, members) in lines {
        let ticks = (words.count.min(MOST_OF_GAMES) * 4 / u32::from(members)).max(1);
        if !game_measured(
            rt,
            alloc,
            words.timed,
            what,
            party_of(alloc, members),
            Course::Ticks(ticks),
        )? {
            return Ok(false);
        }
    }
    Ok(true)
}

/// Games of 4 members with much behind them.
fn pasts_measured<R: Clock + Print>(rt: &R, alloc: Global, words: &Words) -> io::Result<bool> {
    let ticks = Course::Ticks(words.count.min(MOST_OF_GAMES));
    let commands = "frames acknowledged by 4 members behind 10000 commands";
    let signs = "frames acknowledged by 4 members with 1000 signs";
    let timed = words.timed;
    Ok(
        game_measured(rt, alloc, timed, commands, behind_commands(alloc), ticks)?
            && game_measured(rt, alloc, timed, signs, with_signs(alloc), ticks)?,
    )
}

/// What a game that was made before does further.
fn game_measured<R: Clock + Print>(
    rt: &R,
    alloc: Global,
    timed: bool,
    what: &str,
    made: Result<Party, CoreErr>,
    course: Course,
) -> io::Result<bool> {
    match made {
        Ok(mut party) => course_measured(rt, alloc, timed, what, &mut party, course),
        Err(_) => Ok(false),
    }
}

/// What a game does further. The game is the caller's, so that it is let go in one place.
fn course_measured<R: Clock + Print>(
    rt: &R,
    alloc: Global,
    timed: bool,
    what: &str,
    party: &mut Party,
    course: Course,
) -> io::Result<bool> {
    let before = Instant::now(rt)?;
    let done = gone_on(alloc, party, course);
    let behind = Instant::now(rt)?;
    let Ok(done) = done else {
        return Ok(false);
    };
    tell(rt, what, done, timed, behind.duration_since(before))?;
    Ok(true)
}

/// Downloads of the map of a new game, and of one with 1,000 signs.
fn downloads_measured<R: Clock + Print>(rt: &R, alloc: Global, words: &Words) -> io::Result<bool> {
    let count = words.count.min(MOST_OF_GAMES);
    let fewer = (count / SHARE_WITH_SIGNS).max(1);
    let (first, second) = ("downloads of a new game", "downloads with 1000 signs");
    let timed = words.timed;
    Ok(
        game_measured(
            rt,
            alloc,
            timed,
            first,
            party_of(alloc, 0),
            Course::Downloads(count),
        )? && game_measured(
            rt,
            alloc,
            timed,
            second,
            left_with_signs(alloc),
            Course::Downloads(fewer),
        )?,
    )
}

/// The messages, from large pieces and byte by byte, and the frames.
fn measured<R: Clock + Print>(rt: &R, alloc: Global, words: &Words) -> io::Result<bool> {
    let Ok(stream) = joins(alloc, words.count) else {
        return Ok(false);
    };
    let before = Instant::now(rt)?;
    let whole = messages(alloc, &stream, LARGE);
    let between = Instant::now(rt)?;
    let single = messages(alloc, &stream, SINGLE);
    let behind = Instant::now(rt)?;
    let ran = frames(alloc, words.count);
    let last = Instant::now(rt)?;
    let (Ok(whole), Ok(single), Ok(ran)) = (whole, single, ran) else {
        return Ok(false);
    };
    tell(
        rt,
        "messages",
        whole,
        words.timed,
        between.duration_since(before),
    )?;
    tell(
        rt,
        "messages byte by byte",
        single,
        words.timed,
        behind.duration_since(between),
    )?;
    tell(rt, "frames", ran, words.timed, last.duration_since(behind))?;
    Ok(true)
}

/// A stream of packets of all kinds, decoded and encoded, and a plain loop over its bytes.
fn mixed_measured<R: Clock + Print>(rt: &R, alloc: Global, words: &Words) -> io::Result<bool> {
    let Ok(stream) = mixed(alloc, words.count) else {
        return Ok(false);
    };
    let before = Instant::now(rt)?;
    let all = messages(alloc, &stream, LARGE);
    let between = Instant::now(rt)?;
    let bytes = gone_over(&stream);
    let last = Instant::now(rt)?;
    let Ok(all) = all else {
        return Ok(false);
    };
    let first = between.duration_since(before);
    let second = last.duration_since(between);
    tell(rt, "messages of nine kinds", all, words.timed, first)?;
    tell(
        rt,
        "bytes of them that are not 0",
        bytes,
        words.timed,
        second,
    )?;
    Ok(true)
}

/// Prints what was done, and where it is asked for how long it took.
fn tell<R: Print>(rt: &R, what: &str, count: u64, timed: bool, time: Duration) -> io::Result<()> {
    if timed {
        let micros = time.as_micros();
        println!(rt; "{what} {count} in {micros} microseconds")
    } else {
        println!(rt; "{what} {count}")
    }
}
