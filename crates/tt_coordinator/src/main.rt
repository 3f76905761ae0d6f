//! The coordinator program: it serves a coordinator at one address and its STUN desk at another, until all is over.
//!
//! It does nothing but open its sockets and hand them, its words and standard output to `coordinate_main`, whose contract says which exit
//! status comes when and what is written. docs/PROTOCOL.md tells what servers and clients say.
#![tactic(auto)]

ghost use Rattle.std.specs.Prelude.{◌≡◌, ◌⊎◌, IfOk, IfErr, IsSome, vec_len};

mod coordinate;
mod figures;

use crate::coordinate::coordinate_main;
use std::alloc::Global;
use std::io::{self, Eprint, Print};
use std::net::{Net, TcpListener, TcpStream};
use std::process::ExitCode;
use std::sync::Wait;
use std::thread::Threads;
use std::time::Clock;
use tt_edge::{Peer, Sink, StdoutSink, write_all};
use tt_frame::Line;
use tt_serving::{SocketDoors, doors_at};
use tt_words::{Program, address_of, answer_of, words_of};

/// How many handles the coordinator's socket has: as many servers and clients may be there at once.
const MAINS: u32 = 256;

/// How many handles the desk's socket has.
const DESKS: u32 = 16;

/// The status for words that can't be read.
const BAD_WORDS: u8 = 2;

/// The status where standard output fails.
const SINK_FAULT: u8 = 5;

fn main(rt: HostRuntime) -> ExitCode {
    let words = match words_of(&rt) {
        Ok(words) => words,
        Err(status) => return ExitCode::from(status),
    };
    if let Some(answer) = words
        .first()
        .and_then(|word| answer_of(Program::Coordinator, word.bytes()))
    {
        let mut sink = StdoutSink::new(io::writer(&rt));
        return ExitCode::from(answered(&mut sink, answer));
    }
    let status = start(&rt, rt.alloc(), &words);
    let _ = advise(&rt, status);
    ExitCode::from(status)
}

/// Writes what the first word asked for, and answers the status.
fn answered<K: Sink>(sink: &mut K, answer: &[u8]) -> u8 {
    match write_all(sink, answer) {
        Ok(()) => 0,
        Err(_) => SINK_FAULT,
    }
}

/// The doors of the coordinator: 256 handles at its own address and 16 at that of its STUN desk, and a clock; or the status where they
/// can't be had.
fn coordinator_doors<'a, R>(
    rt: &'a R,
    alloc: Global,
    main: &Peer,
    desk: &Peer,
) -> Result<SocketDoors<'a, R>, u8>
where
    R: Net<Listener = TcpListener, Stream = TcpStream> + Clock,
    ensures main { IfOk result (λ doors. vec_len doors.game ≡ 256) }
    ensures desk { IfOk result (λ doors. vec_len doors.admin ≡ 16) }
    ensures ticker { IfOk result (λ doors. IsSome doors.ticker) }
    ensures err { IfErr result (λ status. (status ≡ 6) ⊎ (status ≡ 8)) }
{
    doors_at(rt, alloc, main, MAINS, desk, DESKS)
}

/// Opens the doors and serves, and answers the status.
fn start<R>(rt: &R, alloc: Global, words: &[Line]) -> u8
where
    R: Net<Listener = TcpListener, Stream = TcpStream>
        + Threads
        + Wait
        + Clock
        + Print
        + Eprint
        + Sync,
{
    let [main, desk, args @ ..] = words else {
        return BAD_WORDS;
    };
    let Some(main) = address_of(main) else {
        return BAD_WORDS;
    };
    let Some(desk) = address_of(desk) else {
        return BAD_WORDS;
    };
    let mut doors = match coordinator_doors(rt, alloc, &main, &desk) {
        Ok(doors) => doors,
        Err(status) => return status,
    };
    let _ = invite(rt, &main, &desk);
    let mut sink = StdoutSink::new(io::writer(rt));
    coordinate_main(rt, alloc, args, &mut doors, &mut sink)
}

/// Says in one line on standard error where the coordinator listens.
fn invite<R: Eprint>(rt: &R, main: &Peer, desk: &Peer) -> io::Result<()> {
    let [a, b, c, d] = main.host;
    let [e, f, g, h] = desk.host;
    eprintln!(rt;
        "tt_coordinator: servers and clients come to {a}.{b}.{c}.{d}:{}, its STUN desk is at {e}.{f}.{g}.{h}:{}",
        main.port, desk.port
    )
}

/// What a status means and what to do, in one line, where it isn't plain.
fn advice(status: u8) -> &'static str {
    match status {
        2 => "these words are unknown: try tt_coordinator --help",
        5 => "the summary can't be written",
        6 => "memory ran out",
        8 => "an address can't be listened at: is another program there?",
        9 => "the clock failed",
        _ => "",
    }
}

/// Writes that line to standard error.
fn advise<R: Eprint>(rt: &R, status: u8) -> io::Result<()> {
    let line = advice(status);
    if line.is_empty() {
        return Ok(());
    }
    eprintln!(rt; "tt_coordinator: {line}")
}

#[cfg(test)]
mod tests;
