//! The replay program: `tt_replay run` writes the report of the script on standard input, `check` whether its report is
//! the one that it expects, `show` packets in words, `make N` the hour script of a number, and `hour N` what its game comes
//! to in numbers.
//!
//! It does nothing but hand its words, standard input and standard output to `replay_main`, whose contract says which
//! exit status comes when and what is written. docs/SCRIPTS.md tells scripts, lists, reports and statuses.
#![tactic(auto)]

mod expecting;
mod form;
mod help;
mod laws;
mod program;
mod replay;
mod report;

use crate::help::answer_of;
use crate::program::replay_main;
use std::process::ExitCode;
use std::rt::Env;
use std::{env, io};
use tt_edge::{Sink, StdinSource, StdoutSink, write_all};
use tt_frame::Line;

/// The status for words that can't be read.
const BAD_WORDS: u8 = 2;

/// The status where standard output fails.
const SINK_FAULT: u8 = 5;

/// The status for want of memory.
const NO_MEMORY: u8 = 6;

fn main(rt: HostRuntime) -> ExitCode {
    let mut sink = StdoutSink::new(io::writer(&rt));
    let words = match words_of(&rt) {
        Ok(words) => words,
        Err(status) => return ExitCode::from(status),
    };
    if let Some(answer) = words.first().and_then(|word| answer_of(word.bytes())) {
        return ExitCode::from(answered(&mut sink, answer));
    }
    let mut source = StdinSource::new(rt.reader());
    ExitCode::from(replay_main(rt.alloc(), &words, &mut source, &mut sink))
}

/// The words behind the program's name, or the status where they can't be had.
fn words_of<R: Env + AllocGlobal>(rt: &R) -> Result<Vec<Line>, u8> {
    let mut words = Vec::new(rt.alloc());
    let Ok(args) = env::args(rt) else {
        return Err(BAD_WORDS);
    };
    for word in args.skip(1) {
        if words.push(line_of(word.as_bytes())).is_err() {
            return Err(NO_MEMORY);
        }
    }
    Ok(words)
}

/// A word as a line. One that makes none is handed over as the empty line, which is no form of any program.
fn line_of(word: &[u8]) -> Line {
    match Line::new(word) {
        Some(line) => line,
        None => no_word(),
    }
}

/// The empty line.
fn no_word() -> Line {
    match Line::new(b"") {
        Some(line) => line,
        None => unreachable!(),
    }
}

/// Writes what the first word asked for, and answers the status.
fn answered<K: Sink>(sink: &mut K, answer: &[u8]) -> u8 {
    match write_all(sink, answer) {
        Ok(()) => 0,
        Err(_) => SINK_FAULT,
    }
}

#[cfg(test)]
mod tests;
