//! The words that a program was started with.

use std::env;
use std::rt::Env;
use tt_frame::Line;

/// The status for words that can't be read.
const BAD_WORDS: u8 = 2;

/// The status for want of memory.
const NO_MEMORY: u8 = 6;

/// The words behind the program's name, or the status where they can't be had. A word that makes no line is the empty
/// line, which is in no form of any program.
pub fn words_of<R: Env + AllocGlobal>(rt: &R) -> Result<Vec<Line>, u8> {
    let mut words = Vec::new(rt.alloc());
    let Ok(args) = env::args(rt) else {
        return Err(BAD_WORDS);
    };
    for word in args.skip(1) {
        if words.push(line_of(word.as_bytes())).is_err() {
            return Err(NO_MEMORY);
        }
    }
    Ok(words)
}

/// A word as a line. One that makes none is handed over as the empty line.
fn line_of(word: &[u8]) -> Line {
    match Line::new(word) {
        Some(line) => line,
        None => no_word(),
    }
}

/// The empty line.
fn no_word() -> Line {
    match Line::new(b"") {
        Some(line) => line,
        None => unreachable!(),
    }
}
