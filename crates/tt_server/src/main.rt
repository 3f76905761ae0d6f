//! The server program: it serves a game at two addresses, one for players and one for admins, until the game is over.
//!
//! It does nothing but open its sockets and hand them, its words and standard output to `serve_main`, whose contract says which exit
//! status comes when and what is written. docs/PROTOCOL.md tells what players and admins say.
#![tactic(auto)]

ghost use Rattle.std.specs.Prelude.{◌≡◌, ◌⊎◌, ◌↔◌, IfOk, IfErr, IsSome, vec_len};
ghost use Rattle.tt_words.specs.Forms.{IsServerForm};
ghost use Rattle.tt_words.specs.declared.server.ServerWords.{ServerWords};

mod figures;
mod game;
mod server;

use crate::server::serve_main;
use std::alloc::Global;
use std::fs::Files;
use std::io::{self, Eprint, Print};
use std::net::{Net, TcpListener, TcpStream};
use std::process::ExitCode;
use std::str;
use std::sync::Wait;
use std::thread::Threads;
use std::time::Clock;
use tt_edge::{FileSource, Peer, Sink, StdoutSink, write_all};
use tt_frame::Line;
use tt_serving::{SocketDoors, doors_at};
use tt_words::{Program, ServerWords, WordsError, address_of, answer_of, server_words, words_of};

/// How many handles the game's socket has: as many players may be there at once, and one that is told that the game is full.
const PLAYERS: u32 = 256;

/// How many handles the admins' socket has: as many admins may be there at once, and one that is told that there are too many.
const ADMINS: u32 = 17;

/// The status for words that can't be read.
const BAD_WORDS: u8 = 2;

/// The status where standard output fails.
const SINK_FAULT: u8 = 5;

/// The status for want of memory.
const NO_MEMORY: u8 = 6;

fn main(rt: HostRuntime) -> ExitCode {
    let words = match words_of(&rt) {
        Ok(words) => words,
        Err(status) => return ExitCode::from(status),
    };
    if let Some(answer) = words
        .first()
        .and_then(|word| answer_of(Program::Server, word.bytes()))
    {
        let mut sink = StdoutSink::new(io::writer(&rt));
        return ExitCode::from(answered(&mut sink, answer));
    }
    let status = start(&rt, rt.alloc(), &words);
    let _ = advise(&rt, status);
    ExitCode::from(status)
}

/// Writes what the first word asked for, and answers the status.
fn answered<K: Sink>(sink: &mut K, answer: &[u8]) -> u8 {
    match write_all(sink, answer) {
        Ok(()) => 0,
        Err(_) => SINK_FAULT,
    }
}

/// The saved map that the words ask for, or the status where there is no memory to find out. Words that are in no form ask for none.
fn saved_map<'a, R: Files>(
    rt: &'a R,
    alloc: Global,
    args: &[Line],
) -> Result<Option<FileSource<&'a R>>, u8>
    ensures map { IfOk result (λ saved. (words : ServerWords) → IsServerForm args.now words → (IsSome saved ↔ IsSome words.map)) }
{
    let words = match server_words(alloc, args) {
        Ok(words) => words,
        Err(WordsError::Bad) => return Ok(None),
        Err(WordsError::Memory) => return Err(NO_MEMORY),
    };
    let ServerWords { setup: _, map } = words;
    let Some(path) = map else {
        return Ok(None);
    };
    let Ok(path) = str::from_utf8(path.bytes()) else {
        return Err(BAD_WORDS);
    };
    let Ok(path) = String::from_str(alloc, path) else {
        return Err(NO_MEMORY);
    };
    Ok(Some(FileSource::new(rt, path)))
}

/// The doors of the game: 256 handles at the players' address and 17 at the admins', and a clock; or the status where they can't be
/// had.
fn game_doors<'a, R>(
    rt: &'a R,
    alloc: Global,
    players: &Peer,
    admins: &Peer,
) -> Result<SocketDoors<'a, R>, u8>
where
    R: Net<Listener = TcpListener, Stream = TcpStream> + Clock,
    ensures players { IfOk result (λ doors. vec_len doors.game ≡ 256) }
    ensures admins { IfOk result (λ doors. vec_len doors.admin ≡ 17) }
    ensures ticker { IfOk result (λ doors. IsSome doors.ticker) }
    ensures err { IfErr result (λ status. (status ≡ 6) ⊎ (status ≡ 8)) }
{
    doors_at(rt, alloc, players, PLAYERS, admins, ADMINS)
}

/// Opens the doors and serves, and answers the status.
fn start<R>(rt: &R, alloc: Global, words: &[Line]) -> u8
where
    R: Net<Listener = TcpListener, Stream = TcpStream>
        + Threads
        + Wait
        + Clock
        + Files
        + Print
        + Eprint
        + Sync,
{
    let [game, admin, args @ ..] = words else {
        return BAD_WORDS;
    };
    let Some(game) = address_of(game) else {
        return BAD_WORDS;
    };
    let Some(admin) = address_of(admin) else {
        return BAD_WORDS;
    };
    let mut saved = match saved_map(rt, alloc, args) {
        Ok(saved) => saved,
        Err(status) => return status,
    };
    let mut doors = match game_doors(rt, alloc, &game, &admin) {
        Ok(doors) => doors,
        Err(status) => return status,
    };
    let _ = invite(rt, &game, &admin);
    let mut sink = StdoutSink::new(io::writer(rt));
    serve_main(rt, alloc, args, &mut saved, &mut doors, &mut sink)
}

/// Says in one line on standard error where the server listens, and how to join it.
fn invite<R: Eprint>(rt: &R, game: &Peer, admin: &Peer) -> io::Result<()> {
    let [a, b, c, d] = game.host;
    let [e, f, g, h] = admin.host;
    eprintln!(rt;
        "tt_server: players join at {a}.{b}.{c}.{d}:{}, admins at {e}.{f}.{g}.{h}:{}; an admin's quit ends it",
        game.port, admin.port
    )
}

/// What a status means and what to do, in one line, where it isn't plain.
fn advice(status: u8) -> &'static str {
    match status {
        2 => "these words are unknown: try tt_server --help",
        3 => "the saved file is no map that a game may start from",
        4 => "the saved map can't be read: see that the file is there",
        5 => "the summary can't be written",
        6 => "memory ran out",
        7 => "the saved file has more bytes than a map",
        8 => "an address can't be listened at: is another server there?",
        9 => "the clock failed",
        _ => "",
    }
}

/// Writes that line to standard error.
fn advise<R: Eprint>(rt: &R, status: u8) -> io::Result<()> {
    let line = advice(status);
    if line.is_empty() {
        return Ok(());
    }
    eprintln!(rt; "tt_server: {line}")
}

#[cfg(test)]
mod tests;
