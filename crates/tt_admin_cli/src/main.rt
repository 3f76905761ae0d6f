//! The admin's client: `tt_admin_cli ADDRESS FILE --password TEXT` joins a server's side door, says what its command file says, and
//! writes each packet that comes in words.
//!
//! It does nothing but connect its link and hand all over to `admin_main`, whose contract says which exit status comes when and
//! what is written. docs/PROTOCOL.md tells the command file.
#![tactic(auto)]

mod admin;

use crate::admin::admin_main;
use std::alloc::Global;
use std::fs::Files;
use std::io::Eprint;
use std::net::{Ipv4Addr, Net, SocketAddr, SocketAddrV4, TcpListener, TcpStream};
use std::process::ExitCode;
use std::sync::Wait;
use std::time::Clock;
use std::{io, str};
use tt_edge::{ClockTicker, FileSource, Peer, Sink, StdoutSink, TcpLink, write_all};
use tt_frame::Line;
use tt_words::{Program, address_of, answer_of, words_of};

/// The status for words that can't be read.
const BAD_WORDS: u8 = 2;

/// The status where standard output fails.
const SINK_FAULT: u8 = 5;

/// The status for want of memory.
const NO_MEMORY: u8 = 6;

/// The status where the link can't be connected.
const NO_LINK: u8 = 14;

fn main(rt: HostRuntime) -> ExitCode {
    let words = match words_of(&rt) {
        Ok(words) => words,
        Err(status) => return ExitCode::from(status),
    };
    if let Some(answer) = words
        .first()
        .and_then(|word| answer_of(Program::Admin, word.bytes()))
    {
        let mut sink = StdoutSink::new(io::writer(&rt));
        return ExitCode::from(answered(&mut sink, answer));
    }
    let status = start(&rt, rt.alloc(), &words);
    let _ = advise(&rt, status);
    ExitCode::from(status)
}

/// Writes what the first word asked for, and answers the status.
fn answered<K: Sink>(sink: &mut K, answer: &[u8]) -> u8 {
    match write_all(sink, answer) {
        Ok(()) => 0,
        Err(_) => SINK_FAULT,
    }
}

/// Connects the link and runs, and answers the status.
fn start<R>(rt: &R, alloc: Global, words: &[Line]) -> u8
where
    R: Net<Listener = TcpListener, Stream = TcpStream> + Wait + Clock + Files + Print,
{
    let [address, path, rest @ ..] = words else {
        return BAD_WORDS;
    };
    let Some(peer) = address_of(address) else {
        return BAD_WORDS;
    };
    let Ok(path) = str::from_utf8(path.bytes()) else {
        return BAD_WORDS;
    };
    if path.is_empty() {
        return BAD_WORDS;
    }
    let Ok(path) = String::from_str(alloc, path) else {
        return NO_MEMORY;
    };
    let Ok(mut link) = connect(rt, &peer) else {
        return NO_LINK;
    };
    let mut ticker = ClockTicker::new(rt);
    let mut commands = FileSource::new(rt, path);
    let mut sink = StdoutSink::new(io::writer(rt));
    admin_main(
        rt,
        alloc,
        rest,
        &mut link,
        &mut ticker,
        &mut commands,
        &mut sink,
    )
}

/// A link to that peer.
fn connect<'a, R>(rt: &'a R, peer: &Peer) -> io::Result<TcpLink<&'a R>>
where
    R: Net<Listener = TcpListener, Stream = TcpStream> + Clock,
{
    let host = Ipv4Addr::new(peer.host[0], peer.host[1], peer.host[2], peer.host[3]);
    let stream = TcpStream::connect(rt, SocketAddr::V4(SocketAddrV4::new(host, peer.port)))?;
    TcpLink::new(rt, stream)
}

/// What a status means and what to do, in one line, where it isn't plain.
fn advice(status: u8) -> &'static str {
    match status {
        2 => "these words are unknown: try tt_admin_cli --help",
        3 => "the file is none of commands: its first bad line is written above",
        4 => "the file can't be read: see that it is there",
        6 => "memory ran out",
        7 => "the file has more than 1 MiB: cut it in parts",
        9 => "the clock failed",
        12 => "the server ended it: ERROR 10 is a wrong password, FULL means to try later",
        13 => "the server closed the connection",
        14 => "no connection: see that the server runs and that the address is its admins'",
        _ => "",
    }
}

/// Says it on standard error, where there is something to say.
fn advise<R: Eprint>(rt: &R, status: u8) -> io::Result<()> {
    let advice = advice(status);
    if advice.is_empty() {
        return Ok(());
    }
    eprintln!(rt; "tt_admin_cli: {advice}")
}

#[cfg(test)]
mod tests;
