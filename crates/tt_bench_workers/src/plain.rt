//! The same over std's sockets alone: a thread for each handle reads, with a timeout, answers the last byte of what came, and
//! writes the byte of a new beat. It knows no packets, no core and no room.
use crate::board::{Board, now};
use crate::served::GREETING;
use std::alloc::Global;
use std::io::{Read, Write};
use std::net::{TcpListener, TcpStream};
use std::os::fd::OwnedFd;
use std::sync::Wait;
use std::thread::{self, Threads};
use std::time::{Clock, Duration};
use tt_edge::{Beat, ClockTicker, Ticker};

/// How many milliseconds a read waits.
const WAIT: u64 = 2;

/// How many milliseconds an accept waits.
const ACCEPT: u64 = 50;

/// Writes a byte, and answers whether that went well.
fn put(stream: &mut TcpStream, byte: u8) -> bool {
    stream.write_all(&[byte]).is_ok()
}

/// Reads once, and answers what came with its last byte. None where the connection ended.
fn answer(stream: &mut TcpStream) -> Option<()> {
    let mut piece = [0; 4096];
    match stream.read(&mut piece) {
        Ok(0) => None,
        Ok(count) => {
            let last = piece[..count].last().copied()?;
            if put(stream, last) { Some(()) } else { None }
        }
        Err(_) => Some(()),
    }
}

/// Serves one connection.
fn talk<R: Wait>(rt: &R, mut stream: TcpStream, board: &Board) -> Option<()> {
    stream.set_nodelay(true).ok()?;
    stream
        .set_read_timeout(Some(Duration::from_millis(WAIT)))
        .ok()?;
    let mut seen = board.beats();
    if !put(&mut stream, GREETING) {
        return None;
    }
    for _ in rt.forever() {
        if board.is_done() {
            return None;
        }
        answer(&mut stream)?;
        let beats = board.beats();
        if beats != seen && board.links() > 0 {
            seen = beats;
            if !put(&mut stream, Board::byte(beats)) {
                return None;
            }
        }
    }
    None
}

/// Accepts connections and serves each, until all is done.
fn attend<R: Wait>(rt: &R, listener: &TcpListener, board: &Board) {
    for _ in rt.forever() {
        if board.is_done() {
            return;
        }
        if let Ok((stream, _)) = listener.accept() {
            let _ = talk(rt, stream, board);
        }
    }
}

/// A thread for each handle, until all is done.
fn attend_all<R: Threads + Wait + Sync>(rt: &R, doors: &mut Vec<TcpListener>, board: &Board) {
    let threads = doors.len().max(1);
    thread::for_each_mut(
        rt,
        doors.as_mut_slice(),
        threads,
        &|_, door: &mut TcpListener| attend(rt, door, board),
    );
}

/// Begins a beat every 30 milliseconds, until all is done.
fn beat<R: Wait + Clock>(rt: &R, board: &Board) {
    let mut clock = ClockTicker::new(rt);
    for _ in rt.forever() {
        if board.is_done() || clock.wait() != Beat::Tick {
            return;
        }
        let _ = board.begin(now(rt));
    }
}

/// Serves a socket with so many handles, until all is done. None where memory, or descriptors, ran out.
pub fn serve<R: Threads + Wait + Clock + Sync>(
    rt: &R,
    alloc: Global,
    listener: TcpListener,
    handles: u32,
    board: &Board,
) -> Option<()> {
    let same = TcpStream::from(OwnedFd::from(listener.try_clone().ok()?));
    same.set_read_timeout(Some(Duration::from_millis(ACCEPT)))
        .ok()?;
    let mut doors = Vec::new(alloc);
    for _ in 0..handles {
        doors.push(listener.try_clone().ok()?).ok()?;
    }
    thread::join(rt, || beat(rt, board), || attend_all(rt, &mut doors, board));
    Some(())
}
