//! The other end: connects, notes when each beat comes, and asks now and then.
use crate::board::{ASKED, BEATS, Board, now};
use crate::figures::Figures;
use libc::net::{POLLIN, poll};
use libc::types::pollfd;
use std::alloc::Global;
use std::io::{Read, Write};
use std::net::{Net, SocketAddr, TcpListener, TcpStream};
use std::os::fd::AsRawFd;
use std::time::{Clock, Duration};

/// How many looks are taken at most.
const LOOKS: u32 = 1_000_000;

/// How many microseconds pass at least between an answer and the next question.
const PAUSE: u64 = 7_000;

/// A connection that was greeted. None where it could not be made.
pub fn connect<R: Net<Listener = TcpListener, Stream = TcpStream>>(
    rt: &R,
    place: SocketAddr,
) -> Option<TcpStream> {
    let stream = TcpStream::connect(rt, place).ok()?;
    stream.set_nodelay(true).ok()?;
    stream.set_read_timeout(Some(Duration::from_secs(30))).ok()?;
    Some(stream)
}

/// Waits for the greeting.
pub fn greeted(stream: &mut TcpStream) -> Option<()> {
    stream.read_exact(&mut [0; 1]).ok()
}

/// So many connections, each greeted.
pub fn all<R: Net<Listener = TcpListener, Stream = TcpStream>>(
    rt: &R,
    alloc: Global,
    place: SocketAddr,
    links: u32,
) -> Option<Vec<TcpStream>> {
    let mut streams = Vec::new(alloc);
    for _ in 0..links {
        streams.push(connect(rt, place)?).ok()?;
    }
    for stream in streams.iter_mut() {
        greeted(stream)?;
    }
    Some(streams)
}

/// What a link asks: a packet of one byte.
fn question() -> [u8; 4] {
    [4, 0, 4, ASKED]
}

/// What is asked and not answered yet, and when the next question is due.
#[derive(Drop)]
struct Asking {
    asked: Option<u64>,
    next: u64,
    turn: usize,
}

/// Notes the bytes that came on one link.
fn note(
    stream: &mut TcpStream,
    board: &Board,
    figures: &mut Figures,
    asking: &mut Asking,
    time: u64,
) -> Option<()> {
    let mut piece = [0; 64];
    let count = stream.read(&mut piece).ok()?;
    for &byte in &piece[..count] {
        if byte < BEATS {
            figures.beat(time.saturating_sub(board.told(byte)?)).ok()?;
        } else if let Some(asked) = asking.asked {
            figures.answer(time.saturating_sub(asked)).ok()?;
            asking.asked = None;
            asking.next = time.saturating_add(PAUSE + asked % 9_000);
        }
    }
    Some(())
}

/// Asks on one link, where nothing is asked and it is time.
fn ask(streams: &mut Vec<TcpStream>, asking: &mut Asking, time: u64) -> Option<()> {
    if asking.asked.is_some() || time < asking.next || streams.is_empty() {
        return Some(());
    }
    asking.turn = asking.turn.wrapping_add(7919) % streams.len();
    asking.asked = Some(time);
    streams.get_mut(asking.turn)?.write_all(&question()).ok()
}

/// Listens on all links and asks, until so many beats and answers came.
pub fn listen<R: Clock>(
    rt: &R,
    alloc: Global,
    streams: &mut Vec<TcpStream>,
    board: &Board,
    wanted: (usize, usize),
    figures: &mut Figures,
) -> Option<()> {
    let mut looked = Vec::new(alloc);
    for stream in streams.iter() {
        looked
            .push(pollfd {
                fd: stream.as_raw_fd(),
                events: POLLIN,
                revents: 0,
            })
            .ok()?;
    }
    let mut asking = Asking {
        asked: None,
        next: now(rt),
        turn: 0,
    };
    for _ in 0..LOOKS {
        if figures.beats() >= wanted.0 && figures.answers() >= wanted.1 {
            return Some(());
        }
        poll(looked.as_mut_slice(), 5);
        let time = now(rt);
        for (stream, look) in streams.iter_mut().zip(looked.iter()) {
            if look.revents != 0 {
                note(stream, board, figures, &mut asking, time)?;
            }
        }
        ask(streams, &mut asking, now(rt))?;
    }
    None
}
