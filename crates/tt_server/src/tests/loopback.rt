//! The server over sockets of this machine, with two players in the same process.
ghost use Rattle.std.specs.Prelude.{◌≡◌};

use super::guests::JOIN;
use super::{OVER, SECOND, THIRD, called};
use std::alloc::Global;
use std::io::{Read, Write};
use std::net::{Net, SocketAddr, TcpListener, TcpStream};
use std::sync::Wait;
use std::sync::atomic::{AtomicU64, Ordering};
use std::test::*;
use std::thread::{self, Threads, join};
use std::time::{Clock, Duration};
use tt_edge::{Beat, MemSink, MemSource, TcpDoor, Ticker};
use tt_workers::Doors;

/// A clock that tells Stop once it is told to, or after a minute.
#[derive(Drop)]
struct Until<'a, R> {
    rt: &'a R,
    over: &'a AtomicU64,
    faults: u64,
    stops: u64,
}

impl<'a, R: Clock> Ticker for Until<'a, R> {
    ghost use Rattle.std.specs.Prelude.{None};

    ghost counts = { λ u. record { faults = u.faults; stops = u.stops } };

    ghost beats = { λ _. None };

    fn wait(&mut self) -> Beat {
        for _ in 0..6000 {
            if self.over.load(Ordering::SeqCst) > 0 {
                break;
            }
            thread::sleep(self.rt, Duration::from_millis(10));
        }
        self.stops = self.stops.saturating_add(1);
        Beat::Stop
    }
}

/// Serves over two handles, and answers the status, and whether two connections are told of at the end.
fn serve<R: Net<Listener = TcpListener, Stream = TcpStream> + Threads + Wait + Clock + Sync>(
    rt: &R,
    alloc: Global,
    listener: TcpListener,
    over: &AtomicU64,
) -> Option<(u8, bool)> {
    let door = TcpDoor::new(rt, listener).ok()?;
    let mut game = Vec::new(alloc);
    for _ in 0..2 {
        game.push(door.another().ok()?).ok()?;
    }
    let mut doors = Doors {
        game,
        admin: Vec::new(alloc),
        ticker: Some(Until {
            rt,
            over,
            faults: 0,
            stops: 0,
        }),
    };
    let mut sink = MemSink::new(alloc, 400, Vec::new(alloc)).ok()?;
    let status = called(
        rt,
        alloc,
        &[],
        &mut None::<MemSource>,
        &mut doors,
        &mut sink,
    );
    Some((status, sink.bytes().starts_with(b"connections 2\n")))
}

/// A player that is connected and sends its join.
fn player<R: Net<Listener = TcpListener, Stream = TcpStream>>(
    rt: &R,
    place: SocketAddr,
) -> Option<TcpStream> {
    let mut stream = TcpStream::connect(rt, place).ok()?;
    stream.set_read_timeout(Some(Duration::from_secs(50))).ok()?;
    stream.write_all(JOIN).ok()?;
    Some(stream)
}

/// What a player is welcomed with: 2 and 3 for these clients, 0 for anything else.
fn welcomed(stream: &mut TcpStream) -> u8 {
    let mut bytes = [0; 14];
    if stream.read_exact(&mut bytes).is_err() {
        return 0;
    }
    match bytes.as_slice() {
        bytes if bytes == SECOND => 2,
        bytes if bytes == THIRD => 3,
        _ => 0,
    }
}

/// Whether a player is told that the game is over, and then nothing.
fn is_shut(stream: &mut TcpStream) -> bool {
    let mut bytes = [0; 3];
    stream.read_exact(&mut bytes).is_ok()
        && bytes.as_slice() == OVER
        && matches!(stream.read(&mut [0; 1]), Ok(0))
}

/// Two players join, have all ended, and see the end. Answers what they were welcomed with, and whether both saw the end.
fn play<R: Net<Listener = TcpListener, Stream = TcpStream>>(
    rt: &R,
    place: SocketAddr,
    over: &AtomicU64,
) -> Option<(u8, u8, bool)> {
    let mut one = player(rt, place)?;
    let mut other = player(rt, place)?;
    let (first, second) = (welcomed(&mut one), welcomed(&mut other));
    over.store(1, Ordering::SeqCst);
    let shut = is_shut(&mut one) && is_shut(&mut other);
    Some((first.min(second), first.max(second), shut))
}

/// What the two sides of a game saw: the server, and its players.
type Sides = (Option<(u8, bool)>, Option<(u8, u8, bool)>);

/// Serves and plays side by side.
fn both<R: Net<Listener = TcpListener, Stream = TcpStream> + Threads + Wait + Clock + Sync>(
    rt: &R,
    alloc: Global,
    listener: TcpListener,
    place: SocketAddr,
) -> Sides {
    let over = AtomicU64::new(0);
    let shared = &over;
    join(
        rt,
        move || serve(rt, alloc, listener, shared),
        move || {
            let played = play(rt, place, shared);
            shared.store(1, Ordering::SeqCst);
            played
        },
    )
}

#[test]
fn two_players_join_over_sockets(rt: HostRuntime) -> Result<(), Fail> {
    let listener = TcpListener::bind(&rt, "127.0.0.1:0")?;
    let place = listener.local_addr()?;
    let (served, played) = both(&rt, rt.alloc(), listener, place);
    assert_eq!(rt; played, Some((2, 3, true)));
    assert_eq!(rt; served, Some((0, true)));
    Ok(())
}
