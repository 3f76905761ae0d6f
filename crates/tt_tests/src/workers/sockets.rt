//! 273 workers over loopback in one process, each with one link, for a hundred ticks.
use super::{ANSWER, PACKET, run};
use std::alloc::Global;
use std::io::{Read, Write};
use std::net::{Net, SocketAddr, TcpListener, TcpStream};
use std::process::Abort;
use std::sync::Wait;
use std::sync::atomic::{AtomicU64, Ordering};
use std::test::*;
use std::thread::{self, Threads, join};
use std::time::{Clock, Duration};
use tt_edge::echo::EchoCore;
use tt_edge::{Beat, ClockTicker, Listener, TcpDoor, Ticker};
use tt_workers::{OpenGate, Role, Worker, WorkerEnd};

/// How many handles there are, at the main door and at the side door.
const GAME: u32 = 256;

const ADMIN: u32 = 17;

/// How many ticks there are once all are served.
const TICKS: u64 = 100;

/// A clock that begins once all are served, or have had a minute for it.
#[derive(Drop)]
struct Starting<'a, R> {
    rt: &'a R,
    served: &'a AtomicU64,
    clock: ClockTicker<&'a R>,
}

impl<'a, R: Clock> Ticker for Starting<'a, R> {
    ghost use Rattle.std.specs.Prelude.{None};
    ghost use Rattle.tt_edge.specs.Clock.{clock_counts_of};

    ghost counts = { λ s. clock_counts_of s.clock };

    ghost beats = { λ _. None };

    fn wait(&mut self) -> Beat {
        for _ in 0..6000 {
            if self.served.load(Ordering::SeqCst) > 0 {
                break;
            }
            thread::sleep(self.rt, Duration::from_millis(10));
        }
        self.clock.wait()
    }
}

/// Serves all, and answers how many workers ended since all was over, and how many since their clock stopped.
fn serve<R>(rt: &R, alloc: Global, listener: TcpListener, served: &AtomicU64) -> Option<(u32, u32)>
where
    R: Threads + Wait + Clock + Abort + Sync,
{
    let door = TcpDoor::new(rt, listener).ok()?;
    let clock = ClockTicker::stopping_after(rt, TICKS);
    let mut roles = Vec::new(alloc);
    roles
        .push(Role::Ticker(Starting { rt, served, clock }))
        .ok()?;
    for _ in 0..GAME {
        roles.push(Role::Game(door.another().ok()?)).ok()?;
    }
    for _ in 0..ADMIN {
        roles.push(Role::Admin(door.another().ok()?)).ok()?;
    }
    let workers = run(rt, alloc, roles, &OpenGate)?;
    let over = how_many(&workers, WorkerEnd::Over);
    Some((over, how_many(&workers, WorkerEnd::Stopped)))
}

/// How many workers ended so.
fn how_many<L: Listener, A: Listener, T: Ticker>(
    workers: &[Worker<EchoCore, L, A, T>],
    end: WorkerEnd,
) -> u32 {
    let mut count = 0_u32;
    for worker in workers.iter() {
        if worker.end == end {
            count = count.saturating_add(1);
        }
    }
    count
}

/// Asks a connection, and answers whether it was answered as the echo core answers.
fn is_answered(stream: &mut TcpStream) -> bool {
    let mut answer = [0; 3];
    stream.write_all(PACKET).is_ok()
        && stream.read_exact(&mut answer).is_ok()
        && answer.as_slice() == ANSWER
}

/// Connects to each worker and asks it; then waits for the end of each. Answers how many were answered, and how many ended.
fn call<R: Net<Listener = TcpListener, Stream = TcpStream>>(
    rt: &R,
    alloc: Global,
    place: SocketAddr,
    served: &AtomicU64,
) -> Option<(u32, u32)> {
    let mut streams = Vec::new(alloc);
    for _ in 0..GAME + ADMIN {
        let stream = TcpStream::connect(rt, place).ok()?;
        stream.set_read_timeout(Some(Duration::from_secs(50))).ok()?;
        streams.push(stream).ok()?;
    }
    let mut answered = 0u32;
    for stream in streams.iter_mut() {
        answered = answered.saturating_add(u32::from(is_answered(stream)));
    }
    served.store(1, Ordering::SeqCst);
    let mut ended = 0u32;
    for stream in streams.iter_mut() {
        ended = ended.saturating_add(u32::from(matches!(stream.read(&mut [0; 1]), Ok(0))));
    }
    Some((answered, ended))
}

/// Serves and calls side by side.
fn both<R>(
    rt: &R,
    alloc: Global,
    listener: TcpListener,
    place: SocketAddr,
) -> (Option<(u32, u32)>, Option<(u32, u32)>)
where
    R: Net<Listener = TcpListener, Stream = TcpStream> + Threads + Wait + Clock + Abort + Sync,
{
    let served = AtomicU64::new(0);
    let shared = &served;
    join(
        rt,
        move || serve(rt, alloc, listener, shared),
        move || {
            let called = call(rt, alloc, place, shared);
            shared.store(1, Ordering::SeqCst);
            called
        },
    )
}

#[test]
fn each_of_273_workers_serves_its_link(rt: HostRuntime) -> Result<(), Fail> {
    let listener = TcpListener::bind(&rt, "127.0.0.1:0")?;
    let place = listener.local_addr()?;
    let (ends, calls) = both(&rt, rt.alloc(), listener, place);
    assert_eq!(rt; calls, Some((GAME + ADMIN, GAME + ADMIN)));
    assert_eq!(rt; ends, Some((GAME + ADMIN, 1)));
    Ok(())
}
