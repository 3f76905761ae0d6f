//! Links and listeners over sockets of TCP. They tell nothing of their bytes and links.
ghost use Rattle.std.specs.Prelude.{◌≡◌, ◌≤◌, None, IfOk};
ghost use Rattle.tt_edge.specs.Link.{no_counts};

use crate::event::Peer;
use crate::link::{Link, LinkGot, LinkWrote};
use crate::listener::{Accepted, Listener, Served};
use crate::rhythm::Rhythm;
use libc::net::{POLLIN, listen, poll};
use libc::types::pollfd;
use std::io::{self, Error, ErrorKind, Read, Write};
use std::net::{SocketAddr, TcpListener, TcpStream};
use std::os::fd::{AsRawFd, OwnedFd};
use std::time::{Clock, Duration};

/// How many milliseconds a write, an accept, and a read that found bytes wait at most.
const WAIT: u64 = 50;

/// How many connections may wait to be accepted: all links of a server may come at once, and one that finds no room tries again
/// only after a second.
const WAITING: i32 = 1024;

/// Whether an error only says that nothing came, or could go, yet.
fn is_idle(error: &Error) -> bool {
    matches!(
        error.kind(),
        ErrorKind::WouldBlock | ErrorKind::TimedOut | ErrorKind::Interrupted
    )
}

/// Whether an error of `accept` says nothing against the listener: nobody came yet, who came is gone again, the network of
/// one connection fails, or there are no descriptors or no memory for one more now.
fn is_passing(error: &Error) -> bool {
    match error.raw_os_error() {
        // EINTR, EAGAIN, ENOMEM, ENFILE, EMFILE, EPERM
        Some(4 | 11 | 12 | 23 | 24 | 1) => true,
        // ENONET, EPROTO, ENOPROTOOPT, EOPNOTSUPP, ENETDOWN, ENETUNREACH, ECONNABORTED, ENOBUFS, ETIMEDOUT, EHOSTDOWN, EHOSTUNREACH
        Some(64 | 71 | 92 | 95 | 100 | 101 | 103 | 105 | 110 | 112 | 113) => true,
        _ => is_idle(error),
    }
}

/// A connection of TCP.
///
/// A read waits as long as 30 milliseconds for bytes (`rhythm` says how long), and a write 50 for room.
#[derive(Drop)]
pub struct TcpLink<R> {
    clock: R,
    stream: TcpStream,
    rhythm: Rhythm,
    faults: u64,
    ends: u64,
    idle_reads: u64,
    idle_writes: u64,
    stalled: u64,
}

impl<R: Clock + Drop> TcpLink<R> {
    ghost use Rattle.tt_edge.specs.Tcp.{tcp_counts_of};

    /// A link that nobody has called.
    pub fn new(clock: R, stream: TcpStream) -> io::Result<TcpLink<R>>
        ensures { IfOk result (λ link. tcp_counts_of link ≡ no_counts) }
    {
        stream.set_nodelay(true)?;
        stream.set_read_timeout(Some(Duration::from_millis(WAIT)))?;
        stream.set_write_timeout(Some(Duration::from_millis(WAIT)))?;
        let rhythm = Rhythm::new(clock.monotonic()?);
        Ok(TcpLink {
            clock,
            stream,
            rhythm,
            faults: 0,
            ends: 0,
            idle_reads: 0,
            idle_writes: 0,
            stalled: 0,
        })
    }

    /// Whether there is something to read, after a wait for it.
    fn is_ready(&mut self) -> bool
        ensures { tcp_counts_of self.new ≡ tcp_counts_of self.old }
    {
        let wait = self
            .rhythm
            .wait(self.clock.monotonic().unwrap_or(Duration::ZERO));
        let mut asked = [pollfd {
            fd: self.stream.as_raw_fd(),
            events: POLLIN,
            revents: 0,
        }];
        let found = poll(&mut asked, wait) > 0;
        self.rhythm.note_look(found);
        found
    }

    /// Notes that bytes went out.
    fn note_write(&mut self)
        ensures { tcp_counts_of self.new ≡ tcp_counts_of self.old }
    {
        self.rhythm
            .note_write(self.clock.monotonic().unwrap_or(Duration::ZERO));
    }
}

impl<R: Clock + Drop> Link for TcpLink<R> {
    ghost use Rattle.tt_edge.specs.Tcp.{tcp_counts_of};

    ghost counts = { tcp_counts_of };

    ghost left = { λ _. None };

    ghost was_read = { λ _. None };

    ghost held = { λ _. None };

    fn read(&mut self, out: &mut [u8]) -> LinkGot {
        if self.ends > 0 {
            self.ends = self.ends.saturating_add(1);
            return LinkGot::End;
        }
        if !self.is_ready() {
            self.idle_reads = self.idle_reads.saturating_add(1);
            return LinkGot::Nothing;
        }
        match self.stream.read(out) {
            Ok(0) => {
                self.ends = self.ends.saturating_add(1);
                LinkGot::End
            }
            Ok(n) => LinkGot::Bytes(n),
            Err(error) if is_idle(&error) => {
                self.idle_reads = self.idle_reads.saturating_add(1);
                LinkGot::Nothing
            }
            Err(_) => {
                self.faults = self.faults.saturating_add(1);
                LinkGot::Failed
            }
        }
    }

    fn write(&mut self, bytes: &[u8]) -> LinkWrote {
        match self.stream.write(bytes) {
            Ok(n) if n > 0 => {
                self.note_write();
                self.stalled = 0;
                LinkWrote::Count(n)
            }
            Err(error) if is_idle(&error) => {
                self.idle_writes = self.idle_writes.saturating_add(1);
                self.stalled = self.stalled.saturating_add(1);
                LinkWrote::Nothing
            }
            _ => {
                self.faults = self.faults.saturating_add(1);
                LinkWrote::Failed
            }
        }
    }
}

/// One handle on a listening socket of TCP. An accept waits as long as 50 milliseconds.
#[derive(Drop)]
pub struct TcpDoor<R> {
    clock: R,
    listener: TcpListener,
    faults: u64,
    idle: u64,
}

impl<R: Clock + Copy> TcpDoor<R> {
    /// A handle on this socket, with the clock that its links are to go by.
    pub fn new(clock: R, listener: TcpListener) -> io::Result<TcpDoor<R>> {
        // A socket that listens already takes the new number; where it doesn't, the old one stands.
        let _ = listen(listener.as_raw_fd(), WAITING);
        // The socket's receive timeout governs `accept` too; std names it for streams alone.
        let same = TcpStream::from(OwnedFd::from(listener.try_clone()?));
        same.set_read_timeout(Some(Duration::from_millis(WAIT)))?;
        Ok(TcpDoor {
            clock,
            listener,
            faults: 0,
            idle: 0,
        })
    }

    /// Another handle on the same socket.
    pub fn another(&self) -> io::Result<TcpDoor<R>> {
        Ok(TcpDoor {
            clock: self.clock,
            listener: self.listener.try_clone()?,
            faults: 0,
            idle: 0,
        })
    }
}

/// The other end's address. One of IP version 6 is told as 0.0.0.0.
fn peer_of(addr: SocketAddr) -> Peer {
    match addr {
        SocketAddr::V4(addr) => Peer {
            host: addr.ip().octets(),
            port: addr.port(),
        },
        SocketAddr::V6(addr) => Peer {
            host: [0, 0, 0, 0],
            port: addr.port(),
        },
    }
}

impl<R: Clock + Copy> Listener for TcpDoor<R> {
    type Link = TcpLink<R>;

    ghost counts = { λ d. record { faults = d.faults; idle = d.idle } };

    ghost served = { λ _. None };

    ghost peers = { λ _. None };

    ghost out = { λ _. None };

    fn accept(&mut self) -> Accepted<TcpLink<R>> {
        match self.listener.accept() {
            Ok((stream, addr)) => match TcpLink::new(self.clock, stream) {
                Ok(link) => Accepted::Link(link, peer_of(addr)),
                Err(_) => {
                    self.idle = self.idle.saturating_add(1);
                    Accepted::Nothing
                }
            },
            Err(error) if is_passing(&error) => {
                self.idle = self.idle.saturating_add(1);
                Accepted::Nothing
            }
            Err(_) => {
                self.faults = self.faults.saturating_add(1);
                Accepted::Failed
            }
        }
    }

    /// Lets the link go, which closes its connection.
    fn retire(&mut self, _served_as: Served, _link: TcpLink<R>) {}
}
