//! Cuts a stream that comes in pieces into packets.
//!
//! A reader makes a `Framer` once, with the largest size that it takes, and then goes on in turns: it calls `feed` with
//! what has come, and `next` until the answer is `Partial`. A piece of which not all was taken is fed again from there.
ghost use Rattle.std.specs.Prelude.{◌≡◌, ℕ, ◌+◌, ◌-◌, ◌<◌, ◌≤◌, [], ◌++◌, length, take, min, true, false, IfOk, IsTrue, IsFalse};
ghost use Rattle.std.specs.Borrow.{sem};
ghost use Rattle.std.specs.Io.BufRead.{Rests};
ghost use Rattle.tt_frame.specs.Packet.{largest_packet};
ghost use Rattle.tt_frame.specs.Framing.{IsFirst, Feeds, Gives};
ghost use Rattle.tt_frame.specs.contracts.framer.Framer.{the_row};

use crate::buffer::{copy_at, move_to_front};
use crate::memory::OutOfMemory;
use std::alloc::Global;
use std::marker::Model;

/// The most bytes of a packet that is read.
pub const LARGEST_PACKET: u16 = 32767;

/// What stands first in a stream.
#[derive(Debug, Clone, Copy)]
pub enum Next<'a> {
    /// A whole packet.
    Packet { kind: u8, body: &'a [u8] },
    /// Less than a whole packet.
    Partial,
    /// A size that no packet has. It is the answer from then on.
    BadSize(u16),
}

/// What stands first in the bytes, where packets have at most `limit` of them. It is for a reader that keeps the bytes
/// itself; a `Framer` keeps them for one.
#[inline(always)]
pub fn first_of(bytes: &[u8], limit: u16) -> Next<'_>
    ensures { IsFirst limit bytes.now result }
{
    if bytes.len() < 2 {
        return Next::Partial;
    }
    let size = u16::from_le_bytes([bytes[0], bytes[1]]);
    if size < 3 || size > limit {
        return Next::BadSize(size);
    }
    let end = usize::from(size);
    if bytes.len() < end {
        return Next::Partial;
    }
    Next::Packet {
        kind: bytes[2],
        body: &bytes[3..end],
    }
}

/// Holds the bytes of a stream that are no whole packet yet, and gives each packet as soon as it is whole.
///
/// Contracts see the limit, the bytes that are held, and whether a bad size was met. What holds of every run of calls,
/// however the pieces are cut, is the contract of `every_run`.
#[derive(Drop)]
pub struct Framer {
    limit: u16,
    /// Room for one packet of the largest size, made once.
    buffer: Vec<u8>,
    /// The bytes from `start` up to `end` are held.
    start: usize,
    end: usize,
    broken: bool,
}

impl Model for Framer {
    ghost use Rattle.std.specs.Prelude.{◌≡◌, ◌≤◌, slice_range, vec_len};
    ghost use Rattle.tt_frame.specs.Holding.{Holding};

    ghost Value = { Holding };

    ghost view = { λ f. record { limit = f.limit; held = slice_range f.buffer.items f.start f.end; broken = f.broken } };

    ghost invariant = { λ f. (f.start ≤ f.end) × (f.end ≤ vec_len f.buffer) × (vec_len f.buffer ≡ f.limit) × (3 ≤ f.limit) };
}

impl Framer {
    /// A framer that takes packets of at most `limit` bytes, and holds nothing. It takes all its memory now.
    pub fn new(alloc: Global, limit: u16) -> Result<Framer, OutOfMemory>
        requires least { 3 ≤ limit }
        requires most { limit ≤ largest_packet }
        ensures { IfOk result (λ f. f ≡ record { limit = limit; held = []; broken = false }) }
    {
        Ok(Framer {
            limit,
            buffer: vec![in alloc; 0; usize::from(limit)]?,
            start: 0,
            end: 0,
            broken: false,
        })
    }

    /// Takes the first bytes of the piece, as many as there is room for, and answers how many. After a bad size it takes
    /// all, and forgets them.
    #[inline]
    pub fn feed(&mut self, piece: &[u8]) -> usize
        ensures { Feeds self.old piece.now result self.new }
    {
        if self.broken {
            return piece.len();
        }
        self.end = move_to_front(self.buffer.as_mut_slice(), self.start, self.end);
        self.start = 0;
        let count = copy_at(self.buffer.as_mut_slice(), self.end, piece);
        self.end += count;
        count
    }

    /// Gives the first whole packet, and lets go of it; or says that there is none yet, or that none can come.
    #[inline]
    pub fn next(&mut self) -> Next<'_>
        ensures* after { sem 𝓛 (Rests the_row self.entry (λ new. Gives self.old result new)) }
    {
        let next = first_of(&self.buffer[self.start..self.end], self.limit);
        match next {
            Next::Packet { body, .. } => self.start += body.len() + 3,
            Next::Partial => {}
            Next::BadSize(_) => self.broken = true,
        }
        next
    }

    /// Forgets what is held, and a bad size that was met: the framer is as it was when it was made, for another stream.
    pub fn clear(&mut self)
        ensures { self.new ≡ record { limit = self.old.limit; held = []; broken = false } }
    {
        self.start = 0;
        self.end = 0;
        self.broken = false;
    }
}
