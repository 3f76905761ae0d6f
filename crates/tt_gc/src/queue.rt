//! Bytes that a connection was told and has not taken.
ghost use Rattle.std.specs.Prelude.{◌≡◌, ◌≤◌, ◌==◌, ◌+◌, ◌-◌, ◌++◌, [], length, take, drop, min, OnOk, OnErr};
ghost use Rattle.tt_gc.specs.Queues.{none, roomier, longer, IsAsFull};

use std::alloc::Global;
use std::marker::Model;
use tt_frame::OutOfMemory;

/// The bytes. The first of them were taken; they are dropped once all were.
#[derive(Drop)]
pub(crate) struct Queue {
    bytes: Vec<u8>,
    /// How many of the bytes were taken.
    front: usize,
    /// How many bytes were taken and dropped.
    gone: u64,
    /// For how many more bytes there is room.
    spare: usize,
}

impl Model for Queue {
    ghost use Rattle.std.specs.Prelude.{◌≡◌, ◌≤◌, ◌<◌, ◌+◌, ◌^◌, length, drop, vec_len, vec_capacity};
    ghost use Rattle.tt_gc.specs.Queues as book;

    ghost Value = { book.Queue };

    ghost view = { λ q. record { taken = q.gone + q.front; left = drop q.front q.bytes.items; spare = q.spare } };

    ghost invariant = { λ q. (q.front ≤ vec_len q.bytes) × (q.gone + vec_len q.bytes + q.spare < 2 ^ 64)
        × (vec_len q.bytes + q.spare ≤ vec_capacity q.bytes) };
}

impl Queue {
    /// Nothing was told. It takes no memory.
    pub(crate) fn new(alloc: Global) -> Queue
        ensures { result ≡ none }
    {
        Queue {
            bytes: Vec::new(alloc),
            front: 0,
            gone: 0,
            spare: 0,
        }
    }

    /// Takes room for so many more bytes. Where memory runs out, or the count of the bytes, nothing was changed.
    pub(crate) fn reserve(&mut self, count: usize) -> Result<(), OutOfMemory>
        ensures ok { OnOk result (self.new ≡ roomier count self.old) }
        ensures err { OnErr result (self.new ≡ self.old) }
    {
        let told = self.gone + self.bytes.len() as u64 + self.spare as u64;
        if count as u64 > u64::MAX - told || count > usize::MAX - self.spare {
            return Err(OutOfMemory);
        }
        let spare = self.spare + count;
        self.bytes.reserve(spare)?;
        self.spare = spare;
        Ok(())
    }

    /// The room that is taken isn't meant for anything any more. It is still there, so that taking it again takes no memory.
    pub(crate) fn release(&mut self)
        ensures { IsAsFull self.old self.new }
    {
        self.spare = 0;
    }

    /// More bytes are told. No memory is taken.
    pub(crate) fn tell(&mut self, bytes: &[u8])
        requires room { length bytes.now ≤ self.old.spare }
        ensures { self.new ≡ longer bytes.now self.old }
    {
        if self.bytes.extend_from_slice(bytes).is_err() {
            unreachable!();
        }
        self.spare -= bytes.len();
    }

    /// Takes the next bytes, as many as fit or are there, and answers how many.
    pub(crate) fn take(&mut self, out: &mut [u8]) -> usize
        ensures count { result ≡ min (length out.old) (length self.old.left) }
        ensures out { out.new ≡ take result self.old.left ++ drop result out.old }
        ensures taken { self.new.taken ≡ self.old.taken + result }
        ensures left { self.new.left ≡ drop result self.old.left }
    {
        let left = self.bytes.len() - self.front;
        let count = out.len().min(left);
        out[..count].copy_from_slice(&self.bytes[self.front..self.front + count]);
        self.front += count;
        self.settle();
        count
    }

    /// Drops the bytes that were taken, where all were.
    fn settle(&mut self)
        ensures { IsAsFull self.old self.new }
    {
        if self.front == self.bytes.len() {
            self.gone += self.front as u64;
            self.front = 0;
            self.spare = 0;
            self.bytes.clear();
        }
    }

    /// Whether nothing waits.
    pub(crate) fn is_empty(&self) -> bool
        ensures { result ≡ (length self.now.left == 0) }
    {
        self.bytes.len() == self.front
    }

    /// How many bytes were told.
    pub(crate) fn told(&self) -> u64
        ensures { result ≡ self.now.taken + length self.now.left }
    {
        self.gone + self.bytes.len() as u64
    }
}
