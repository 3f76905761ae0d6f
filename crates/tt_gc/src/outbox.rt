//! What all connections were told and have not taken: room is taken first, and then all that an event tells is told at once.
ghost use Rattle.std.specs.Prelude.{◌≡◌, ◌≢◌, ◌≤◌, ◌<◌, ◌==◌, ◌+◌, ◌-◌, ◌++◌, ◌⊎◌, ℕ, [], cond, length, take, drop, min, OnOk, OnErr};
ghost use Rattle.std.specs.Prelude.{IfSome, IfNone};
ghost use Rattle.tt_gc_table.specs.Tells.{told_to};
ghost use Rattle.tt_gc.specs.Queues.{none, queue_of, roomier, longer, IsAsFull, IsTold};

use crate::queue::Queue;
use std::alloc::Global;
use std::marker::Model;
use tt_frame::OutOfMemory;
use tt_gc_table::Tells;

/// A queue for each connection that was opened: the first one is that of connection 1.
#[derive(Drop)]
pub(crate) struct Outbox {
    queues: Vec<Queue>,
}

impl Model for Outbox {
    ghost use Rattle.std.specs.Prelude.{List};
    ghost use Rattle.tt_gc.specs.Queues.{Queue};

    ghost Value = { List Queue };

    ghost view = { λ o. o.queues.items };
}

impl Outbox {
    /// Nobody is there. It takes no memory.
    pub(crate) fn new(alloc: Global) -> Outbox
        ensures { result ≡ [] }
    {
        Outbox {
            queues: Vec::new(alloc),
        }
    }

    /// Makes a queue for the connection with this number, where all before it have one. Nothing waits in it.
    pub(crate) fn seat(&mut self, alloc: Global, conn: u32) -> Result<(), OutOfMemory>
        ensures { (c : ℕ) → queue_of self.new c ≡ queue_of self.old c }
    {
        if self.queues.len() < conn as usize {
            self.queues.push(Queue::new(alloc))?;
        }
        Ok(())
    }

    /// The place of a connection's queue.
    fn place(&self, conn: u32) -> Option<usize>
        ensures some { IfSome result (λ at. (at + 1 ≡ conn) × (at < length self.now)) }
        ensures none { IfNone result ((conn ≡ 0) ⊎ (length self.now < conn)) }
    {
        if conn == 0 || conn as usize > self.queues.len() {
            return None;
        }
        Some(conn as usize - 1)
    }

    /// Takes room for so many more bytes. Where memory runs out, nothing was changed.
    fn reserve_one(&mut self, conn: u32, count: usize) -> Result<(), OutOfMemory>
        ensures ok { OnOk result ((c : ℕ) → queue_of self.new c ≡ cond (conn == c) (roomier count (queue_of self.old c))
            (queue_of self.old c)) }
        ensures err { OnErr result ((c : ℕ) → queue_of self.new c ≡ queue_of self.old c) }
    {
        // Only those that are live are told anything, and each of them has a queue.
        let Some(at) = self.place(conn) else {
            return Err(OutOfMemory);
        };
        self.queues[at].reserve(count)?;
        Ok(())
    }

    /// Tells bytes to a connection. No memory is taken.
    fn tell_one(&mut self, conn: u32, bytes: &[u8])
        requires room { length bytes.now ≤ (queue_of self.old conn).spare }
        ensures { (c : ℕ) → queue_of self.new c ≡ cond (conn == c) (longer bytes.now (queue_of self.old c)) (queue_of self.old c) }
    {
        if let Some(at) = self.place(conn) {
            self.queues[at].tell(bytes);
        }
    }

    /// The room in a connection's queue isn't meant for anything any more.
    fn release_one(&mut self, conn: u32)
        ensures { (c : ℕ) → IsAsFull (queue_of self.old c) (queue_of self.new c) }
    {
        if let Some(at) = self.place(conn) {
            self.queues[at].release();
        }
    }

    /// No room is meant for anything any more where something is told: some may be left of an event for which memory ran out.
    fn release(&mut self, tells: &Tells)
        ensures { (c : ℕ) → IsAsFull (queue_of self.old c) (queue_of self.new c) }
    {
        for tell in tells.as_slice() {
            self.release_one(tell.conn);
        }
    }

    /// Takes room for all that is told. What waits stays as it is.
    pub(crate) fn reserve(&mut self, tells: &Tells) -> Result<(), OutOfMemory>
        ensures same { (c : ℕ) → IsAsFull (queue_of self.old c) (queue_of self.new c) }
        ensures room { OnOk result ((c : ℕ) → length (told_to c tells.now) ≤ (queue_of self.new c).spare) }
    {
        self.release(tells);
        for tell in tells.as_slice() {
            self.reserve_one(tell.conn, tell.bytes().len())?;
        }
        Ok(())
    }

    /// Tells it all, in order. No memory is taken.
    pub(crate) fn tell(&mut self, tells: &Tells)
        requires room { (c : ℕ) → length (told_to c tells.now) ≤ (queue_of self.old c).spare }
        ensures { (c : ℕ) → IsTold (told_to c tells.now) (queue_of self.old c) (queue_of self.new c) }
    {
        for tell in tells.as_slice() {
            self.tell_one(tell.conn, tell.bytes());
        }
    }

    /// Takes the next bytes that wait for a connection, as many as fit or are there, and answers how many.
    pub(crate) fn take(&mut self, conn: u32, out: &mut [u8]) -> usize
        ensures count { result ≡ min (length out.old) (length (queue_of self.old conn).left) }
        ensures out { out.new ≡ take result (queue_of self.old conn).left ++ drop result out.old }
        ensures taken { (queue_of self.new conn).taken ≡ (queue_of self.old conn).taken + result }
        ensures left { (queue_of self.new conn).left ≡ drop result (queue_of self.old conn).left }
        ensures others { (c : ℕ) → c ≢ conn → queue_of self.new c ≡ queue_of self.old c }
    {
        match self.place(conn) {
            Some(at) => self.queues[at].take(out),
            None => 0,
        }
    }

    /// Whether nothing waits for a connection.
    pub(crate) fn is_empty(&self, conn: u32) -> bool
        ensures { result ≡ (length (queue_of self.now conn).left == 0) }
    {
        match self.place(conn) {
            Some(at) => self.queues[at].is_empty(),
            None => true,
        }
    }

    /// How many bytes a connection was told.
    pub(crate) fn told(&self, conn: u32) -> u64
        ensures { result ≡ (queue_of self.now conn).taken + length (queue_of self.now conn).left }
    {
        match self.place(conn) {
            Some(at) => self.queues[at].told(),
            None => 0,
        }
    }
}
