//! One tail of the bytes that somebody still needs, and the parts of it that connections are told, in the order in which they
//! were told.
ghost use Rattle.std.specs.Prelude.{◌≡◌, ◌≤◌, ◌<◌, ◌+◌, ◌++◌, ◌∷◌, [], List, ℕ, length, slice_set, OnOk, vec_capacity, vec_len};
ghost use Rattle.std.specs.VecDeque.{deque_capacity, deque_len};
ghost use Rattle.tt_outgoing.specs.declared.outs.seat.Seat.{Seat};
ghost use Rattle.tt_outgoing.specs.Outgoing.{plain, IsSound, IsHeld, IsWithin, BeginBy, part_at, part_bytes, end_of, number_of, waits_in};
ghost use Rattle.tt_outgoing.specs.Outgoing.{spare_bytes, spare_parts};

use std::alloc::Global;
use std::collections::VecDeque;
use tt_frame::OutOfMemory;

/// A part of the tail that a connection is told: the bytes between two places, counted from the first byte ever told. It
/// began at `start`; `from` rises as it is taken, and one that is taken whole is of connection 0. No part with a number
/// between its own and `next` is of the same connection.
#[derive(Clone, Copy, Debug)]
pub(crate) struct Part {
    pub(crate) conn: u32,
    pub(crate) start: u64,
    pub(crate) from: u64,
    pub(crate) to: u64,
    pub(crate) next: u64,
}

/// The tail, whose first byte has the place `base`, and the parts, whose first one has the number `gone`.
#[derive(Drop)]
pub(crate) struct Log {
    pub(crate) tail: Vec<u8>,
    pub(crate) base: u64,
    pub(crate) parts: VecDeque<Part>,
    pub(crate) gone: u64,
}

impl Log {
    /// Nothing is told yet. It takes no memory.
    pub(crate) fn new(alloc: Global) -> Log
        ensures held { IsHeld (plain result) [] }
    {
        Log {
            tail: Vec::new(alloc),
            base: 0,
            parts: VecDeque::new(alloc),
            gone: 0,
        }
    }

    /// Makes room for so many more bytes and parts; places and numbers are counted in 64 bits.
    pub(crate) fn reserve(&mut self, bytes: usize, parts: usize) -> Result<(), OutOfMemory>
        requires sound { IsSound (plain self.old) }
        ensures bytes { OnOk result (bytes ≤ spare_bytes self.new) }
        ensures parts { OnOk result (parts ≤ spare_parts self.new) }
        ensures more { (spare_bytes self.old ≤ spare_bytes self.new) × (spare_parts self.old ≤ spare_parts self.new) }
        ensures waits { (c : ℕ) → waits_in (plain self.new) c ≡ waits_in (plain self.old) c }
        ensures held { (seats : List Seat) → IsHeld (plain self.old) seats → IsHeld (plain self.new) seats }
    {
        self.tail.reserve(bytes)?;
        self.parts.reserve(parts)?;
        let end = self.base + self.tail.len() as u64;
        let number = self.gone + self.parts.len() as u64;
        if bytes as u64 > u64::MAX - end || parts as u64 > u64::MAX - number {
            return Err(OutOfMemory);
        }
        Ok(())
    }

    /// Puts bytes behind the tail, and answers the place of the first of them. Nobody is told of them yet.
    pub(crate) fn put_bytes(&mut self, bytes: &[u8]) -> u64
        requires sound { IsSound (plain self.old) }
        requires room { length bytes.now ≤ spare_bytes self.old }
        ensures start { result ≡ end_of (plain self.old) }
        ensures tail { self.new.tail.items ≡ self.old.tail.items ++ bytes.now }
        ensures base { self.new.base ≡ self.old.base }
        ensures before { BeginBy result self.new.parts.items }
        ensures waits { (c : ℕ) → waits_in (plain self.new) c ≡ waits_in (plain self.old) c }
        ensures held { (seats : List Seat) → IsHeld (plain self.old) seats → IsHeld (plain self.new) seats }
        ensures bytes { spare_bytes self.old ≤ spare_bytes self.new + length bytes.now }
        ensures parts { spare_parts self.new ≡ spare_parts self.old }
    {
        let start = self.base + self.tail.as_slice().len() as u64;
        put_all(&mut self.tail, bytes);
        start
    }
}

/// Bytes more, where there is room for them.
fn put_all(tail: &mut Vec<u8>, bytes: &[u8])
    requires { vec_len tail.old + length bytes.now ≤ vec_capacity tail.old }
    ensures items { tail.new.items ≡ tail.old.items ++ bytes.now }
    ensures room { vec_capacity tail.old ≤ vec_capacity tail.new }
{
    match tail.extend_from_slice(bytes) {
        Ok(()) => (),
        Err(_) => unreachable!(),
    }
}

/// The part in a place of the list.
pub(crate) fn part_at(parts: &VecDeque<Part>, i: usize) -> Part
    requires { i < length parts.now.items }
    ensures { result ≡ part_at parts.now.items i }
{
    parts[i]
}

/// Puts another part in its place.
pub(crate) fn set_part(parts: &mut VecDeque<Part>, i: usize, part: Part)
    requires { i < length parts.old.items }
    ensures items { parts.new.items ≡ slice_set parts.old.items i part }
    ensures room { deque_capacity parts.new ≡ deque_capacity parts.old }
{
    parts[i] = part;
}

/// One part more, where there is room for it.
pub(crate) fn put_part(parts: &mut VecDeque<Part>, part: Part)
    requires { deque_len parts.old < deque_capacity parts.old }
    ensures items { parts.new.items ≡ parts.old.items ++ part ∷ [] }
    ensures len { deque_len parts.new ≡ deque_len parts.old + 1 }
    ensures room { deque_capacity parts.new ≡ deque_capacity parts.old }
{
    let _ = parts.push_back(part);
}

/// The bytes of a part.
pub(crate) fn part_bytes<'a>(tail: &'a [u8], base: u64, part: &Part) -> &'a [u8]
    requires within { IsWithin base (base + length tail.now) part.now }
    ensures { result.now ≡ part_bytes base tail.now part.now }
{
    let at = (part.from - base) as usize;
    let end = (part.to - base) as usize;
    &tail[at..end]
}
