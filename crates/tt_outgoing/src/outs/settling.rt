//! What nobody needs any more is dropped.
ghost use Rattle.std.specs.Prelude.{◌≡◌, ℕ, ◌≤◌, ◌<◌, ◌+◌, List, length, drop, vec_capacity};
ghost use Rattle.tt_outgoing.specs.declared.outs.seat.Seat.{Seat};
ghost use Rattle.tt_outgoing.specs.Outgoing.{plain, IsHeld, IsSound, Rising, part_at, end_of, waits_in, spare_bytes, spare_parts};

use crate::outs::log::{Log, part_at};

/// Drops the parts at the front that are taken whole, and the bytes at the front that no part needs.
pub(crate) fn settle(log: &mut Log)
    requires sound { IsSound (plain log.old) }
    ensures held { (seats : List Seat) → IsHeld (plain log.old) seats → IsHeld (plain log.new) seats }
    ensures waits { (c : ℕ) → 1 ≤ c → waits_in (plain log.new) c ≡ waits_in (plain log.old) c }
    ensures spare { (spare_bytes log.old ≤ spare_bytes log.new) × (spare_parts log.old ≤ spare_parts log.new) }
{
    drop_parts(log);
    drop_bytes(log);
}

/// Drops the parts at the front that are taken whole.
fn drop_parts(log: &mut Log)
    requires sound { IsSound (plain log.old) }
    ensures sound { IsSound (plain log.new) }
    ensures held { (seats : List Seat) → IsHeld (plain log.old) seats → IsHeld (plain log.new) seats }
    ensures waits { (c : ℕ) → 1 ≤ c → waits_in (plain log.new) c ≡ waits_in (plain log.old) c }
    ensures bytes { spare_bytes log.new ≡ spare_bytes log.old }
    ensures parts { spare_parts log.old ≤ spare_parts log.new }
{
    while !log.parts.is_empty() && part_at(&log.parts, 0).conn == 0 {
        drop_part(log);
    }
}

/// Drops the first part, which is taken whole.
fn drop_part(log: &mut Log)
    requires sound { IsSound (plain log.old) }
    requires some { 0 < length log.old.parts.items }
    requires taken { (part_at log.old.parts.items 0).conn ≡ 0 }
    ensures fewer { length log.new.parts.items + 1 ≡ length log.old.parts.items }
    ensures sound { IsSound (plain log.new) }
    ensures held { (seats : List Seat) → IsHeld (plain log.old) seats → IsHeld (plain log.new) seats }
    ensures waits { (c : ℕ) → 1 ≤ c → waits_in (plain log.new) c ≡ waits_in (plain log.old) c }
    ensures bytes { spare_bytes log.new ≡ spare_bytes log.old }
    ensures parts { spare_parts log.old ≤ spare_parts log.new }
{
    let _ = log.parts.pop_front();
    log.gone += 1;
}

/// Drops the front of the tail that no part needs, where it is at least half of the tail: so no more bytes are moved than are
/// dropped.
fn drop_bytes(log: &mut Log)
    requires sound { IsSound (plain log.old) }
    ensures held { (seats : List Seat) → IsHeld (plain log.old) seats → IsHeld (plain log.new) seats }
    ensures waits { (c : ℕ) → 1 ≤ c → waits_in (plain log.new) c ≡ waits_in (plain log.old) c }
    ensures bytes { spare_bytes log.old ≤ spare_bytes log.new }
    ensures parts { spare_parts log.new ≡ spare_parts log.old }
{
    let dead = unneeded(log);
    if dead < log.tail.as_slice().len() - dead {
        return;
    }
    drop_front(&mut log.tail, dead);
    log.base += dead as u64;
}

/// Drops the first bytes of a tail.
fn drop_front(tail: &mut Vec<u8>, n: usize)
    requires { n ≤ length tail.old.items }
    ensures items { tail.new.items ≡ drop n tail.old.items }
    ensures room { vec_capacity tail.new ≡ vec_capacity tail.old }
{
    tail.drain(..n);
}

/// How many bytes at the front of the tail no part needs.
fn unneeded(log: &Log) -> usize
    requires sound { IsSound (plain log.now) }
    ensures few { result ≤ length log.now.tail.items }
    ensures rising { Rising (log.now.base + result) (end_of (plain log.now)) log.now.parts.items }
{
    if log.parts.is_empty() {
        return log.tail.as_slice().len();
    }
    (part_at(&log.parts, 0).start - log.base) as usize
}
