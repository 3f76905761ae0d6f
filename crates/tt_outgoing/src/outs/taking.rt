//! Bytes are taken.
ghost use Rattle.std.specs.Prelude.{◌≡◌, ◌≢◌, ℕ, ◌≤◌, ◌<◌, ◌+◌, ◌-◌, ◌++◌, [], length, take, drop, min};
ghost use Rattle.std.specs.VecDeque.{deque_capacity};
ghost use Rattle.tt_outgoing.specs.Outgoing.{plain, Keeps, IsHeld, IsSound, part_at, number_of, waits_in, waits_before, waits_from};
ghost use Rattle.tt_outgoing.specs.Outgoing.{spare_bytes};
ghost use Rattle.tt_outgoing.specs.Outgoing.{spare_parts};

use crate::outs::log::{Log, Part, part_at, part_bytes, set_part};
use crate::outs::seat::{Seat, seat_of, set_seat};

/// Takes the first bytes that wait for a connection, as many as there is room for or are there, and answers how many.
pub(crate) fn take_some(log: &mut Log, seats: &mut Vec<Seat>, conn: u32, out: &mut [u8]) -> usize
    requires held { IsHeld (plain log.old) seats.old.items }
    requires opened { (1 ≤ conn) × (conn ≤ length seats.old.items) }
    ensures held { IsHeld (plain log.new) seats.new.items }
    ensures count { result ≡ min (length out.old) (length (waits_in (plain log.old) conn)) }
    ensures taken { out.new ≡ take result (waits_in (plain log.old) conn) ++ drop result out.old }
    ensures rest { waits_in (plain log.new) conn ≡ drop result (waits_in (plain log.old) conn) }
    ensures others { (c : ℕ) → 1 ≤ c → c ≢ conn → waits_in (plain log.new) c ≡ waits_in (plain log.old) c }
    ensures spare { (spare_bytes log.new ≡ spare_bytes log.old) × (spare_parts log.new ≡ spare_parts log.old) }
    ensures opened { length seats.new.items ≡ length seats.old.items }
{
    let had = seat_of(seats.as_slice(), conn);
    let n = had.left.min(out.len() as u64) as usize;
    let first = take_from(log, conn, had.first, &mut out[..n]);
    let has = Seat {
        first,
        behind: had.behind,
        left: had.left - n as u64,
    };
    set_seat(seats, conn, has);
    n
}

/// Takes bytes that wait for a connection, as many as there is room for; so many are there. No part with a number below
/// `first` is of the connection; the answer is another such number, behind what was taken.
fn take_from(log: &mut Log, conn: u32, first: u64, out: &mut [u8]) -> u64
    requires sound { IsSound (plain log.old) }
    requires conn { 1 ≤ conn }
    requires first { first ≤ number_of (plain log.old) }
    requires passed { waits_before (plain log.old) conn (first - log.old.gone) ≡ [] }
    requires enough { length out.old ≤ length (waits_in (plain log.old) conn) }
    ensures taken { out.new ≡ take (length out.old) (waits_in (plain log.old) conn) }
    ensures rest { waits_in (plain log.new) conn ≡ drop (length out.old) (waits_in (plain log.old) conn) }
    ensures first { result ≤ number_of (plain log.new) }
    ensures passed { waits_before (plain log.new) conn (result - log.new.gone) ≡ [] }
    ensures keeps { Keeps conn (plain log.old) (plain log.new) }
    ensures tail { log.new.tail ≡ log.old.tail }
    ensures room { deque_capacity log.new.parts ≡ deque_capacity log.old.parts }
{
    let mut filled = 0;
    let mut i = first.saturating_sub(log.gone) as usize;
    while filled < out.len() {
        let (n, next) = take_at(log, conn, i, out, filled);
        filled += n;
        i = next;
    }
    log.gone + i as u64
}

/// Takes what the part in a place tells a connection, puts it behind what was put before, as far as there is room, and answers
/// how many bytes these were, and from which place on the connection's other bytes stand.
fn take_at(log: &mut Log, conn: u32, i: usize, out: &mut [u8], filled: usize) -> (usize, usize)
    requires sound { IsSound (plain log.old) }
    requires conn { 1 ≤ conn }
    requires place { i < length log.old.parts.items }
    requires filled { filled < length out.old }
    ensures bytes { out.new ≡ take filled out.old ++ take result.0 (waits_from (plain log.old) conn i) ++ drop (filled + result.0) out.old }
    ensures few { (filled + result.0 ≤ length out.old) × (result.0 ≤ length (waits_from (plain log.old) conn i)) }
    ensures rest { waits_from (plain log.new) conn result.1 ≡ drop result.0 (waits_from (plain log.old) conn i) }
    ensures passed { waits_before (plain log.old) conn i ≡ [] → waits_before (plain log.new) conn result.1 ≡ [] }
    ensures place { (i ≤ result.1) × (result.1 ≤ length log.new.parts.items) }
    ensures goes_on { i + 1 ≤ result.0 + result.1 }
    ensures keeps { Keeps conn (plain log.old) (plain log.new) }
    ensures tail { log.new.tail ≡ log.old.tail }
    ensures room { deque_capacity log.new.parts ≡ deque_capacity log.old.parts }
{
    let part = part_at(&log.parts, i);
    if part.conn != conn {
        return (0, i + 1);
    }
    let n = put_at(
        out,
        filled,
        part_bytes(log.tail.as_slice(), log.base, &part),
    );
    let next = pass(log, i, n);
    (n, next)
}

/// Says of the part in a place that so many of its bytes are taken, and answers from which place on the connection's other
/// bytes stand.
fn pass(log: &mut Log, i: usize, n: usize) -> usize
    requires sound { IsSound (plain log.old) }
    requires place { i < length log.old.parts.items }
    requires live { 1 ≤ (part_at log.old.parts.items i).conn }
    requires few { (part_at log.old.parts.items i).from + n ≤ (part_at log.old.parts.items i).to }
    ensures rest { waits_from (plain log.new) (part_at log.old.parts.items i).conn result
        ≡ drop n (waits_from (plain log.old) (part_at log.old.parts.items i).conn i) }
    ensures passed { waits_before (plain log.old) (part_at log.old.parts.items i).conn i ≡ []
        → waits_before (plain log.new) (part_at log.old.parts.items i).conn result ≡ [] }
    ensures place { (i ≤ result) × (result ≤ length log.new.parts.items) }
    ensures behind { (part_at log.old.parts.items i).from + n ≡ (part_at log.old.parts.items i).to → i < result }
    ensures keeps { Keeps (part_at log.old.parts.items i).conn (plain log.old) (plain log.new) }
    ensures tail { log.new.tail ≡ log.old.tail }
    ensures room { deque_capacity log.new.parts ≡ deque_capacity log.old.parts }
{
    let part = part_at(&log.parts, i);
    let from = part.from + n as u64;
    if from < part.to {
        set_part(&mut log.parts, i, Part { from, ..part });
        return i;
    }
    set_part(&mut log.parts, i, Part { conn: 0, ..part });
    (part.next.saturating_sub(log.gone) as usize).max(i + 1)
}

/// Puts bytes at a place, as many as there is room for, and answers how many.
fn put_at(out: &mut [u8], at: usize, bytes: &[u8]) -> usize
    requires { at ≤ length out.old }
    ensures count { result ≡ min (length bytes.now) (length out.old - at) }
    ensures bytes { out.new ≡ take at out.old ++ take result bytes.now ++ drop (at + result) out.old }
{
    let n = bytes.len().min(out.len() - at);
    out[at..at + n].copy_from_slice(&bytes[..n]);
    n
}
