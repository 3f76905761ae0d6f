//! Bytes are told.
ghost use Rattle.std.specs.Prelude.{◌≡◌, ◌≢◌, ℕ, ◌≤◌, ◌<◌, ◌+◌, ◌-◌, ◌++◌, length, drop, All, slice_index_or};
ghost use Rattle.tt_outgoing.specs.Waiting.{told};
ghost use Rattle.std.specs.VecDeque.{deque_capacity};
ghost use Rattle.tt_outgoing.specs.Outgoing.{plain, IsHeld, IsSound, BeginBy, NoneOf, seat_of, part_at, end_of, number_of, waits_in};
ghost use Rattle.tt_outgoing.specs.Outgoing.{waits_before, spare_bytes, spare_parts};

use crate::outs::log::{Log, Part, part_at, put_part, set_part};
use crate::outs::seat::{Seat, seat_of, set_seat};

/// Tells the bytes of the tail from a place on to each of these connections.
pub(crate) fn tell_each(log: &mut Log, seats: &mut Vec<Seat>, conns: &[u32], start: u64)
    requires held { IsHeld (plain log.old) seats.old.items }
    requires opened { All (λ c. (1 ≤ c) × (c ≤ length seats.old.items)) conns.now }
    requires distinct { (i j : ℕ) → i < j → j < length conns.now → slice_index_or conns.now i 0 ≢ slice_index_or conns.now j 0 }
    requires start { (log.old.base ≤ start) × (start ≤ end_of (plain log.old)) }
    requires before { BeginBy start log.old.parts.items }
    requires fits { (c : ℕ) → 1 ≤ c → c ≤ length seats.old.items → (seat_of seats.old.items c).left ≤ start }
    requires parts { length conns.now ≤ spare_parts log.old }
    ensures held { IsHeld (plain log.new) seats.new.items }
    ensures told { (c : ℕ) → 1 ≤ c → waits_in (plain log.new) c
        ≡ waits_in (plain log.old) c ++ told conns.now c (drop (start - log.old.base) log.old.tail.items) }
    ensures bytes { spare_bytes log.new ≡ spare_bytes log.old }
    ensures parts { spare_parts log.old ≤ spare_parts log.new + length conns.now }
    ensures opened { length seats.new.items ≡ length seats.old.items }
{
    for conn in conns {
        tell(log, seats, *conn, start);
    }
}

/// Tells the bytes of the tail from a place on to one connection.
fn tell(log: &mut Log, seats: &mut Vec<Seat>, conn: u32, start: u64)
    requires held { IsHeld (plain log.old) seats.old.items }
    requires opened { (1 ≤ conn) × (conn ≤ length seats.old.items) }
    requires start { (log.old.base ≤ start) × (start ≤ end_of (plain log.old)) }
    requires before { BeginBy start log.old.parts.items }
    requires fits { (seat_of seats.old.items conn).left ≤ start }
    requires parts { 1 ≤ spare_parts log.old }
    ensures held { IsHeld (plain log.new) seats.new.items }
    ensures told { waits_in (plain log.new) conn ≡ waits_in (plain log.old) conn ++ drop (start - log.old.base) log.old.tail.items }
    ensures others { (c : ℕ) → c ≢ conn → waits_in (plain log.new) c ≡ waits_in (plain log.old) c }
    ensures before { BeginBy start log.new.parts.items }
    ensures tail { log.new.tail ≡ log.old.tail }
    ensures base { log.new.base ≡ log.old.base }
    ensures parts { spare_parts log.old ≤ spare_parts log.new + 1 }
    ensures opened { length seats.new.items ≡ length seats.old.items }
    ensures left { (c : ℕ) → 1 ≤ c → c ≢ conn → seat_of seats.new.items c ≡ seat_of seats.old.items c }
{
    let had = seat_of(seats.as_slice(), conn);
    let end = log.base + log.tail.as_slice().len() as u64;
    let number = log.gone + log.parts.len() as u64;
    link_last(log, conn, had.behind, number);
    put_part(
        &mut log.parts,
        Part {
            conn,
            start,
            from: start,
            to: end,
            next: number + 1,
        },
    );
    let first = if had.left == 0 { number } else { had.first };
    let has = Seat {
        first,
        behind: number + 1,
        left: had.left + (end - start),
    };
    set_seat(seats, conn, has);
}

/// Says of the last part of a connection, which has the number before `behind`, that the next one has this number. Where it
/// is dropped already, there is nothing to say.
fn link_last(log: &mut Log, conn: u32, behind: u64, number: u64)
    requires sound { IsSound (plain log.old) }
    requires conn { 1 ≤ conn }
    requires behind { NoneOf conn log.old.parts.items (behind - log.old.gone) (length log.old.parts.items) }
    requires number { number ≡ number_of (plain log.old) }
    ensures sound { IsSound (plain log.new) }
    ensures waits { (c : ℕ) → waits_in (plain log.new) c ≡ waits_in (plain log.old) c }
    ensures waits_before { (c i : ℕ) → waits_before (plain log.new) c i ≡ waits_before (plain log.old) c i }
    ensures tail { log.new.tail ≡ log.old.tail }
    ensures base { log.new.base ≡ log.old.base }
    ensures gone { log.new.gone ≡ log.old.gone }
    ensures before { (place : ℕ) → BeginBy place log.old.parts.items → BeginBy place log.new.parts.items }
    ensures length { length log.new.parts.items ≡ length log.old.parts.items }
    ensures conns { (k : ℕ) → (part_at log.new.parts.items k).conn ≡ (part_at log.old.parts.items k).conn }
    ensures room { deque_capacity log.new.parts ≡ deque_capacity log.old.parts }
{
    let i = behind.saturating_sub(log.gone) as usize;
    if i == 0 || i > log.parts.len() {
        return;
    }
    let part = part_at(&log.parts, i - 1);
    if part.conn != conn {
        return;
    }
    set_part(
        &mut log.parts,
        i - 1,
        Part {
            next: number,
            ..part
        },
    );
}
