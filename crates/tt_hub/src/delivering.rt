//! What an event tells is made and given room before anything changes, and then delivered without memory.
ghost use Rattle.std.specs.Prelude.{◌≡◌, ◌≤◌, ◌<◌, ◌+◌, ◌^◌, ◌++◌, ℕ, true, length, IfOk, OnOk};
ghost use Rattle.tt_log.specs.Events.{by_event, takes};
ghost use Rattle.tt_log.specs.Tellings.{tellings};
ghost use Rattle.tt_outgoing.specs.Staging.{MayAllBeTold, bytes_for, bytes_in, packets_of, parts_in};
ghost use Rattle.tt_outgoing.specs.Waiting.{list_of, opened};
ghost use Rattle.tt_table.specs.Does.{HasRoom, IsChange};
ghost use Rattle.tt_table.specs.Held.{table};
ghost use Rattle.tt_hub.specs.Running.{HasSeats, farewells};

use tt_edge::Event;
use tt_frame::OutOfMemory;
use tt_outgoing::{Outs, Staged};
use tt_table::{Change, Ends, Game};

/// That the game is over, as members are told it: SHUTDOWN of the game's family.
const SHUTDOWN: [u8; 3] = [3, 0, 0x25];

/// As admins are told it: SHUTDOWN of the admin family.
const ADMIN_SHUTDOWN: [u8; 3] = [3, 0, 106];

/// How many bytes both packets have.
const SHUTDOWN_BYTES: usize = 6;

/// What an event that can be taken is to do, and the packets of what it tells. The game is left as it is.
pub(crate) fn planned(
    game: &mut Game,
    staged: &mut Staged,
    event: &Event,
) -> Result<Change, OutOfMemory>
    requires taken { takes (table game.old) event.now ≡ true }
    ensures origin { game.new.origin ≡ game.old.origin }
    ensures events { game.new.events ≡ game.old.events }
    ensures change { IfOk result (λ c. IsChange game.old.origin event.now (table game.old) c) }
    ensures room { IfOk result (λ c. HasRoom game.new c) }
    ensures staged { OnOk result (staged.new
        ≡ packets_of (tellings game.old.origin (table game.old) (by_event game.old.origin event.now (table game.old)))) }
{
    staged.clear();
    let change = game.plan(event)?;
    game.stage(event, &change, staged)?;
    Ok(change)
}

/// A seat for a connection that is opened next, where there is none yet. At an error the seats are as they were.
fn next_seat(outs: &mut Outs, counts: &mut Vec<u64>, conn: u32) -> Result<(), OutOfMemory>
    requires counts { length counts.old.items ≡ opened outs.old }
    requires next { conn ≤ opened outs.old + 1 }
    ensures seat { OnOk result (conn ≤ opened outs.new) }
    ensures seats { HasSeats outs.old outs.new counts.old.items counts.new.items }
{
    if counts.len() >= conn as usize {
        return Ok(());
    }
    counts.reserve(1)?;
    outs.add()?;
    let _ = counts.push(0);
    Ok(())
}

/// How many bytes and parts are delivered at most: those that are staged, and that the game is over, told to at most so many
/// members and admins each.
fn wanted(staged: &Staged, conns: usize) -> Result<(usize, usize), OutOfMemory>
    ensures bytes { IfOk result (λ both. both.0 ≡ bytes_in staged.now + 6) }
    ensures parts { IfOk result (λ both. both.1 ≡ parts_in staged.now + (conns + conns)) }
{
    let (bytes, parts) = staged.wanted();
    let bytes = bytes.checked_add(SHUTDOWN_BYTES).ok_or(OutOfMemory)?;
    let both = conns.checked_add(conns).ok_or(OutOfMemory)?;
    let parts = parts.checked_add(both).ok_or(OutOfMemory)?;
    Ok((bytes, parts))
}

/// Room for what is delivered, and a seat for the connection that an event is about. Answers how many bytes a connection was told
/// at most then. At an error what waits is as it was.
pub(crate) fn make_room(
    outs: &mut Outs,
    counts: &mut Vec<u64>,
    ends: &mut Ends,
    staged: &Staged,
    about: u32,
    conns: usize,
    most: u64,
) -> Result<u64, OutOfMemory>
    requires counts { length counts.old.items ≡ opened outs.old }
    requires next { about ≤ opened outs.old + 1 }
    ensures seats { HasSeats outs.old outs.new counts.old.items counts.new.items }
    ensures seat { OnOk result (about ≤ opened outs.new) }
    ensures bytes { OnOk result (bytes_in staged.now + 6 ≤ outs.new.bytes) }
    ensures parts { OnOk result (parts_in staged.now + (conns + conns) ≤ outs.new.parts) }
    ensures ends { OnOk result (conns ≤ ends.new.room) }
    ensures most { IfOk result (λ more. more ≡ most + (bytes_in staged.now + 6)) }
    ensures fits { IfOk result (λ more. more < 2 ^ 64) }
{
    let (bytes, parts) = wanted(staged, conns)?;
    let most = most.checked_add(bytes as u64).ok_or(OutOfMemory)?;
    next_seat(outs, counts, about)?;
    ends.reserve(conns)?;
    outs.reserve(bytes, parts)?;
    Ok(most)
}

/// Delivers what was staged, and then that the game is over to those that are told so. It takes no memory.
pub(crate) fn deliver(outs: &mut Outs, staged: &Staged, ends: &Ends)
    requires each { MayAllBeTold (opened outs.old) (staged.now ++ farewells ends.now) }
    requires bytes { bytes_in staged.now + 6 ≤ outs.old.bytes }
    requires parts { parts_in staged.now + (length ends.now.members + length ends.now.admins) ≤ outs.old.parts }
    ensures told { (c : ℕ) → 1 ≤ c → c ≤ opened outs.old → list_of outs.new c
        ≡ list_of outs.old c ++ bytes_for c (staged.now ++ farewells ends.now) }
    ensures opened { opened outs.new ≡ opened outs.old }
{
    staged.deliver(outs);
    outs.share(ends.members(), &SHUTDOWN);
    outs.share(ends.admins(), &ADMIN_SHUTDOWN);
}
