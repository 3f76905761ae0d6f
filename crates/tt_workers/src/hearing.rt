//! Bytes that were read become events.
ghost use Rattle.std.specs.Prelude.{◌≡◌, ℕ, Bool, List, ◌++◌, length, false};
ghost use Rattle.tt_edge.specs.Event.{is_open, is_taken};
ghost use Rattle.tt_edge.specs.declared.event.Event.{Event};
ghost use Rattle.tt_room.specs.Passes.{IsOf, start_of, seen, own, mine};
ghost use Rattle.tt_workers.specs.Delivering.{GoesOn};
ghost use Rattle.tt_workers.specs.Hearing.{Hears, IsFate, AreBefore, events_of};

use crate::gate::Gate;
use std::alloc::Global;
use std::sync::Wait;
use tt_edge::{Body, CoreErr, Event, Servable};
use tt_frame::{Framer, Next};
use tt_room::{Pass, Room};

/// Whether a worker still listens to a connection.
#[derive(Clone, Copy, Debug, PartialEq, Eq)]
pub enum Ear {
    /// It does.
    Open,
    /// A bad size was handed over.
    Broke,
    /// The connection is not live any more.
    Ended,
    /// Memory ran out.
    Memory,
}

/// What became of an event.
#[derive(Clone, Copy, Debug, PartialEq, Eq)]
pub enum Fate {
    Taken,
    /// The connection is not live any more.
    Ended,
    /// Memory ran out.
    Memory,
}

/// Puts one event of a connection into the core, behind the gate.
pub fn put<R: Wait, C: Servable, G: Gate>(
    rt: &R,
    room: &Room<C>,
    pass: &mut Pass<C>,
    gate: &G,
    conn: u32,
    event: Event,
) -> Fate
    requires room { IsOf room.now pass.old }
    requires named { (live : ℕ → Bool) → is_taken live event ≡ live conn }
    requires later { is_open event ≡ false }
    ensures on { GoesOn room.now pass.old pass.new }
    ensures own { own pass.new ≡ own pass.old }
    ensures fate { IsFate (C.is_live (C.made (start_of room.now)) (seen pass.new) conn) pass.old pass.new event result }
{
    gate.before(rt, conn);
    match room.event(rt, pass, event) {
        Ok(_) => Fate::Taken,
        Err(CoreErr::Memory) => Fate::Memory,
        Err(CoreErr::Over) => Fate::Ended,
        Err(CoreErr::NoSuch) => Fate::Ended,
    }
}

/// Hands over all that a piece makes whole, one packet after another.
pub fn hand_over<R: Wait, C: Servable, G: Gate>(
    rt: &R,
    alloc: Global,
    room: &Room<C>,
    pass: &mut Pass<C>,
    gate: &G,
    framer: &mut Framer,
    conn: u32,
    piece: &[u8],
) -> Ear
    requires room { IsOf room.now pass.old }
    requires limit { framer.old.limit ≡ 32767 }
    requires whole { framer.old.broken ≡ false }
    ensures on { GoesOn room.now pass.old pass.new }
    ensures own { own pass.new ≡ own pass.old }
    ensures limit { framer.new.limit ≡ 32767 }
    ensures heard { (put : List (ℕ × Event)) × (mine pass.new ≡ mine pass.old ++ put) × AreBefore (length (seen pass.new)) put
        × Hears (C.is_live (C.made (start_of room.now)) (seen pass.new) conn) conn (framer.old.held ++ piece.now) (events_of put)
        framer.new result }
{
    let mut at = 0;
    'packet: for _ in rt.forever() {
        match framer.next() {
            Next::Packet { kind, body } => {
                let Ok(body) = Body::new(alloc, body) else {
                    return Ear::Memory;
                };
                match put(
                    rt,
                    room,
                    pass,
                    gate,
                    conn,
                    Event::Packet { conn, kind, body },
                ) {
                    Fate::Taken => {}
                    Fate::Ended => return Ear::Ended,
                    Fate::Memory => return Ear::Memory,
                }
            }
            Next::Partial => {
                if at == piece.len() {
                    return Ear::Open;
                }
                at += framer.feed(&piece[at..]);
            }
            Next::BadSize(_) => {
                return match put(rt, room, pass, gate, conn, Event::Broken { conn }) {
                    Fate::Taken => Ear::Broke,
                    Fate::Ended => Ear::Ended,
                    Fate::Memory => Ear::Memory,
                };
            }
        }
    }
    unreachable!()
}
