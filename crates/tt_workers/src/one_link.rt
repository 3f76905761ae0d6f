//! One link, served from its opening to its end.
ghost use Rattle.std.specs.Prelude.{◌≡◌, ℕ, List, ◌++◌, length};
ghost use Rattle.tt_frame.specs.Runs.{empty_of};
ghost use Rattle.tt_edge.specs.declared.event.Event.{Event};
ghost use Rattle.tt_room.specs.Passes.{IsOf, start_of, seen, own, mine};
ghost use Rattle.tt_workers.specs.Telling.{link_now};
ghost use Rattle.tt_workers.specs.Delivering.{GoesOn};
ghost use Rattle.tt_workers.specs.Serving.{IsClosed, Serves};

use crate::converse::converse;
use crate::gate::Gate;
use crate::hearing::{Ear, Fate, put};
use crate::outgoing::Outgoing;
use std::alloc::Global;
use std::sync::Wait;
use tt_edge::{CoreErr, Door, Event, Link, LinkEnd, Peer, Servable, Served};
use tt_frame::Framer;
use tt_room::{Pass, Room};

/// Hands over a Shut, unless the core has ended the connection.
fn close<R: Wait, C: Servable, G: Gate>(
    rt: &R,
    room: &Room<C>,
    pass: &mut Pass<C>,
    gate: &G,
    conn: u32,
    ear: Ear,
    end: LinkEnd,
) -> LinkEnd
    requires { IsOf room.now pass.old }
    ensures on { GoesOn room.now pass.old pass.new }
    ensures own { own pass.new ≡ own pass.old }
    ensures closed { (shut : List (ℕ × Event)) × (mine pass.new ≡ mine pass.old ++ shut)
        × IsClosed conn (C.is_live (C.made (start_of room.now)) (seen pass.new) conn) (length (seen pass.new)) ear end result shut }
{
    if let LinkEnd::Done = end {
        return LinkEnd::Done;
    }
    if let Ear::Ended = ear {
        return end;
    }
    match put(rt, room, pass, gate, conn, Event::Shut { conn }) {
        Fate::Taken => end,
        Fate::Ended => end,
        Fate::Memory => LinkEnd::Memory,
    }
}

/// Serves a link: opens its connection, hands over what comes, and writes what the connection is told, until the core or
/// the link ends it.
pub fn serve_link<R: Wait, C: Servable, L: Link, G: Gate>(
    rt: &R,
    alloc: Global,
    room: &Room<C>,
    pass: &mut Pass<C>,
    gate: &G,
    framer: &mut Framer,
    door: Door,
    peer: Peer,
    link: &mut L,
) -> Served
    requires room { IsOf room.now pass.old }
    requires framer { framer.old ≡ empty_of 32767 }
    ensures on { GoesOn room.now pass.old pass.new }
    ensures limit { framer.new.limit ≡ 32767 }
    ensures serves { Serves (C.sent (C.made (start_of room.now))) (C.is_live (C.made (start_of room.now)))
        (C.is_over (C.made (start_of room.now)))
        door peer pass.old pass.new (link_now L.counts L.left L.was_read L.held link.old) (link_now L.counts L.left L.was_read L.held
        link.new) result }
{
    let conn = match room.event(rt, pass, Event::Open { door, peer }) {
        Ok(conn) => conn,
        Err(refusal) => {
            let end = match refusal {
                CoreErr::Memory => LinkEnd::Memory,
                CoreErr::Over => LinkEnd::Over,
                CoreErr::NoSuch => unreachable!(),
            };
            return Served {
                conn: 0,
                read: 0,
                written: 0,
                end,
            };
        }
    };
    let mut ear = Ear::Open;
    let mut out = Outgoing::new();
    let mut read = 0;
    let ended = converse(
        rt, alloc, room, pass, gate, framer, conn, link, &mut out, &mut read, &mut ear,
    );
    let end = close(rt, room, pass, gate, conn, ear, ended);
    Served {
        conn,
        read,
        written: out.written(),
        end,
    }
}
