//! One connection, round by round.
ghost use Rattle.std.specs.Prelude.{◌≡◌, ◌≤◌, [], false};
ghost use Rattle.tt_frame.specs.Runs.{empty_of};
ghost use Rattle.tt_edge.specs.Event.{opens};
ghost use Rattle.tt_room.specs.Passes.{IsOf, start_of, seen, own, mine, HasOpened, amount};
ghost use Rattle.tt_workers.specs.Outgoing.{nothing_waits};
ghost use Rattle.tt_workers.specs.Telling.{link_now};
ghost use Rattle.tt_workers.specs.Delivering.{GoesOn};
ghost use Rattle.tt_workers.specs.Talking.{IsEnding, Conversed};

use crate::deliver::{Delivered, deliver};
use crate::gate::Gate;
use crate::hearing::Ear;
use crate::listen::{Listened, listen};
use crate::outgoing::Outgoing;
use std::alloc::Global;
use std::sync::Wait;
use tt_edge::{Link, LinkEnd, Servable};
use tt_frame::Framer;
use tt_room::{Pass, Room};

/// How many writes in a row may answer Nothing.
const PATIENCE: u64 = 2400;

/// Which end a round comes to, if any.
fn ending(listened: Listened, delivered: Delivered, stalls: u64) -> Option<LinkEnd>
    ensures { IsEnding listened delivered stalls result }
{
    match delivered {
        Delivered::Done => Some(LinkEnd::Done),
        Delivered::Failed => Some(LinkEnd::LinkFault),
        Delivered::All => match listened {
            Listened::Going => None,
            Listened::End => Some(LinkEnd::PeerEnd),
            Listened::Failed => Some(LinkEnd::LinkFault),
        },
        Delivered::Held => match listened {
            Listened::Going if stalls >= PATIENCE => Some(LinkEnd::Slow),
            Listened::Going => None,
            Listened::End => Some(LinkEnd::PeerEnd),
            Listened::Failed => Some(LinkEnd::LinkFault),
        },
    }
}

/// Reads and hands over, takes and writes, until the connection comes to an end.
pub fn converse<R: Wait, C: Servable, L: Link, G: Gate>(
    rt: &R,
    alloc: Global,
    room: &Room<C>,
    pass: &mut Pass<C>,
    gate: &G,
    framer: &mut Framer,
    conn: u32,
    link: &mut L,
    out: &mut Outgoing,
    read: &mut u64,
    ear: &mut Ear,
) -> LinkEnd
    requires room { IsOf room.now pass.old }
    requires opened { HasOpened pass.old conn }
    requires known { conn ≤ opens (seen pass.old) }
    requires none { amount conn (own pass.old) ≡ 0 }
    requires framer { framer.old ≡ empty_of 32767 }
    requires out { out.old ≡ nothing_waits }
    requires read { read.old ≡ 0 }
    requires ear { ear.old ≡ Ear.Open }
    ensures on { GoesOn room.now pass.old pass.new }
    ensures limit { framer.new.limit ≡ 32767 }
    ensures conversed { Conversed (λ events. C.sent (C.made (start_of room.now)) events conn)
        (λ events. C.is_live (C.made (start_of room.now)) events conn) conn
        pass.old pass.new (link_now L.counts L.left L.was_read L.held link.old) (link_now L.counts L.left L.was_read L.held link.new)
        framer.new ear.new read.new out.new result }
{
    'round: for _ in rt.forever() {
        let listened = listen(rt, alloc, room, pass, gate, framer, conn, link, ear, read);
        if let Ear::Memory = *ear {
            return LinkEnd::Memory;
        }
        let delivered = deliver(rt, room, pass, conn, link, out);
        if let Some(end) = ending(listened, delivered, out.stalls()) {
            return end;
        }
    }
    unreachable!()
}
