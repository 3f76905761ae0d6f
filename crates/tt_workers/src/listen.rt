//! One read of a link.
ghost use Rattle.std.specs.Prelude.{◌≡◌, false};
ghost use Rattle.tt_room.specs.Passes.{IsOf, start_of, seen, own, mine};
ghost use Rattle.tt_workers.specs.Telling.{link_now};
ghost use Rattle.tt_workers.specs.Delivering.{GoesOn};
ghost use Rattle.tt_workers.specs.Listening.{Listens};

use crate::gate::Gate;
use crate::hearing::{Ear, hand_over};
use crate::outgoing::PIECE;
use std::alloc::Global;
use std::sync::Wait;
use tt_edge::{Link, LinkGot, Servable};
use tt_frame::Framer;
use tt_room::{Pass, Room};

/// What a read of a link came to.
#[derive(Clone, Copy, Debug, PartialEq, Eq)]
pub enum Listened {
    Going,
    End,
    Failed,
}

/// Reads what has come, and hands over what is whole, as long as the worker listens.
pub fn listen<R: Wait, C: Servable, L: Link, G: Gate>(
    rt: &R,
    alloc: Global,
    room: &Room<C>,
    pass: &mut Pass<C>,
    gate: &G,
    framer: &mut Framer,
    conn: u32,
    link: &mut L,
    ear: &mut Ear,
    read: &mut u64,
) -> Listened
    requires room { IsOf room.now pass.old }
    requires limit { framer.old.limit ≡ 32767 }
    requires whole { ear.old ≡ Ear.Open → framer.old.broken ≡ false }
    ensures on { GoesOn room.now pass.old pass.new }
    ensures own { own pass.new ≡ own pass.old }
    ensures limit { framer.new.limit ≡ 32767 }
    ensures listens { Listens (C.is_live (C.made (start_of room.now)) (seen pass.old) conn) (C.is_live (C.made (start_of room.now))
        (seen pass.new) conn) conn
        pass.old pass.new framer.old framer.new ear.old ear.new read.old read.new
        (link_now L.counts L.left L.was_read L.held link.old) (link_now L.counts L.left L.was_read L.held link.new) result }
{
    let mut piece = [0; PIECE];
    match link.read(&mut piece) {
        LinkGot::Bytes(n) => {
            *read = read.saturating_add(n as u64);
            match *ear {
                Ear::Open => {
                    *ear = hand_over(rt, alloc, room, pass, gate, framer, conn, &piece[..n]);
                    Listened::Going
                }
                _ => Listened::Going,
            }
        }
        LinkGot::Nothing => Listened::Going,
        LinkGot::End => Listened::End,
        LinkGot::Failed => Listened::Failed,
    }
}
