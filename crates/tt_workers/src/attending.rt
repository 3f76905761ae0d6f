//! A connection worker.
ghost use Rattle.std.specs.Prelude.{◌≡◌, ◌<◌, ◌||◌, Bool, IfSome};
ghost use Rattle.tt_frame.specs.Runs.{empty_of};
ghost use Rattle.tt_room.specs.Passes.{IsOf, start_of, seen, mine};
ghost use Rattle.tt_workers.specs.Telling.{link_now};
ghost use Rattle.tt_workers.specs.Delivering.{GoesOn};
ghost use Rattle.tt_workers.specs.Attending.{is_memory, Asks, Attended};

use crate::gate::Gate;
use crate::one_link::serve_link;
use crate::rest::Rest;
use std::alloc::Global;
use std::sync::Wait;
use std::time::Clock;
use tt_edge::{Accepted, Door, LinkEnd, Listener, Servable};
use tt_frame::Framer;
use tt_room::{Pass, Room};

/// How a worker ended.
#[derive(Clone, Copy, Debug, PartialEq, Eq)]
pub enum WorkerEnd {
    /// It has not run yet.
    Fresh,
    /// All is over.
    Over,
    /// Its listener failed.
    ListenFault,
    /// Its ticker failed.
    TickFault,
    /// Its ticker told Stop.
    Stopped,
    /// Memory ran out, for it or for a link that it served.
    Memory,
}

/// Whether memory ran out.
fn is_memory(end: LinkEnd) -> bool
    ensures { result ≡ is_memory end }
{
    match end {
        LinkEnd::Memory => true,
        LinkEnd::Done | LinkEnd::PeerEnd | LinkEnd::LinkFault | LinkEnd::Over | LinkEnd::Slow =>
            false,
    }
}

/// An end, where memory didn't run out before.
fn unless_short(short: bool, end: WorkerEnd) -> WorkerEnd
    ensures short { short ≡ Bool.true → result ≡ WorkerEnd.Memory }
    ensures other { short ≡ Bool.false → result ≡ end }
{
    if short { WorkerEnd::Memory } else { end }
}

/// Whether one of the two is true.
fn either(a: bool, b: bool) -> bool
    ensures { result ≡ a || b }
{
    a || b
}

/// What asking a listener came to.
#[derive(Clone, Copy, Debug, PartialEq, Eq)]
pub enum Asked {
    /// A link came, and was served and given back.
    Served,
    Nothing,
    Failed,
}

/// Asks the listener once, and serves the link that it gives. `short` says afterwards whether memory ran out for it or
/// for one before.
fn ask<R: Wait + Clock, C: Servable, D: Listener, G: Gate>(
    rt: &R,
    alloc: Global,
    room: &Room<C>,
    pass: &mut Pass<C>,
    gate: &G,
    rest: &Rest,
    framer: &mut Framer,
    door: Door,
    listener: &mut D,
    short: &mut bool,
) -> Asked
    requires room { IsOf room.now pass.old }
    requires framer { framer.old ≡ empty_of 32767 }
    ensures on { GoesOn room.now pass.old pass.new }
    ensures framer { framer.new ≡ empty_of 32767 }
    ensures asks { Asks (link_now D.Link.counts D.Link.left D.Link.was_read D.Link.held) (C.sent (C.made (start_of room.now)))
        (C.is_live (C.made (start_of room.now))) (C.is_over (C.made (start_of room.now))) door
        pass.old pass.new (D.counts listener.old) (D.counts listener.new) (D.served listener.old) (D.served listener.new)
        (D.peers listener.old) (D.peers listener.new) short.old short.new result }
{
    match listener.accept() {
        Accepted::Link(link, peer) => {
            rest.wake_one();
            let mut held = link;
            let served = serve_link(rt, alloc, room, pass, gate, framer, door, peer, &mut held);
            *short = either(*short, is_memory(served.end));
            listener.retire(served, held);
            framer.clear();
            Asked::Served
        }
        Accepted::Nothing => {
            rest.rest(rt);
            Asked::Nothing
        }
        Accepted::Failed => Asked::Failed,
    }
}

/// Accepts links, serves each and gives it back, until all is over or the listener fails.
pub fn attend<R: Wait + Clock, C: Servable, D: Listener, G: Gate>(
    rt: &R,
    alloc: Global,
    room: &Room<C>,
    pass: &mut Pass<C>,
    gate: &G,
    rest: &Rest,
    framer: &mut Framer,
    door: Door,
    listener: &mut D,
) -> WorkerEnd
    requires room { IsOf room.now pass.old }
    requires framer { framer.old ≡ empty_of 32767 }
    ensures on { GoesOn room.now pass.old pass.new }
    ensures framer { framer.new ≡ empty_of 32767 }
    ensures attended { Attended (link_now D.Link.counts D.Link.left D.Link.was_read D.Link.held) (C.sent (C.made (start_of room.now)))
        (C.is_live (C.made (start_of room.now))) (C.is_over (C.made (start_of room.now))) door
        pass.old pass.new (D.counts listener.old) (D.counts listener.new) (D.served listener.old) (D.served listener.new)
        (D.peers listener.old) (D.peers listener.new) result }
{
    let mut short = false;
    'link: for _ in rt.forever() {
        if let Asked::Failed = ask(
            rt, alloc, room, pass, gate, rest, framer, door, listener, &mut short,
        ) {
            return unless_short(short, WorkerEnd::ListenFault);
        }
        if room.over(rt, pass) {
            return unless_short(short, WorkerEnd::Over);
        }
    }
    unreachable!()
}
