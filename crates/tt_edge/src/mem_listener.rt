//! A listener in memory, for tests: links that were made before, in order, and calls that fail or answer Nothing.
ghost use Rattle.std.specs.Prelude.{◌≡◌, ◌<◌, ◌≤◌, ◌+◌, ◌⊎◌, ◌↔◌, Some, [], ◌∷◌, length, vec_len, vec_capacity, All, IfOk, IfSome};
ghost use Rattle.tt_edge.specs.Agenda.{no_calls, one_more, FailsNext, IdlesNext};
ghost use Rattle.tt_edge.specs.MemLink.{IsFreshLink};

use crate::agenda::{Agenda, Turn};
use crate::event::Peer;
use crate::listener::{Accepted, Listener, Served};
use crate::mem_link::MemLink;
use std::alloc::Global;
use tt_frame::OutOfMemory;

/// A listener over links in memory. It has room from the start for all of them to come back.
#[derive(Drop)]
pub struct MemListener {
    coming: Vec<(MemLink, Peer)>,
    gone: Vec<(Served, MemLink)>,
    known: Vec<Peer>,
    out: usize,
    accepts: Agenda,
    faults: u64,
    idle: u64,
    ghost fresh: { All (λ pair. IsFreshLink pair.0) coming.items },
    ghost has_room: { vec_len coming + out + vec_len gone ≤ vec_capacity gone },
    ghost knows_room: { vec_len coming + vec_len known ≤ vec_capacity known },
}

impl MemListener {
    ghost use Rattle.tt_edge.specs.MemListener.{coming_of, served_of, peers_of, out_of, accepts_of};

    /// It gives these links in order. The calls with the numbers of `failing`, counted from 0, fail, and of the others those
    /// of `idle` answer Nothing, as all do once no link is left. It takes its memory now.
    pub fn new(
        alloc: Global,
        coming: Vec<(MemLink, Peer)>,
        failing: Vec<u64>,
        idle: Vec<u64>,
    ) -> Result<MemListener, OutOfMemory>
        requires { All (λ pair. IsFreshLink pair.0) coming.items }
        ensures coming { IfOk result (λ listener. coming_of listener ≡ coming.items) }
        ensures served { IfOk result (λ listener. served_of listener ≡ []) }
        ensures peers { IfOk result (λ listener. peers_of listener ≡ []) }
        ensures out { IfOk result (λ listener. out_of listener ≡ 0) }
        ensures accepts { IfOk result (λ listener. accepts_of listener ≡ no_calls failing.items idle.items) }
    {
        let gone = Vec::with_capacity(alloc, coming.len())?;
        let known = Vec::with_capacity(alloc, coming.len())?;
        Ok(MemListener {
            coming,
            gone,
            known,
            out: 0,
            accepts: Agenda::new(failing, idle),
            faults: 0,
            idle: 0,
        })
    }

    /// The links that came back, each with its end.
    pub fn served(&self) -> &[(Served, MemLink)]
        ensures { result.now ≡ served_of self.now }
    {
        &self.gone
    }
}

impl Listener for MemListener {
    ghost use Rattle.tt_edge.specs.Told.{Adds, Stays};
    ghost use Rattle.tt_edge.specs.Link.{no_counts};
    ghost use Rattle.tt_edge.specs.Listener.{door_counts, AcceptCounts, AcceptPeers, AcceptOut, RetireOut, IfLink};
    ghost use Rattle.tt_edge.specs.MemLink.{counts_of, read_of, held_of};
    ghost use Rattle.tt_edge.specs.MemListener.{coming_of, served_of, peers_of, out_of, accepts_of, GivesFirst, IsNothing, IsFailed};

    type Link = MemLink;

    ghost counts = { λ l. record { faults = l.faults; idle = l.idle } };

    ghost served = { λ l. Some (served_of l) };

    ghost peers = { λ l. Some (peers_of l) };

    ghost out = { λ l. Some (out_of l) };

    /// Beside what every listener keeps: it fails exactly where its plan says so, answers Nothing exactly where its plan
    /// says so or no link is left, and else gives the first.
    fn accept(&mut self) -> Accepted<MemLink>
        ensures counts { AcceptCounts (door_counts self.old.faults self.old.idle) (door_counts self.new.faults self.new.idle) result }
        ensures fresh { IfLink (λ link. counts_of link ≡ no_counts) result }
        ensures unread { IfLink (λ link. read_of link ≡ []) result }
        ensures unwritten { IfLink (λ link. held_of link ≡ []) result }
        ensures peers { AcceptPeers (Some (peers_of self.old)) (Some (peers_of self.new)) result }
        ensures out { AcceptOut (Some (out_of self.old)) (Some (out_of self.new)) result }
        ensures served { Stays (Some (served_of self.old)) (Some (served_of self.new)) }
        ensures failed { IsFailed result ↔ FailsNext (accepts_of self.old) }
        ensures nothing { IsNothing result ↔ (IdlesNext (accepts_of self.old)
            ⊎ ((coming_of self.old ≡ []) × (FailsNext (accepts_of self.old) → ⊥))) }
        ensures first { GivesFirst (coming_of self.old) (coming_of self.new) result }
        ensures accepts { accepts_of self.new ≡ one_more (accepts_of self.old) }
    {
        match self.accepts.next() {
            Turn::Work => {}
            Turn::Idle => {
                self.idle = self.idle.saturating_add(1);
                return Accepted::Nothing;
            }
            Turn::Fail => {
                self.faults = self.faults.saturating_add(1);
                return Accepted::Failed;
            }
        }
        if self.coming.is_empty() {
            self.idle = self.idle.saturating_add(1);
            return Accepted::Nothing;
        }
        let (link, peer) = self.coming.remove(0);
        self.known.push_reserved(peer);
        self.out += 1;
        Accepted::Link(link, peer)
    }

    fn retire(&mut self, served_as: Served, link: MemLink)
        requires { 0 < out_of self.old }
        ensures served { Adds (Some (served_of self.old)) (Some (served_of self.new)) ((served_as, link) ∷ []) }
        ensures counts { door_counts self.new.faults self.new.idle ≡ door_counts self.old.faults self.old.idle }
        ensures peers { Stays (Some (peers_of self.old)) (Some (peers_of self.new)) }
        ensures out { RetireOut (Some (out_of self.old)) (Some (out_of self.new)) }
        ensures coming { coming_of self.new ≡ coming_of self.old }
        ensures accepts { accepts_of self.new ≡ accepts_of self.old }
    {
        self.gone.push_reserved((served_as, link));
        self.out -= 1;
    }
}
