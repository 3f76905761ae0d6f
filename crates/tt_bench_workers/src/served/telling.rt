//! A clock that tells each link a byte at each beat, as a tick of a game would.
ghost use Rattle.tt_room.specs.Passes.{IsOf};

use crate::board::{Board, now};
use std::alloc::Global;
use std::sync::Wait;
use std::time::Clock;
use tt_edge::echo::EchoCore;
use tt_edge::{Beat, Body, ClockTicker, Event, Ticker};
use tt_room::{Pass, Room};

/// What the packets of a beat are called. The echo core doesn't look at it.
const KIND: u8 = 4;

/// A clock with a pass of its own.
#[derive(Drop)]
pub struct Telling<'a, R> {
    rt: &'a R,
    alloc: Global,
    room: &'a Room<EchoCore>,
    pass: Pass<EchoCore>,
    clock: ClockTicker<&'a R>,
    board: &'a Board,
    stops: u64,
    ghost of: { IsOf room.now pass },
}

impl<'a, R: Wait + Clock> Telling<'a, R> {
    /// Nothing was told yet.
    pub fn new(
        rt: &'a R,
        alloc: Global,
        room: &'a Room<EchoCore>,
        pass: Pass<EchoCore>,
        board: &'a Board,
    ) -> Telling<'a, R>
        requires { IsOf room.now pass }
    {
        Telling {
            rt,
            alloc,
            room,
            pass,
            clock: ClockTicker::new(rt),
            board,
            stops: 0,
        }
    }
}

/// Puts one packet of each link into the core, as if it had come from there.
fn tell<R: Wait + Clock>(
    rt: &R,
    alloc: Global,
    room: &Room<EchoCore>,
    pass: &mut Pass<EchoCore>,
    board: &Board,
)
    requires { IsOf room.now pass.old }
    ensures { IsOf room.now pass.new }
{
    let beat = board.begin(now(rt));
    for conn in 1..board.links().saturating_add(1) {
        put(rt, alloc, room, pass, conn, beat);
    }
}

/// Puts a packet of one byte into the core.
fn put<R: Wait>(
    rt: &R,
    alloc: Global,
    room: &Room<EchoCore>,
    pass: &mut Pass<EchoCore>,
    conn: u32,
    beat: u8,
)
    requires { IsOf room.now pass.old }
    ensures { IsOf room.now pass.new }
{
    if let Ok(body) = Body::new(alloc, &[beat]) {
        let kind = KIND;
        let _ = room.event(rt, pass, Event::Packet { conn, kind, body });
    }
}

impl<'a, R: Wait + Clock> Ticker for Telling<'a, R> {
    ghost use Rattle.std.specs.Prelude.{None};
    ghost use Rattle.tt_edge.specs.Clock.{clock_counts_of};

    ghost counts = { λ t. record { faults = (clock_counts_of t.clock).faults; stops = t.stops } };

    ghost beats = { λ _. None };

    fn wait(&mut self) -> Beat {
        if self.board.is_done() {
            self.stops = self.stops.saturating_add(1);
            return Beat::Stop;
        }
        match self.clock.wait() {
            Beat::Tick => {
                tell(self.rt, self.alloc, self.room, &mut self.pass, self.board);
                Beat::Tick
            }
            Beat::Stop => {
                self.stops = self.stops.saturating_add(1);
                Beat::Stop
            }
            Beat::Failed => Beat::Failed,
        }
    }
}
