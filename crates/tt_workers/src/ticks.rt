//! What the clock tells becomes events.
ghost use Rattle.std.specs.Prelude.{◌≡◌};
ghost use Rattle.tt_room.specs.Passes.{IsOf, start_of, seen, own};
ghost use Rattle.tt_workers.specs.Delivering.{GoesOn};
ghost use Rattle.tt_workers.specs.Ticking.{Stops, Ticks};

use std::sync::Wait;
use tt_edge::{Beat, CoreErr, Event, Servable, Ticker};
use tt_room::{Pass, Room};

/// How a tick loop ended.
#[derive(Clone, Copy, Debug, PartialEq, Eq)]
pub enum TickEnd {
    /// All is over.
    Over,
    /// The ticker told Stop.
    Stopped,
    /// The ticker failed.
    Fault,
    /// Memory ran out.
    Memory,
}

/// Hands over a Stop, unless all is over.
fn stop<R: Wait, C: Servable>(rt: &R, room: &Room<C>, pass: &mut Pass<C>, end: TickEnd) -> TickEnd
    requires { IsOf room.now pass.old }
    ensures on { GoesOn room.now pass.old pass.new }
    ensures own { own pass.new ≡ own pass.old }
    ensures stops { Stops (C.is_over (C.made (start_of room.now)) (seen pass.new)) pass.old pass.new end result }
{
    match room.event(rt, pass, Event::Stop) {
        Ok(_) => end,
        Err(CoreErr::Over) => end,
        Err(CoreErr::NoSuch) => unreachable!(),
        Err(CoreErr::Memory) => TickEnd::Memory,
    }
}

/// Hands over a Tick for each that the ticker tells, until all is over or the ticker tells another thing.
pub fn tick_loop<R: Wait, C: Servable, T: Ticker>(
    rt: &R,
    room: &Room<C>,
    pass: &mut Pass<C>,
    ticker: &mut T,
) -> TickEnd
    requires { IsOf room.now pass.old }
    ensures on { GoesOn room.now pass.old pass.new }
    ensures own { own pass.new ≡ own pass.old }
    ensures ticks { Ticks (C.is_over (C.made (start_of room.now)) (seen pass.new)) pass.old pass.new (T.counts ticker.old)
        (T.counts ticker.new) (T.beats ticker.old) (T.beats ticker.new) result }
{
    'beat: for _ in rt.forever() {
        match ticker.wait() {
            Beat::Tick => match room.event(rt, pass, Event::Tick) {
                Ok(_) => {}
                Err(CoreErr::Over) => return TickEnd::Over,
                Err(CoreErr::NoSuch) => unreachable!(),
                Err(CoreErr::Memory) => return stop(rt, room, pass, TickEnd::Memory),
            },
            Beat::Stop => return stop(rt, room, pass, TickEnd::Stopped),
            Beat::Failed => return stop(rt, room, pass, TickEnd::Fault),
        }
    }
    unreachable!()
}
