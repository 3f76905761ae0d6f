//! A core served over all handles of its doors.
ghost use Rattle.std.specs.Prelude.{◌≡◌, ◌+◌, ◌<◌, ◌≤◌, [], IfOk, IfErr, IsSome, vec_len};
ghost use Rattle.tt_room.specs.Passes.{start_of, seats_of};
ghost use Rattle.tt_workers.specs.Telling.{link_now};
ghost use Rattle.tt_workers.specs.Working.{core_view, door_view, tick_view};
ghost use Rattle.tt_workers.specs.Running.{Runs};
ghost use Rattle.tt_workers.specs.Hiring.{IsStaffed};

use crate::ends::Ends;
use crate::hiring::{Crew, dismiss_all, framers, hire_all};
use crate::working::{Doors, run_workers};
use std::alloc::Global;
use std::sync::Wait;
use std::thread::Threads;
use std::time::Clock;
use tt_edge::{Listener, Servable, Ticker};
use tt_room::{NewErr, Room};

/// A core that was served.
#[derive(Drop)]
pub struct Ran<C> {
    /// The core, with its history.
    pub core: C,
    /// How its workers ended.
    pub ends: Ends,
}

/// There was no memory for a room and its workers.
#[derive(Drop)]
pub struct NoRun<C> {
    /// The core, as it was given.
    pub core: C,
}

/// Serves a room with its crew, until all workers have ended.
fn run_in<
    R: Threads + Wait + Clock + Sync,
    C: Servable + Send,
    L: Listener + Send,
    A: Listener + Send,
    T: Ticker + Send,
>(
    rt: &R,
    alloc: Global,
    room: Room<C>,
    mut crew: Crew<C, L, A, T>,
    doors: &mut Doors<L, A, T>,
) -> Ran<C>
where
    L::Link: Send,
    A::Link: Send,
    requires staffed { IsStaffed room crew }
    requires nobody { crew.workers.items ≡ [] }
    requires number { vec_len doors.old.game + vec_len doors.old.admin + 1 ≡ seats_of room }
    requires ticker { IsSome doors.old.ticker }
    requires game { 0 < vec_len doors.old.game }
    ensures made { C.made result.core ≡ C.made (start_of room) }
    ensures runs { Runs
        (core_view (C.sent (C.made (start_of room))) (C.is_live (C.made (start_of room))) (C.is_over (C.made (start_of room))))
        (door_view L.counts L.served L.peers (link_now L.Link.counts L.Link.left L.Link.was_read L.Link.held))
        (door_view A.counts A.served A.peers (link_now A.Link.counts A.Link.left A.Link.was_read A.Link.held))
        (tick_view T.counts T.beats) (C.events result.core) doors.old doors.new result.ends }
{
    hire_all(&room, &mut crew, doors);
    run_workers(rt, alloc, &room, &mut crew.workers);
    let ends = dismiss_all(&mut crew, doors);
    let Crew {
        passes,
        framers: _,
        workers,
    } = crew;
    workers.destroy_empty();
    let closed = room.close(passes);
    let Ok(core) = closed else { unreachable!() };
    Ran { core, ends }
}

/// Serves a core, until all workers have ended: in a room, with one worker for each handle of the doors and one for the
/// ticker. At every answer the handles stand in the doors again, in their order, and so does the ticker.
///
/// The core has no event yet, the ticker and at least one game handle are there, and there are at most 1,023 handles. All
/// memory but for what is served is taken before anybody runs: where it isn't there nothing has changed, and the core comes
/// back.
pub fn serve<
    R: Threads + Wait + Clock + Sync,
    C: Servable + Send,
    L: Listener + Send,
    A: Listener + Send,
    T: Ticker + Send,
>(rt: &R, alloc: Global, core: C, doors: &mut Doors<L, A, T>) -> Result<Ran<C>, NoRun<C>>
where
    L::Link: Send,
    A::Link: Send,
    requires empty { C.events core ≡ [] }
    requires ticker { IsSome doors.old.ticker }
    requires game { 0 < vec_len doors.old.game }
    requires few { vec_len doors.old.game + vec_len doors.old.admin ≤ 1023 }
    ensures made { IfOk result (λ ran. C.made ran.core ≡ C.made core) }
    ensures runs { IfOk result (λ ran. Runs
        (core_view (C.sent (C.made core)) (C.is_live (C.made core)) (C.is_over (C.made core)))
        (door_view L.counts L.served L.peers (link_now L.Link.counts L.Link.left L.Link.was_read L.Link.held))
        (door_view A.counts A.served A.peers (link_now A.Link.counts A.Link.left A.Link.was_read A.Link.held))
        (tick_view T.counts T.beats) (C.events ran.core) doors.old doors.new ran.ends) }
    ensures unchanged { IfErr result (λ refused. (refused.core ≡ core) × (doors.new ≡ doors.old)) }
{
    let seats = doors.game.len() + doors.admin.len() + 1;
    let Ok(framers) = framers(alloc, seats) else {
        return Err(NoRun { core });
    };
    let Ok(workers) = Vec::with_capacity(alloc, seats) else {
        return Err(NoRun { core });
    };
    match Room::new(alloc, core, seats as u32) {
        Ok((room, passes)) => {
            let crew = Crew {
                passes,
                framers,
                workers,
            };
            Ok(run_in(rt, alloc, room, crew, doors))
        }
        Err(NewErr { core }) => {
            workers.destroy_empty();
            Err(NoRun { core })
        }
    }
}
