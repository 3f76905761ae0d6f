//! A core is served, its summary is told, and a status comes of both.
ghost use Rattle.std.specs.Prelude.{◌≡◌, ◌⊎◌, ◌+◌, ◌<◌, ◌≤◌, [], IsSome, vec_len};
ghost use Rattle.tt_edge.specs.Count.{Rose};
ghost use Rattle.tt_workers.specs.Telling.{link_now};
ghost use Rattle.tt_workers.specs.Working.{core_view, door_view, tick_view};
ghost use Rattle.tt_serving.specs.Statuses.{status_of, IsRunStatus};
ghost use Rattle.tt_serving.specs.Told.{Serves, AListenerFailed, TickerFailed, NothingFailed, sink_now};

use crate::figures::{Figures, tell};
use std::alloc::Global;
use std::sync::Wait;
use std::thread::Threads;
use std::time::Clock;
use tt_edge::{Listener, Servable, Sink, Ticker};
use tt_workers::{Doors, Ends, serve};

/// All was done as said.
const DONE: u8 = 0;

/// The sink failed.
const SINK_FAULT: u8 = 5;

/// Memory ran out.
const NO_MEMORY: u8 = 6;

/// A listener failed.
const LISTEN_FAULT: u8 = 8;

/// The ticker failed.
const TICK_FAULT: u8 = 9;

/// The status of a run.
fn status_of(ends: Ends, whole: bool) -> u8
    ensures { result ≡ status_of ends.memory ends.listen_fault ends.tick_fault whole }
{
    if ends.memory {
        return NO_MEMORY;
    }
    if ends.listen_fault {
        return LISTEN_FAULT;
    }
    if ends.tick_fault {
        return TICK_FAULT;
    }
    if whole { DONE } else { SINK_FAULT }
}

/// Serves a core over all handles of its doors until all is over, tells its summary to the sink, and answers the status.
///
/// The core has no event yet, the ticker and at least one game handle are there, and there are at most 1,023 handles. Where memory
/// for the workers isn't there, nothing is served and nothing told. At every answer the handles stand in the doors again, in
/// their order, and so does the ticker. It waits.
pub fn run<
    R: Threads + Wait + Clock + Sync,
    C: Servable + Send + Drop,
    L: Listener + Send,
    A: Listener + Send,
    T: Ticker + Send,
    F: Figures<C>,
    K: Sink,
>(rt: &R, alloc: Global, core: C, figures: &F, doors: &mut Doors<L, A, T>, sink: &mut K) -> u8
where
    L::Link: Send,
    A::Link: Send,
    requires empty { C.events core ≡ [] }
    requires ticker { IsSome doors.old.ticker }
    requires game { 0 < vec_len doors.old.game }
    requires few { vec_len doors.old.game + vec_len doors.old.admin ≤ 1023 }
    ensures status { IsRunStatus result }

    // It was served, and its summary was told, or nothing was done for want of memory.
    ensures serves { Serves C.made C.events F.summary (core_view (C.sent (C.made core)) (C.is_live (C.made core)) (C.is_over (C.made core)))
        (door_view L.counts L.served L.peers (link_now L.Link.counts L.Link.left L.Link.was_read L.Link.held))
        (door_view A.counts A.served A.peers (link_now A.Link.counts A.Link.left A.Link.was_read A.Link.held))
        (tick_view T.counts T.beats) (C.made core) doors.old doors.new
        (sink_now K.held K.faults sink.old) (sink_now K.held K.faults sink.new) result
        ⊎ ((result ≡ 6) × (doors.new ≡ doors.old) × (sink.new ≡ sink.old)) }

    // Each fault is told only where it happened, and 0 only where none did.
    ensures sink_fault { result ≡ 5 → Rose (K.faults sink.old) (K.faults sink.new) }
    ensures listener { result ≡ 8 → AListenerFailed
        (door_view L.counts L.served L.peers (link_now L.Link.counts L.Link.left L.Link.was_read L.Link.held))
        (door_view A.counts A.served A.peers (link_now A.Link.counts A.Link.left A.Link.was_read A.Link.held)) doors.old doors.new }
    ensures ticker { result ≡ 9 → TickerFailed (tick_view T.counts T.beats) doors.old doors.new }
    ensures done { result ≡ 0 → NothingFailed
        (door_view L.counts L.served L.peers (link_now L.Link.counts L.Link.left L.Link.was_read L.Link.held))
        (door_view A.counts A.served A.peers (link_now A.Link.counts A.Link.left A.Link.was_read A.Link.held))
        (tick_view T.counts T.beats) doors.old doors.new
        (sink_now K.held K.faults sink.old) (sink_now K.held K.faults sink.new) }
{
    match serve(rt, alloc, core, doors) {
        Ok(ran) => {
            let whole = tell(figures, &ran.core, sink);
            status_of(ran.ends, whole)
        }
        Err(_) => NO_MEMORY,
    }
}
