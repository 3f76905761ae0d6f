//! The coordinator's top call: words, doors and a sink in, a status out.
ghost use Rattle.std.specs.Prelude.{◌≡◌, ◌⊎◌, ◌+◌, ◌<◌, ◌≤◌, [], IfOk, IsSome, None, vec_len};
ghost use Rattle.tt_edge.specs.Count.{Rose};
ghost use Rattle.tt_workers.specs.Telling.{link_now};
ghost use Rattle.tt_workers.specs.Working.{door_view, tick_view};
ghost use Rattle.tt_words.specs.Forms.{CoordinatorFits};
ghost use Rattle.tt_serving.specs.Told.{AListenerFailed, TickerFailed, NothingFailed, sink_now};
ghost use Rattle.tt_coordinator.specs.Setup.{host_of, setup_of};
ghost use Rattle.tt_coordinator.specs.Serving.{HasServed, HasRefused, AreInForm, IsDoneOrShort};

use crate::figures::GcFigures;
use std::alloc::Global;
use std::sync::Wait;
use std::thread::Threads;
use std::time::Clock;
use tt_attempts::Ways;
use tt_edge::{Listener, Sink, Ticker};
use tt_frame::{Line, OutOfMemory};
use tt_gc::{Coordinator, GcSetup};
use tt_serving::run;
use tt_words::{CoordinatorWords, WordsError, coordinator_words};
use tt_workers::Doors;

/// The words are no form of the program's.
const BAD_WORDS: u8 = 2;

/// Memory ran out.
const NO_MEMORY: u8 = 6;

/// The empty line.
fn no_host() -> Line
    ensures { result ≡ host_of None }
{
    match Line::new(b"") {
        Some(line) => line,
        None => unreachable!(),
    }
}

/// What the coordinator is made from.
fn setup_of(words: CoordinatorWords) -> GcSetup
    ensures { result ≡ setup_of words }
{
    let CoordinatorWords {
        first,
        second,
        turn,
    } = words;
    let (has_host, turn_host) = match turn {
        Some(host) => (true, host),
        None => (false, no_host()),
    };
    GcSetup {
        first,
        second,
        ways: Ways {
            direct: true,
            stun: true,
            turn: has_host,
        },
        turn_host,
        cost: 1 << 30,
    }
}

/// A coordinator as the words ask, that nothing has reached yet.
fn coordinator_of(alloc: Global, words: CoordinatorWords) -> Result<Coordinator, OutOfMemory>
    requires fits { CoordinatorFits words }
    ensures setup { IfOk result (λ gc. gc.setup ≡ setup_of words) }
    ensures events { IfOk result (λ gc. gc.events ≡ []) }
{
    Coordinator::new(alloc, &setup_of(words))
}

/// Serves a coordinator over its doors, as the words ask, until all is over; then writes its summary to the sink, and answers the
/// status.
///
/// The ticker and at least one handle of the main door are there, and there are at most 1,023 handles. At every answer the handles
/// stand in the doors again, in their order, and so does the ticker. It waits.
pub fn coordinate_main<
    R: Threads + Wait + Clock + Sync,
    L: Listener + Send,
    A: Listener + Send,
    T: Ticker + Send,
    K: Sink,
>(rt: &R, alloc: Global, args: &[Line], doors: &mut Doors<L, A, T>, sink: &mut K) -> u8
where
    L::Link: Send,
    A::Link: Send,
    requires ticker { IsSome doors.old.ticker }
    requires game { 0 < vec_len doors.old.game }
    requires few { vec_len doors.old.game + vec_len doors.old.admin ≤ 1023 }

    // A coordinator was served and its summary was told, or nothing was done, and the status says why.
    ensures outcome { HasServed args.now
        (door_view L.counts L.served L.peers (link_now L.Link.counts L.Link.left L.Link.was_read L.Link.held))
        (door_view A.counts A.served A.peers (link_now A.Link.counts A.Link.left A.Link.was_read A.Link.held))
        (tick_view T.counts T.beats) doors.old doors.new
        (sink_now K.held K.faults sink.old) (sink_now K.held K.faults sink.new) result
        ⊎ HasRefused args.now doors.old doors.new sink.old sink.new result }

    // Each fault is told only where it happened, and 0 only where none did.
    ensures sink_fault { result ≡ 5 → Rose (K.faults sink.old) (K.faults sink.new) }
    ensures listener { result ≡ 8 → AListenerFailed
        (door_view L.counts L.served L.peers (link_now L.Link.counts L.Link.left L.Link.was_read L.Link.held))
        (door_view A.counts A.served A.peers (link_now A.Link.counts A.Link.left A.Link.was_read A.Link.held)) doors.old doors.new }
    ensures ticker { result ≡ 9 → TickerFailed (tick_view T.counts T.beats) doors.old doors.new }
    ensures done { result ≡ 0 → NothingFailed
        (door_view L.counts L.served L.peers (link_now L.Link.counts L.Link.left L.Link.was_read L.Link.held))
        (door_view A.counts A.served A.peers (link_now A.Link.counts A.Link.left A.Link.was_read A.Link.held))
        (tick_view T.counts T.beats) doors.old doors.new
        (sink_now K.held K.faults sink.old) (sink_now K.held K.faults sink.new) }

    // Where the words are in form and no count rises, all is done, or memory runs out.
    ensures complete { AreInForm args.now
        → (AListenerFailed
        (door_view L.counts L.served L.peers (link_now L.Link.counts L.Link.left L.Link.was_read L.Link.held))
        (door_view A.counts A.served A.peers (link_now A.Link.counts A.Link.left A.Link.was_read A.Link.held)) doors.old doors.new → ⊥)
        → (TickerFailed (tick_view T.counts T.beats) doors.old doors.new → ⊥)
        → (Rose (K.faults sink.old) (K.faults sink.new) → ⊥) → IsDoneOrShort result }
{
    let words = match coordinator_words(alloc, args) {
        Ok(words) => words,
        Err(WordsError::Bad) => return BAD_WORDS,
        Err(WordsError::Memory) => return NO_MEMORY,
    };
    match coordinator_of(alloc, words) {
        Ok(gc) => run(rt, alloc, gc, &GcFigures, doors, sink),
        Err(_) => NO_MEMORY,
    }
}
