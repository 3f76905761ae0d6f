//! The server's top call: words, a saved map, doors and a sink in, a status out.
ghost use Rattle.std.specs.Prelude.{◌≡◌, ◌⊎◌, ◌+◌, ◌<◌, ◌≤◌, IsSome, vec_len};
ghost use Rattle.tt_edge.specs.Count.{Rose};
ghost use Rattle.tt_workers.specs.Telling.{link_now};
ghost use Rattle.tt_workers.specs.Working.{door_view, tick_view};
ghost use Rattle.tt_serving.specs.Told.{AListenerFailed, TickerFailed, NothingFailed, sink_now};
ghost use Rattle.tt_workers.specs.Running.{OfBoth};
ghost use Rattle.tt_server.specs.Serving.{HasServed, HasRefused, AreInForm, MayStart, IsDoneOrShort};

use crate::figures::GameFigures;
use crate::game::{NoGame, game_of};
use std::alloc::Global;
use std::sync::Wait;
use std::thread::Threads;
use std::time::Clock;
use tt_edge::{Listener, Sink, Source, Ticker};
use tt_frame::Line;
use tt_serving::run;
use tt_words::{WordsError, server_words};
use tt_workers::Doors;

/// The words are no form of the program's.
const BAD_WORDS: u8 = 2;

/// The saved bytes are no map that a game may start from.
const BAD_MAP: u8 = 3;

/// The source of the map failed.
const SOURCE_FAULT: u8 = 4;

/// Memory ran out.
const NO_MEMORY: u8 = 6;

/// The source has more bytes than a map.
const TOO_LONG: u8 = 7;

/// The status where no game was made.
fn status_of(bad: NoGame) -> u8
    ensures map { bad ≡ NoGame.BadMap → result ≡ 3 }
    ensures fault { bad ≡ NoGame.Fault → result ≡ 4 }
    ensures memory { bad ≡ NoGame.Memory → result ≡ 6 }
    ensures long { bad ≡ NoGame.TooLong → result ≡ 7 }
{
    match bad {
        NoGame::BadMap => BAD_MAP,
        NoGame::Fault => SOURCE_FAULT,
        NoGame::Memory => NO_MEMORY,
        NoGame::TooLong => TOO_LONG,
    }
}

/// Serves a game over its doors, as the words ask, until it is over; then writes its summary to the sink, and answers the status.
///
/// Where a saved map is handed in, it is read to its end first, and the game starts from it; that is where the words have `--map`, whose
/// value names no part of the setup. The ticker and at least one game handle are there, and there are at most 1,023 handles. At every
/// answer the handles stand in the doors again, in their order, and so does the ticker. It waits.
pub fn serve_main<
    R: Threads + Wait + Clock + Sync,
    S: Source,
    L: Listener + Send,
    A: Listener + Send,
    T: Ticker + Send,
    K: Sink,
>(
    rt: &R,
    alloc: Global,
    args: &[Line],
    saved: &mut Option<S>,
    doors: &mut Doors<L, A, T>,
    sink: &mut K,
) -> u8
where
    L::Link: Send,
    A::Link: Send,
    requires ticker { IsSome doors.old.ticker }
    requires game { 0 < vec_len doors.old.game }
    requires few { vec_len doors.old.game + vec_len doors.old.admin ≤ 1023 }

    // A game was served and its summary was told, or nothing was done, and the status says why.
    ensures outcome { HasServed args.now S.left saved.old
        (door_view L.counts L.served L.peers (link_now L.Link.counts L.Link.left L.Link.was_read L.Link.held))
        (door_view A.counts A.served A.peers (link_now A.Link.counts A.Link.left A.Link.was_read A.Link.held))
        (tick_view T.counts T.beats) doors.old doors.new
        (sink_now K.held K.faults sink.old) (sink_now K.held K.faults sink.new) result
        ⊎ HasRefused args.now S.left S.faults saved.old saved.new doors.old doors.new sink.old sink.new result }

    // Each fault is told only where it happened, and 0 only where none did.
    ensures sink_fault { result ≡ 5 → Rose (K.faults sink.old) (K.faults sink.new) }
    ensures listener { result ≡ 8 → AListenerFailed
        (door_view L.counts L.served L.peers (link_now L.Link.counts L.Link.left L.Link.was_read L.Link.held))
        (door_view A.counts A.served A.peers (link_now A.Link.counts A.Link.left A.Link.was_read A.Link.held)) doors.old doors.new }
    ensures ticker { result ≡ 9 → TickerFailed (tick_view T.counts T.beats) doors.old doors.new }
    ensures done { result ≡ 0 → NothingFailed
        (door_view L.counts L.served L.peers (link_now L.Link.counts L.Link.left L.Link.was_read L.Link.held))
        (door_view A.counts A.served A.peers (link_now A.Link.counts A.Link.left A.Link.was_read A.Link.held))
        (tick_view T.counts T.beats) doors.old doors.new
        (sink_now K.held K.faults sink.old) (sink_now K.held K.faults sink.new) }

    // Where the words are in form, a saved map is one that a game may start from, and no count rises, all is done, or memory runs out.
    ensures complete { AreInForm args.now → MayStart S.left saved.old
        → (OfBoth saved.old saved.new (λ source source'. Rose (S.faults source) (S.faults source')) → ⊥)
        → (AListenerFailed
        (door_view L.counts L.served L.peers (link_now L.Link.counts L.Link.left L.Link.was_read L.Link.held))
        (door_view A.counts A.served A.peers (link_now A.Link.counts A.Link.left A.Link.was_read A.Link.held)) doors.old doors.new → ⊥)
        → (TickerFailed (tick_view T.counts T.beats) doors.old doors.new → ⊥)
        → (Rose (K.faults sink.old) (K.faults sink.new) → ⊥) → IsDoneOrShort result }
{
    let words = match server_words(alloc, args) {
        Ok(words) => words,
        Err(WordsError::Bad) => return BAD_WORDS,
        Err(WordsError::Memory) => return NO_MEMORY,
    };
    match game_of(alloc, &words.setup, saved) {
        Ok(hub) => run(rt, alloc, hub, &GameFigures, doors, sink),
        Err(bad) => status_of(bad),
    }
}
