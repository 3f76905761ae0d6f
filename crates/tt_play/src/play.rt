//! The player's top call: words, a link, a ticker, a file of commands and a sink in, a status out.
ghost use Rattle.std.specs.Prelude.{◌≡◌, ◌≢◌, ◌⊎◌, codes};
ghost use Rattle.tt_edge.specs.Count.{Rose};
ghost use Rattle.tt_edge.specs.Link.{Rises};
ghost use Rattle.tt_rounds.specs.Links.{link_now};
ghost use Rattle.tt_words.specs.Forms.{PlayFits};
ghost use Rattle.tt_session.specs.Session.{sink_now, ticker_now};
ghost use Rattle.tt_play.specs.Commands.{source_now};
ghost use Rattle.tt_play.specs.InStep.{PlaysInStep};
ghost use Rattle.tt_play.specs.Played.{GoesWell, HasPlayed, HasRefused, IsDone, login_of, Plays};

use crate::commands::lines_from;
use std::alloc::Global;
use std::collections::VecDeque;
use std::sync::Wait;
use tt_client::Login;
use tt_edge::{Link, Sink, Source, Ticker};
use tt_frame::{Line, Name};
use tt_play_file::TimedLine;
use tt_session::{Player, play_rounds, prints_in_step};
use tt_words::{PlayWords, WordsError, play_words};

/// The status for words that are none of the program's.
const BAD_WORDS: u8 = 2;

/// The status for want of memory.
const NO_MEMORY: u8 = 6;

/// The version of the files that the player says it has.
const GRF: u32 = 13;

/// The revision that the player says it is of.
fn revision() -> Name
    ensures { result ≡ codes "13.4" }
{
    match Name::new(b"13.4") {
        Some(name) => name,
        None => unreachable!(),
    }
}

/// The login that the words give.
fn login_of(words: PlayWords) -> Login
    ensures { result ≡ login_of words }
{
    Login {
        revision: revision(),
        grf: GRF,
        name: words.name,
        company: words.company,
        password: words.password,
        company_password: words.company_password,
    }
}

/// Joins with the login that the words give, and plays by the lines over the link. It waits.
fn join_and_play<R: Wait, L: Link, T: Ticker, K: Sink>(
    rt: &R,
    alloc: Global,
    words: PlayWords,
    lines: &mut VecDeque<TimedLine>,
    link: &mut L,
    ticker: &mut T,
    sink: &mut K,
) -> u8
    requires { PlayFits words }

    // It was played, or memory ran out before and nothing was done.
    ensures outcome { Plays words lines.old.items (link_now L.counts L.left L.was_read L.held link.old)
        (link_now L.counts L.left L.was_read L.held link.new) (ticker_now T.counts T.beats ticker.old)
        (ticker_now T.counts T.beats ticker.new) (sink_now K.held K.faults sink.old) (sink_now K.held K.faults sink.new) result
        ⊎ ((result ≡ 6) × (link.new ≡ link.old) × (ticker.new ≡ ticker.old) × (sink.new ≡ sink.old)) }

    // The status is one of those of an end, and those of faults tell which object failed.
    ensures played { (result ≢ 3) × (result ≢ 4) × (result ≢ 7) }
    ensures sink_fault { result ≡ 5 → Rose (K.faults sink.old) (K.faults sink.new) }
    ensures ticker { result ≡ 9 → Rises (T.counts ticker.old).faults (T.counts ticker.new).faults }
    ensures link_end { result ≡ 13 → Rises (L.counts link.old).ends (L.counts link.new).ends }
    ensures link_fault { result ≡ 14 → Rises (L.counts link.old).faults (L.counts link.new).faults }
    ensures done { result ≡ 0 → (K.faults sink.new ≡ K.faults sink.old)
        × ((T.counts ticker.new).faults ≡ (T.counts ticker.old).faults) }
    ensures in_step { PlaysInStep (L.was_read link.old) (L.was_read link.new) (sink_now K.held K.faults sink.old)
        (sink_now K.held K.faults sink.new) result }
{
    prints_in_step();
    let login = login_of(words);
    let Ok(mut player) = Player::joining(alloc, &login) else {
        return NO_MEMORY;
    };
    play_rounds(rt, alloc, &mut player, lines, link, ticker, sink).status()
}

/// Plays a game over the link, as the words and the file of commands say, and answers the status.
///
/// It reads the file to its end first. Then it joins, and plays in rounds, until a line ends it, the client or the link comes to
/// its end, or the ticker tells Stop. It waits.
pub fn play_main<R: Wait, L: Link, T: Ticker, S: Source, K: Sink>(
    rt: &R,
    alloc: Global,
    args: &[Line],
    link: &mut L,
    ticker: &mut T,
    commands: &mut S,
    sink: &mut K,
) -> u8
    // A client was played as the words and the file say, or nothing was played, and the status says why.
    ensures outcome { HasPlayed args.now (source_now S.left S.faults S.ends commands.old)
        (source_now S.left S.faults S.ends commands.new) (link_now L.counts L.left L.was_read L.held link.old)
        (link_now L.counts L.left L.was_read L.held link.new) (ticker_now T.counts T.beats ticker.old)
        (ticker_now T.counts T.beats ticker.new) (sink_now K.held K.faults sink.old) (sink_now K.held K.faults sink.new) result
        ⊎ HasRefused args.now (source_now S.left S.faults S.ends) (sink_now K.held K.faults) commands.old commands.new link.old
        link.new ticker.old ticker.new sink.old sink.new result }

    // Each fault is told only where it happened, and 0 only where none did.
    ensures sink_fault { result ≡ 5 → Rose (K.faults sink.old) (K.faults sink.new) }
    ensures ticker { result ≡ 9 → Rises (T.counts ticker.old).faults (T.counts ticker.new).faults }
    ensures link_end { result ≡ 13 → Rises (L.counts link.old).ends (L.counts link.new).ends }
    ensures link_fault { result ≡ 14 → Rises (L.counts link.old).faults (L.counts link.new).faults }
    ensures done { result ≡ 0 → (K.faults sink.new ≡ K.faults sink.old)
        × ((T.counts ticker.new).faults ≡ (T.counts ticker.old).faults) }

    // Where all is in form and nothing fails, it is done, or the client or the link came to its end, unless memory ran out.
    ensures complete { GoesWell args.now (source_now S.left S.faults S.ends commands.old)
        (source_now S.left S.faults S.ends commands.new) (link_now L.counts L.left L.was_read L.held link.old)
        (link_now L.counts L.left L.was_read L.held link.new) (ticker_now T.counts T.beats ticker.old)
        (ticker_now T.counts T.beats ticker.new) (sink_now K.held K.faults sink.old) (sink_now K.held K.faults sink.new)
        → IsDone result }

    // The lockstep promise: a player that is given what a server sent prints the worlds of that server's journal.
    ensures in_step { result ≢ 3 → PlaysInStep (L.was_read link.old) (L.was_read link.new)
        (sink_now K.held K.faults sink.old) (sink_now K.held K.faults sink.new) result }
{
    let words = match play_words(alloc, args) {
        Ok(words) => words,
        Err(WordsError::Bad) => return BAD_WORDS,
        Err(WordsError::Memory) => return NO_MEMORY,
    };
    match lines_from(alloc, commands, sink) {
        Ok(mut lines) => join_and_play(rt, alloc, words, &mut lines, link, ticker, sink),
        Err(status) => status,
    }
}
