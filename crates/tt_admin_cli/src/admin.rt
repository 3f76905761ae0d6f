//! The top call of the admin's client: words, a link, a ticker, a command file and a sink in, a status out.
ghost use Rattle.std.specs.Prelude.{◌≡◌, ◌⊎◌, ◌∷◌, [], IfOk, IfErr, OnOk};
ghost use Rattle.tt_edge.specs.Link.{Rises};
ghost use Rattle.tt_rounds.specs.Links.{link_now};
ghost use Rattle.tt_admin_run.specs.Rounds.{sink_now, ticker_now};
ghost use Rattle.tt_admin_cli.specs.Runs.{HasRun, HasRefused, IsMadeOf, Refuses, GoesWell, IsDone, TellsBadLine};
ghost use Rattle.tt_admin_cli.specs.Runs.{source_now, bad_line_text, join_of};

use std::alloc::Global;
use std::sync::Wait;
use tt_admin::AdminMsg;
use tt_admin_file::{FileBad, read_file};
use tt_admin_run::{Agenda, agenda_of, run};
use tt_edge::{Link, Sink, Source, Ticker, write_all};
use tt_frame::{Line, OutOfMemory, Text};
use tt_lines::{put, put_number};
use tt_rounds::read_commands;
use tt_words::{AdminWords, WordsError, admin_words};

/// The words are in no form.
const BAD_WORDS: u8 = 2;

/// The input is no command file.
const BAD_INPUT: u8 = 3;

/// Memory ran out.
const NO_MEMORY: u8 = 6;

/// Joins a server's side door, says what the command file says, line by line and each message once it is due, and writes each
/// packet that comes in words. It waits for beats, and goes on until its file's `quit`, an end by the server, an end or a fault
/// of the link, or the end of the beats.
pub fn admin_main<R: Wait, L: Link, T: Ticker, S: Source, K: Sink>(
    rt: &R,
    alloc: Global,
    args: &[Line],
    link: &mut L,
    ticker: &mut T,
    commands: &mut S,
    sink: &mut K,
) -> u8
    // What was asked for was run, or nothing was, and the status says why.
    ensures outcome { HasRun args.now (source_now S.faults S.left commands.old) (source_now S.faults S.left commands.new)
        (link_now L.counts L.left L.was_read L.held link.old) (link_now L.counts L.left L.was_read L.held link.new)
        (ticker_now T.counts T.beats ticker.old) (ticker_now T.counts T.beats ticker.new)
        (sink_now K.faults K.held sink.old) (sink_now K.faults K.held sink.new) result
        ⊎ HasRefused args.now (source_now S.faults S.left) (sink_now K.faults K.held) commands.old commands.new
        link.old link.new ticker.old ticker.new sink.old sink.new result }

    // Each fault is told only where it happened, and 0 only where none did.
    ensures source_fault { result ≡ 4 → Rises (S.faults commands.old) (S.faults commands.new) }
    ensures sink_fault { result ≡ 5 → Rises (K.faults sink.old) (K.faults sink.new) }
    ensures ticker_fault { result ≡ 9 → Rises (T.counts ticker.old).faults (T.counts ticker.new).faults }
    ensures link_end { result ≡ 13 → Rises (L.counts link.old).ends (L.counts link.new).ends }
    ensures link_fault { result ≡ 14 → Rises (L.counts link.old).faults (L.counts link.new).faults }
    ensures done { result ≡ 0 → (K.faults sink.new ≡ K.faults sink.old)
        × ((T.counts ticker.new).faults ≡ (T.counts ticker.old).faults) }

    // Where all is in form and nothing fails, it is done, or the server ended it, unless memory ran out.
    ensures complete { GoesWell args.now (source_now S.faults S.left commands.old) (source_now S.faults S.left commands.new)
        (link_now L.counts L.left L.was_read L.held link.old) (link_now L.counts L.left L.was_read L.held link.new)
        (ticker_now T.counts T.beats ticker.old) (ticker_now T.counts T.beats ticker.new)
        (sink_now K.faults K.held sink.old) (sink_now K.faults K.held sink.new) → IsDone result }
{
    match agenda_for(alloc, args, commands, sink) {
        Ok(agenda) => {
            let ended = run(rt, alloc, &agenda, link, ticker, sink);
            ended.status()
        }
        Err(status) => status,
    }
}

/// All that the words and the command file ask for, or the status with which the program ends where there is nothing to run.
fn agenda_for<S: Source, K: Sink>(
    alloc: Global,
    args: &[Line],
    commands: &mut S,
    sink: &mut K,
) -> Result<Agenda, u8>
    ensures asked { IfOk result (λ agenda. IsMadeOf args.now
        (source_now S.faults S.left commands.old) (source_now S.faults S.left commands.new) agenda) }
    ensures unwritten { OnOk result (sink.new ≡ sink.old) }
    ensures refused { IfErr result (λ status. Refuses args.now (source_now S.faults S.left) (sink_now K.faults K.held)
        commands.old commands.new sink.old sink.new status) }
{
    let words = match admin_words(alloc, args) {
        Ok(words) => words,
        Err(WordsError::Bad) => return Err(BAD_WORDS),
        Err(WordsError::Memory) => return Err(NO_MEMORY),
    };
    let input = match read_commands(alloc, commands) {
        Ok(input) => input,
        Err(status) => return Err(status),
    };
    let lines = match read_file(alloc, &input) {
        Ok(lines) => lines,
        Err(FileBad::Line(line)) => return Err(refused(alloc, sink, line)),
        Err(FileBad::Memory) => return Err(NO_MEMORY),
    };
    let join = join_of(words);
    match agenda_of(alloc, &join, &lines) {
        Ok(agenda) => Ok(agenda),
        Err(OutOfMemory) => Err(NO_MEMORY),
    }
}

/// The first message of an admin.
fn join_of(words: AdminWords) -> AdminMsg
    ensures { result ≡ join_of words }
{
    AdminMsg::AdminJoin {
        password: words.password,
        application: words.name,
        version: version(),
    }
}

/// The version of this program.
fn version() -> Text<31>
    ensures { result ≡ 49 ∷ [] }
{
    match Text::new(b"1") {
        Some(text) => text,
        None => unreachable!(),
    }
}

/// Tells the first bad line, and answers the status for it. A fault of the sink leaves that status.
fn refused<K: Sink>(alloc: Global, sink: &mut K, line: u32) -> u8
    ensures status { (result ≡ 3) ⊎ (result ≡ 6) }
    ensures told { result ≡ 3 → TellsBadLine line (sink_now K.faults K.held sink.old) (sink_now K.faults K.held sink.new) }
    ensures unwritten { result ≡ 6 → sink.new ≡ sink.old }
{
    let Ok(text) = bad_line_text(alloc, line) else {
        return NO_MEMORY;
    };
    match write_all(sink, &text) {
        Ok(()) => BAD_INPUT,
        Err(_) => BAD_INPUT,
    }
}

/// What is written of the first bad line.
fn bad_line_text(alloc: Global, line: u32) -> Result<Vec<u8>, OutOfMemory>
    ensures text { IfOk result (λ text. text.items ≡ bad_line_text line) }
{
    let mut text = Vec::new(alloc);
    put(&mut text, b"script: line ")?;
    put_number(&mut text, line)?;
    put(&mut text, b"\n")?;
    Ok(text)
}
