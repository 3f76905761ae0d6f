//! The file of commands: read to its end, and its first bad line told.
ghost use Rattle.std.specs.Prelude.{◌≡◌, ◌⊎◌, IfErr, IfOk, OnOk};
ghost use Rattle.tt_session.specs.Session.{sink_now};
ghost use Rattle.tt_play.specs.Commands.{bad_line_text, HasNoLines, IsFileOf, IsWritten, source_now};

use std::alloc::Global;
use std::collections::VecDeque;
use tt_edge::{Sink, Source, write_all};
use tt_frame::OutOfMemory;
use tt_lines::{put, put_number};
use tt_log::ScriptBad;
use tt_play_file::{TimedLine, parse_commands};
use tt_rounds::read_commands;

/// The status for a file that is none.
const BAD_FILE: u8 = 3;

/// The status for want of memory.
const NO_MEMORY: u8 = 6;

/// What is written of the first bad line.
fn bad_line_text(alloc: Global, line: u32) -> Result<Vec<u8>, OutOfMemory>
    ensures { IfOk result (λ text. text.items ≡ bad_line_text line) }
{
    let mut text = Vec::new(alloc);
    put(&mut text, b"script: line ")?;
    put_number(&mut text, line)?;
    put(&mut text, b"\n")?;
    Ok(text)
}

/// Tells the first bad line, and answers the status: 6 where there is no memory for its text, and else 3.
fn refused<K: Sink>(alloc: Global, sink: &mut K, line: u32) -> u8
    ensures status { (result ≡ 3) ⊎ (result ≡ 6) }
    ensures told { result ≡ 3
        → IsWritten (sink_now K.held K.faults sink.old) (sink_now K.held K.faults sink.new) (bad_line_text line) }
    ensures unwritten { result ≡ 6 → sink.new ≡ sink.old }
{
    let Ok(text) = bad_line_text(alloc, line) else {
        return NO_MEMORY;
    };
    match write_all(sink, &text) {
        Ok(()) => BAD_FILE,
        Err(_) => BAD_FILE,
    }
}

/// The lines of the file, or the status with which the program ends where there are none.
pub(crate) fn lines_from<S: Source, K: Sink>(
    alloc: Global,
    commands: &mut S,
    sink: &mut K,
) -> Result<VecDeque<TimedLine>, u8>
    ensures lines { IfOk result (λ lines. IsFileOf (source_now S.left S.faults S.ends commands.old)
        (source_now S.left S.faults S.ends commands.new) lines.items) }
    ensures unwritten { OnOk result (sink.new ≡ sink.old) }
    ensures none { IfErr result (HasNoLines (sink_now K.held K.faults) (source_now S.left S.faults S.ends commands.old)
        (source_now S.left S.faults S.ends commands.new) sink.old sink.new) }
{
    let bytes = match read_commands(alloc, commands) {
        Ok(bytes) => bytes,
        Err(status) => return Err(status),
    };
    match parse_commands(alloc, &bytes) {
        Ok(lines) => Ok(lines),
        Err(ScriptBad::Line(line)) => Err(refused(alloc, sink, line)),
        Err(ScriptBad::Memory) => Err(NO_MEMORY),
    }
}
