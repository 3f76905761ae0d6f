//! What is made from a number alone, asked for by two words: the hour script, or the summary of its game.
ghost use Rattle.std.specs.Prelude.{◌≡◌, ◌⊎◌, ◌∷◌, [], IfSome, IfNone, IfOk};
ghost use Rattle.std.specs.Io.KnownBytes.{Appends};
ghost use Rattle.tt_edge.specs.Count.{Rose};
ghost use Rattle.tt_edge.specs.Sink.{AppendsPart};
ghost use Rattle.tt_hour_run.specs.declared.made.Made.{Made as Asked};
ghost use Rattle.tt_hour_run.specs.Made.{IsMadeForm, made_text};

use crate::played::hour_summary;
use std::alloc::Global;
use tt_edge::{Sink, write_all};
use tt_frame::{Line, OutOfMemory};
use tt_hour::put_hour;
use tt_lines::number_of;

/// All was written.
const DONE: u8 = 0;

/// The sink failed.
const SINK_FAULT: u8 = 5;

/// Memory ran out.
const NO_MEMORY: u8 = 6;

/// What is made from a number.
#[derive(Clone, Copy)]
pub enum Made {
    /// `make N`: the text of the hour script.
    Make(u32),
    /// `hour N`: the summary of its game.
    Hour(u32),
}

/// What the words ask for, where it is made from a number: a number is spelled without sign or leading zero.
pub fn made_of(words: &[Line]) -> Option<Made>
    ensures form { IfSome result (λ made. IsMadeForm words.now made) }
    ensures none { IfNone result ((made : Asked) → IsMadeForm words.now made → ⊥) }
{
    match words {
        [verb, number] => made_by(verb.bytes(), number.bytes()),
        _ => None,
    }
}

/// What two words ask for.
fn made_by(verb: &[u8], number: &[u8]) -> Option<Made>
    ensures form { IfSome result (λ made. IsMadeForm (verb.now ∷ number.now ∷ []) made) }
    ensures none { IfNone result ((made : Asked) → IsMadeForm (verb.now ∷ number.now ∷ []) made → ⊥) }
{
    let Some(n) = number_of(number) else {
        return None;
    };
    if verb == b"make".as_slice() {
        return Some(Made::Make(n));
    }
    if verb == b"hour".as_slice() {
        return Some(Made::Hour(n));
    }
    None
}

/// Writes what is made from a number to the sink, and answers the status: 0 where it was written, 5 where the sink failed,
/// 6 where memory ran out.
pub fn write_made<K: Sink>(alloc: Global, made: Made, sink: &mut K) -> u8
    ensures status { (result ≡ 0) ⊎ (result ≡ 5) ⊎ (result ≡ 6) }

    // The text was written, whole or in part, and nothing else.
    ensures done { result ≡ 0 → Appends (K.held sink.old) (K.held sink.new) (made_text made) }
    ensures partly { result ≡ 5 → AppendsPart (K.held sink.old) (K.held sink.new) (made_text made) }
    ensures unwritten { result ≡ 6 → sink.new ≡ sink.old }

    // A fault is told only where it happened.
    ensures sink_fault { result ≡ 5 → Rose (K.faults sink.old) (K.faults sink.new) }
{
    let Ok(text) = text_of(alloc, made) else {
        return NO_MEMORY;
    };
    match write_all(sink, &text) {
        Ok(()) => DONE,
        Err(_) => SINK_FAULT,
    }
}

/// Its text.
fn text_of(alloc: Global, made: Made) -> Result<Vec<u8>, OutOfMemory>
    ensures { IfOk result (λ text. text.items ≡ made_text made) }
{
    match made {
        Made::Make(number) => hour_text(alloc, number),
        Made::Hour(number) => hour_summary(alloc, number),
    }
}

/// The text of the hour script.
fn hour_text(alloc: Global, number: u32) -> Result<Vec<u8>, OutOfMemory>
    ensures { IfOk result (λ text. text.items ≡ made_text (Asked.Make number)) }
{
    let mut text = Vec::new(alloc);
    put_hour(alloc, &mut text, number)?;
    Ok(text)
}
