//! What is answered to an input: words, a source and a sink in, a status out.
ghost use Rattle.std.specs.Prelude.{◌≡◌, ◌⊎◌, ◌≢◌, ◌<◌, ◌≤◌, ◌↔◌, ◌+◌, List, ℕ, Some, None, Err, length, IfSome, IfOk};
ghost use Rattle.std.specs.Io.KnownBytes.{Appends};
ghost use Rattle.tt_lines.specs.Lines.{lines_of, IsFirstBad};
ghost use Rattle.tt_edge.specs.Count.{Rose};
ghost use Rattle.tt_edge.specs.Sink.{AppendsPart};
ghost use Rattle.tt_edge.specs.Source.{ConsumesAtMost, ConsumesCount};
ghost use Rattle.tt_replay.specs.declared.form.Form.{Form};
ghost use Rattle.tt_replay.specs.declared.form.Form.TheVariants.{Check};
ghost use Rattle.tt_replay.specs.declared.replay.NoAnswer.TheVariants.{BadLine, Differs, Memory};
ghost use Rattle.tt_playing.specs.Begun.{IsScriptOf};
ghost use Rattle.tt_replay.specs.Statuses.{form_of, input_limit, IsOfForm, IsAnswer, IsWritten, IsPartlyWritten, IsRefused};
ghost use Rattle.tt_replay.specs.Statuses.{IsDiffering, IsOther, agrees_text, bad_line_text, differs_text};

use crate::expecting::difference;
use crate::form::{Form, form_of};
use crate::report::report_of;
use std::alloc::Global;
use thiserror::Error;
use tt_edge::{ReadAllError, Sink, Source, read_all, write_all};
use tt_frame::{Line, OutOfMemory};
use tt_lines::{put, put_number};
use tt_log::ScriptBad;
use tt_playing::{Start, play_script, start_of};
use tt_show::{ShowError, show};

/// All was done as said.
const DONE: u8 = 0;

/// The report is not as the script expects it.
const DIFFERS: u8 = 1;

/// The words are no form of the program's.
const BAD_WORDS: u8 = 2;

/// The input is not of the form that the words ask for.
const BAD_INPUT: u8 = 3;

/// The source failed.
const SOURCE_FAULT: u8 = 4;

/// The sink failed.
const SINK_FAULT: u8 = 5;

/// Memory ran out.
const NO_MEMORY: u8 = 6;

/// The input is longer than the limit.
const TOO_LONG: u8 = 7;

/// The most bytes that are read: 64 MiB.
const INPUT_LIMIT: u32 = 64 << 20;

/// Why an input has no answer.
#[derive(Clone, Copy, Debug, PartialEq, Eq, Error)]
enum NoAnswer {
    /// This line, counted from 1, is its first bad one.
    #[error("line {0} is not of the form")]
    BadLine(u32),
    /// The report of the script is not as it expects, first at this place, counted from 1.
    #[error("the report differs at line {0}")]
    Differs(u32),
    /// Memory ran out.
    #[error("memory ran out")]
    Memory,
}

impl From<OutOfMemory> for NoAnswer {
    ghost from_gives = { λ _ e. e ≡ Memory };

    fn from(_error: OutOfMemory) -> Self {
        NoAnswer::Memory
    }
}

/// Answers the input that the source gives, as the words ask, and writes the answer to the sink: `run` reads a script
/// and writes its report, `check` reads a script and writes whether its report is as the script expects it, `show` reads a
/// list of packets and writes their text. Of an input that isn't of the form that is asked for the first bad line is told.
///
/// It waits for nobody, and returns over every source that answers its calls: at most one byte past the limit is
/// read, and each read takes at least one.
pub fn answer_input<S: Source, K: Sink>(
    alloc: Global,
    args: &[Line],
    source: &mut S,
    sink: &mut K,
) -> u8
    ensures status { result ≤ 7 }

    // The words are looked at first. Where they are no form, nothing was read.
    ensures words { (result ≡ 2) ↔ (form_of args.now ≡ None) }
    ensures unread { result ≡ 2 → source.new ≡ source.old }

    // A fault is told only where it happened.
    ensures source_fault { result ≡ 4 → Rose (S.faults source.old) (S.faults source.new) }
    ensures sink_fault { result ≡ 5 → Rose (K.faults sink.old) (K.faults sink.new) }

    // It is told exactly where more than the limit was read, and then that was one byte more. Where memory ran out it
    // may have been as many.
    ensures too_long { result ≡ 7 → IfSome (S.left source.old) (λ input. input_limit < length input) }
    ensures over { result ≡ 7 → ConsumesCount (input_limit + 1) (S.left source.old) (S.left source.new) }
    ensures under { (result ≢ 7) × (result ≢ 6) → ConsumesAtMost input_limit (S.left source.old) (S.left source.new) }
    ensures at_most { ConsumesAtMost (input_limit + 1) (S.left source.old) (S.left source.new) }

    // The source was read to its end. Its bytes are not of the form, and the first bad line was told: whole, unless
    // the sink failed.
    ensures refused { result ≡ 3 → IfSome (S.left source.old)
        (IsRefused args.now (Rose (K.faults sink.old) (K.faults sink.new)) (K.held sink.old) (K.held sink.new)) }
    ensures ended { (result ≡ 0) ⊎ (result ≡ 1) ⊎ (result ≡ 3) ⊎ (result ≡ 5) → Rose (S.ends source.old) (S.ends source.new) }

    // The source was read to its end. Its report is not as it expects, and the first such place was told: whole, unless
    // the sink failed.
    ensures differs { result ≡ 1 → IfSome (S.left source.old)
        (IsDiffering args.now (Rose (K.faults sink.old) (K.faults sink.new)) (K.held sink.old) (K.held sink.new)) }

    // The answer was written, whole or in part, and nothing else.
    ensures done { result ≡ 0 → IfSome (S.left source.old) (IsWritten args.now (K.held sink.old) (K.held sink.new)) }
    ensures partly { result ≡ 5 → IfSome (S.left source.old) (IsPartlyWritten args.now (K.held sink.old) (K.held sink.new)) }
    ensures unwritten { (result ≢ 0) × (result ≢ 1) × (result ≢ 3) × (result ≢ 5) → sink.new ≡ sink.old }

    // Where nothing fails and the input is of the form, it is done, unless memory runs out, or it is checked and differs.
    ensures complete { (form : Form) (input : List ℕ) → form_of args.now ≡ Some form → S.left source.old ≡ Some input
        → length input ≤ input_limit → IsOfForm form (lines_of input)
        → (Rose (S.faults source.old) (S.faults source.new) → ⊥) → (Rose (K.faults sink.old) (K.faults sink.new) → ⊥) → (result ≡ 0)
        ⊎ (result ≡ 6) ⊎ ((result ≡ 1) × (form ≡ Check)) }
{
    let Some(form) = form_of(args) else {
        return BAD_WORDS;
    };
    let input = match read_all(alloc, source, INPUT_LIMIT) {
        Ok(input) => input,
        Err(ReadAllError::Failed) => return SOURCE_FAULT,
        Err(ReadAllError::Memory) => return NO_MEMORY,
        Err(ReadAllError::TooLong) => return TOO_LONG,
    };
    let answer = match answer_of(alloc, form, &input) {
        Ok(answer) => answer,
        Err(NoAnswer::BadLine(line)) => return refused(alloc, sink, line),
        Err(NoAnswer::Differs(place)) => return differing(alloc, sink, place),
        Err(NoAnswer::Memory) => return NO_MEMORY,
    };
    match write_all(sink, &answer) {
        Ok(()) => DONE,
        Err(_) => SINK_FAULT,
    }
}

/// The text that answers an input of this form, or its first bad line.
fn answer_of(alloc: Global, form: Form, input: &[u8]) -> Result<Vec<u8>, NoAnswer>
    ensures answer { IfOk result (λ answer. IsAnswer form (lines_of input.now) answer.items) }
    ensures bad { (line : ℕ) → result ≡ Err (BadLine line) → IsFirstBad (IsOfForm form) (lines_of input.now) line }
    ensures differs { (place : ℕ) → result ≡ Err (Differs place) → (form ≡ Check) × IsOther (lines_of input.now) place }
{
    match form {
        Form::Run => run(alloc, input),
        Form::Check => check_script(alloc, input),
        Form::Show => show_list(alloc, input),
    }
}

/// The report of the script that the bytes spell, or its first bad line.
fn run(alloc: Global, input: &[u8]) -> Result<Vec<u8>, NoAnswer>
    ensures answer { IfOk result (λ answer. IsAnswer Form.Run (lines_of input.now) answer.items) }
    ensures bad { (line : ℕ) → result ≡ Err (BadLine line) → IsFirstBad (IsOfForm Form.Run) (lines_of input.now) line }
    ensures never { (place : ℕ) → result ≢ Err (Differs place) }
{
    let start = match start_of(alloc, input) {
        Ok(start) => start,
        Err(ScriptBad::Line(line)) => return Err(NoAnswer::BadLine(line)),
        Err(ScriptBad::Memory) => return Err(NoAnswer::Memory),
    };
    match report_of_script(alloc, &start, input) {
        Ok(report) => Ok(report),
        Err(_) => Err(NoAnswer::Memory),
    }
}

/// What is written of a script whose report is as it expects, or the first bad line, or the first place that differs.
fn check_script(alloc: Global, input: &[u8]) -> Result<Vec<u8>, NoAnswer>
    ensures answer { IfOk result (λ answer. IsAnswer Form.Check (lines_of input.now) answer.items) }
    ensures bad { (line : ℕ) → result ≡ Err (BadLine line) → IsFirstBad (IsOfForm Form.Check) (lines_of input.now) line }
    ensures differs { (place : ℕ) → result ≡ Err (Differs place) → IsOther (lines_of input.now) place }
{
    let report = match run(alloc, input) {
        Ok(report) => report,
        Err(error) => return Err(error),
    };
    let found = difference(alloc, input, &report)?;
    match found {
        Some(place) => Err(NoAnswer::Differs(place)),
        None => {
            let text = agrees_text(alloc)?;
            Ok(text)
        }
    }
}

/// What is written of a report that is as expected.
fn agrees_text(alloc: Global) -> Result<Vec<u8>, OutOfMemory>
    ensures text { IfOk result (λ text. text.items ≡ agrees_text) }
{
    let mut text = Vec::new(alloc);
    put(&mut text, b"agrees\n")?;
    Ok(text)
}

/// The text of the list that the bytes spell, or its first bad line.
fn show_list(alloc: Global, input: &[u8]) -> Result<Vec<u8>, NoAnswer>
    ensures answer { IfOk result (λ answer. IsAnswer Form.Show (lines_of input.now) answer.items) }
    ensures bad { (line : ℕ) → result ≡ Err (BadLine line) → IsFirstBad (IsOfForm Form.Show) (lines_of input.now) line }
    ensures never { (place : ℕ) → result ≢ Err (Differs place) }
{
    match show(alloc, input) {
        Ok(text) => Ok(text),
        Err(ShowError::Line(line)) => Err(NoAnswer::BadLine(line)),
        Err(ShowError::Memory) => Err(NoAnswer::Memory),
    }
}

/// The report of the script that the bytes spell, in a game from its start.
fn report_of_script(alloc: Global, start: &Start, input: &[u8]) -> Result<Vec<u8>, OutOfMemory>
    requires script { IsScriptOf start.now.setup start.now.saved.items (lines_of input.now) }
    ensures answer { IfOk result (λ report. IsAnswer Form.Run (lines_of input.now) report.items) }
{
    let mut play = play_script(alloc, start, input, true)?;
    let report = report_of(alloc, &mut play)?;
    Ok(report)
}

/// Tells the first bad line, and answers the status for it. A fault of the sink leaves that status.
fn refused<K: Sink>(alloc: Global, sink: &mut K, line: u32) -> u8
    ensures status { (result ≡ 3) ⊎ (result ≡ 6) }
    ensures told { result ≡ 3 → Appends (K.held sink.old) (K.held sink.new) (bad_line_text line)
        ⊎ (Rose (K.faults sink.old) (K.faults sink.new) × AppendsPart (K.held sink.old) (K.held sink.new) (bad_line_text line)) }
    ensures unwritten { result ≡ 6 → sink.new ≡ sink.old }
{
    let Ok(text) = bad_line_text(alloc, line) else {
        return NO_MEMORY;
    };
    match write_all(sink, &text) {
        Ok(()) => BAD_INPUT,
        Err(_) => BAD_INPUT,
    }
}

/// What is written of the first bad line.
fn bad_line_text(alloc: Global, line: u32) -> Result<Vec<u8>, OutOfMemory>
    ensures text { IfOk result (λ text. text.items ≡ bad_line_text line) }
{
    let mut text = Vec::new(alloc);
    put(&mut text, b"script: line ")?;
    put_number(&mut text, line)?;
    put(&mut text, b"\n")?;
    Ok(text)
}

/// Tells the first place where the report is not as expected, and answers the status for it. A fault of the sink leaves
/// that status.
fn differing<K: Sink>(alloc: Global, sink: &mut K, place: u32) -> u8
    ensures status { (result ≡ 1) ⊎ (result ≡ 6) }
    ensures told { result ≡ 1 → Appends (K.held sink.old) (K.held sink.new) (differs_text place)
        ⊎ (Rose (K.faults sink.old) (K.faults sink.new) × AppendsPart (K.held sink.old) (K.held sink.new) (differs_text place)) }
    ensures unwritten { result ≡ 6 → sink.new ≡ sink.old }
{
    let Ok(text) = differs_text(alloc, place) else {
        return NO_MEMORY;
    };
    match write_all(sink, &text) {
        Ok(()) => DIFFERS,
        Err(_) => DIFFERS,
    }
}

/// What is written of the first place where the report is not as expected.
fn differs_text(alloc: Global, place: u32) -> Result<Vec<u8>, OutOfMemory>
    ensures text { IfOk result (λ text. text.items ≡ differs_text place) }
{
    let mut text = Vec::new(alloc);
    put(&mut text, b"differs at line ")?;
    put_number(&mut text, place)?;
    put(&mut text, b"\n")?;
    Ok(text)
}
