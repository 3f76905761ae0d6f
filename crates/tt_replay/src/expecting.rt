//! The report of a script beside the lines that the script expects of it.
ghost use Rattle.std.specs.Prelude.{◌≡◌, ◌≢◌, ◌+◌, ◌∷◌, ◌++◌, [], ℕ, List, length, IfOk, IfSome, IfNone};
ghost use Rattle.tt_lines.specs.Lines.{lines_of};
ghost use Rattle.tt_log.specs.Contents.{Contents};
ghost use Rattle.tt_log.specs.Script.{Spells, IsScriptText};
ghost use Rattle.tt_replay.specs.Expected.{expected_by, expected_in, expected_lines, IsDifference};

use std::alloc::Global;
use tt_frame::OutOfMemory;
use tt_lines::first_line;
use tt_log::{Line1, ScriptBad, ScriptReader, Step};

/// The first place, from 1, where the lines of the report are not those that the script expects, the end of each counted,
/// if there is one. More places than can be counted in 32 bits are answered by want of memory.
pub fn difference(alloc: Global, script: &[u8], report: &[u8]) -> Result<Option<u32>, OutOfMemory>
    requires script { IsScriptText (lines_of script.now) }
    ensures found { (spelled : Contents) → Spells spelled (lines_of script.now)
        → IfOk result (λ place. IsDifference place (lines_of report.now) (expected_lines spelled.lines)) }
{
    let mut reader = ScriptReader::new(script);
    let mut rest = report;
    let mut place = 1u32;
    loop {
        match reader.next(alloc) {
            Ok(Some(step)) => {
                let more = expected_in(&step);
                let Some(after) = behind(step, rest) else {
                    return Ok(Some(place));
                };
                rest = after;
                place = next_place(place, more)?;
            }
            Ok(None) => return Ok(left_at(rest, place)),
            Err(ScriptBad::Line(_)) => unreachable!(),
            Err(ScriptBad::Memory) => return Err(OutOfMemory),
        }
    }
}

/// The place behind so many more.
fn next_place(place: u32, more: u32) -> Result<u32, OutOfMemory>
    ensures next { IfOk result (λ next. next ≡ place + more) }
{
    place.checked_add(more).ok_or(OutOfMemory)
}

/// The place where something of the report is left, if it is.
fn left_at(rest: &[u8], place: u32) -> Option<u32>
    ensures none { IfNone result (rest.now ≡ []) }
    ensures some { IfSome result (λ at. (at ≡ place) × (rest.now ≢ [])) }
{
    if rest.is_empty() { None } else { Some(place) }
}

/// How many lines a line of the script expects, settings included.
fn expected_in(step: &Step) -> u32
    ensures count { result ≡ length (expected_in step.now) }
{
    match step {
        Step::Set(_) | Step::Saved(_) => 0,
        Step::Line(line) => expected_by(line),
    }
}

/// How many lines a line behind the settings expects.
fn expected_by(line: &Line1) -> u32
    ensures count { result ≡ length (expected_by line.now) }
{
    match line {
        Line1::Expect(_) => 1,
        Line1::Open | Line1::Side | Line1::Bytes(_, _) | Line1::Shut(_) | Line1::Tick(_) => 0,
        Line1::Stop | Line1::Join(_, _, _, _) | Line1::Up(_, _) | Line1::Down(_, _) => 0,
        Line1::Run(_, _) | Line1::Pump(_) | Line1::Do(_, _) | Line1::Forge(_, _) => 0,
    }
}

/// What of the report is left behind what a line of the script expects, settings included. None exactly where that is
/// another line than the report's next one, or where there is none.
fn behind<'a>(step: Step, report: &'a [u8]) -> Option<&'a [u8]>
    ensures some { IfSome result (λ rest. lines_of report.now ≡ expected_in step ++ lines_of rest.now) }
    ensures none { IfNone result ((line : List ℕ) × (expected_in step ≡ line ∷ [])
        × ((more : List (List ℕ)) → lines_of report.now ≢ line ∷ more)) }
{
    match step {
        Step::Set(_setting) => Some(report),
        Step::Saved(_map) => Some(report),
        Step::Line(line) => behind_line(&line, report),
    }
}

/// What of the report is left behind what a line behind the settings expects.
fn behind_line<'a>(line: &Line1, report: &'a [u8]) -> Option<&'a [u8]>
    ensures some { IfSome result (λ rest. lines_of report.now ≡ expected_by line.now ++ lines_of rest.now) }
    ensures none { IfNone result ((text : List ℕ) × (expected_by line.now ≡ text ∷ [])
        × ((more : List (List ℕ)) → lines_of report.now ≢ text ∷ more)) }
{
    match line {
        Line1::Expect(text) => behind_text(text.bytes(), report),
        Line1::Open | Line1::Side | Line1::Bytes(_, _) | Line1::Shut(_) | Line1::Tick(_) => {
            Some(report)
        }
        Line1::Stop | Line1::Join(_, _, _, _) | Line1::Up(_, _) | Line1::Down(_, _) => Some(report),
        Line1::Run(_, _) | Line1::Pump(_) | Line1::Do(_, _) | Line1::Forge(_, _) => Some(report),
    }
}

/// What of the report is left behind its next line, where that is this one.
fn behind_text<'a>(text: &[u8], report: &'a [u8]) -> Option<&'a [u8]>
    ensures some { IfSome result (λ rest. lines_of report.now ≡ text.now ∷ lines_of rest.now) }
    ensures none { IfNone result ((more : List (List ℕ)) → lines_of report.now ≢ text.now ∷ more) }
{
    if report.is_empty() {
        return None;
    }
    let (line, rest) = first_line(report);
    if line == text { Some(rest) } else { None }
}
