//! A reader of a script, one line after the other.
//!
//! It keeps no line: only what is left of the bytes, and what decides whether a line may stand there. `next` gives the
//! next line, `None` behind the last one, or the number of the line that is no script line in its place. After an error
//! the reader stands as before, so the same line gives the same answer.
ghost use Rattle.std.specs.Prelude.{◌≡◌, ◌<◌, ◌≤◌, ◌+◌, ◌∷◌, ◌++◌, [], suc, ℕ, List, length, IfOk, IfSome, IfNone, OnErr};
ghost use Rattle.std.specs.Prelude.{MatchOption, Err, codes};
ghost use Rattle.tt_lines.specs.Lines.{IsFirstBad, lines_of};
ghost use Rattle.tt_log.specs.Steps.{step_place, opens};
ghost use Rattle.tt_log.specs.Script.{IsScriptText};
ghost use Rattle.tt_log.specs.Reader.{IsAt, MayFollow};
ghost use Rattle.tt_log.specs.declared.script.step.Step.{Step as Said};
ghost use Rattle.tt_log.specs.declared.script.bad.ScriptBad.TheVariants as bad;

use crate::script::bad::{NoLine, ScriptBad};
use crate::script::line_reading::step_of;
use crate::script::step::Step;
use std::alloc::Global;
use std::marker::Model;
use tt_lines::first_line;

/// The most connections that a script may open.
const MOST_OPENINGS: u32 = 65_535;

/// The place behind those of all settings.
const MAP: u8 = 12;

/// The place behind that of a line, where no setting and no map may follow.
const NO_SETTING: u8 = 14;

/// A reader of the lines of a script.
///
/// Contracts see what is left, how many lines were read, which settings may still come, and how many connections were
/// opened.
#[derive(Debug, Drop)]
pub struct ScriptReader<'a> {
    rest: &'a [u8],
    count: u32,
    place: u8,
    openings: u32,
}

impl<'a> Model for ScriptReader<'a> {
    ghost use Rattle.std.specs.Prelude.{◌≤◌};
    ghost use Rattle.tt_log.specs.Standing.{Standing, standing_code};

    ghost Value = { Standing };

    ghost coded = { standing_code };

    ghost view = { λ r. record { rest = r.rest.now; count = r.count; place = r.place; openings = r.openings } };

    ghost invariant = { λ r. r.openings ≤ 65535 };
}

impl<'a> ScriptReader<'a> {
    /// A reader of all lines.
    pub fn new(bytes: &'a [u8]) -> ScriptReader<'a>
        ensures start { IsAt result bytes.now [] }
    {
        ScriptReader {
            rest: bytes,
            count: 0,
            place: 0,
            openings: 0,
        }
    }

    /// The next line, or `None` behind the last one.
    pub fn next(&mut self, alloc: Global) -> Result<Option<Step>, ScriptBad>
        // A line was read, and what stands so far is a script.
        ensures step { (bytes : List ℕ) (steps : List Said) → IsAt self.old bytes steps
            → IfOk result (λ found. IfSome found (λ step. IsAt self.new bytes (steps ++ step ∷ []))) }
        ensures shorter { IfOk result (λ found. IfSome found (λ step. length self.new.rest < length self.old.rest)) }

        // Nothing is left.
        ensures end { IfOk result (λ found. IfNone found ((self.old.rest ≡ []) × (self.new ≡ self.old))) }

        // The line, which is the next one, is the first with which what stands so far is no script.
        ensures bad { (bytes : List ℕ) (steps : List Said) (l : ℕ) → IsAt self.old bytes steps → result ≡ Err (bad.Line l)
            → IsFirstBad IsScriptText (lines_of bytes) l }
        ensures here { (l : ℕ) → result ≡ Err (bad.Line l) → l ≡ self.old.count + 1 }
        ensures err { OnErr result (self.new ≡ self.old) }
    {
        if self.rest.is_empty() {
            return Ok(None);
        }
        let (text, after) = first_line(self.rest);
        let Some(count) = self.count.checked_add(1) else {
            return Err(ScriptBad::Memory);
        };
        let step = match step_of(alloc, text) {
            Ok(step) => step,
            Err(NoLine::Bad) => return Err(ScriptBad::Line(count)),
            Err(NoLine::Memory) => return Err(ScriptBad::Memory),
        };
        let Some((place, openings)) = behind(self.place, self.openings, &step) else {
            return Err(ScriptBad::Line(count));
        };
        self.rest = after;
        self.count = count;
        self.place = place;
        self.openings = openings;
        Ok(Some(step))
    }
}

/// The place and the openings behind a step, where it may stand there.
fn behind(place: u8, openings: u32, step: &Step) -> Option<(u8, u32)>
    requires { openings ≤ 65535 }
    ensures place { IfSome result (λ p. p.0 ≡ suc (step_place step.now)) }
    ensures openings { IfSome result (λ p. p.1 ≡ openings + opens step.now) }
    ensures few { IfSome result (λ p. (p.0 ≤ 14) × (p.1 ≤ 65535)) }
    ensures may { IfSome result (λ _. MayFollow place openings step.now) }
    ensures none { IfNone result (MayFollow place openings step.now → ⊥) }
{
    match step {
        Step::Set(setting) => {
            let own = setting.place();
            if own < place {
                return None;
            }
            Some((own + 1, openings))
        }
        Step::Saved(_) => {
            if place > MAP {
                return None;
            }
            Some((MAP + 1, openings))
        }
        Step::Line(line) => {
            let all = openings + line.openings();
            if all > MOST_OPENINGS {
                return None;
            }
            Some((NO_SETTING, all))
        }
    }
}
