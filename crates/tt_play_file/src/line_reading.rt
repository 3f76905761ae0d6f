//! One line of the player's file, read from its words.
ghost use Rattle.std.specs.Prelude.{◌≡◌};
ghost use Rattle.tt_log.specs.Rows.{LineRead};
ghost use Rattle.tt_play_file.specs.Reading.{line_at, act_at, timed, timed_line};

use crate::line::{Act, TimedLine};
use std::alloc::Global;
use tt_log::script::bad::NoLine;
use tt_log::script::order_reading::order_of;
use tt_log::script::values::any;
use tt_log::script::words::Words;
use tt_log::{Line1, Step};

/// What a text without line feed says.
pub(crate) fn line_of(alloc: Global, text: &[u8]) -> Result<TimedLine, NoLine>
    ensures { LineRead result (line_at text.now) }
{
    let mut words = Words::new(text);
    let Some(word) = words.word() else {
        return Err(NoLine::Bad);
    };
    if word != b"at".as_slice() {
        return Err(NoLine::Bad);
    }
    let at = any(&mut words)?;
    let Some(act) = words.word() else {
        return Err(NoLine::Bad);
    };
    act_of(alloc, at, act, &mut words)
}

/// The line of that frame that goes on with that word.
fn act_of(alloc: Global, at: u32, word: &[u8], words: &mut Words) -> Result<TimedLine, NoLine>
    ensures { LineRead result (act_at at word.now words.old) }
{
    if word == b"print".as_slice() {
        return words.ended(TimedLine {
            at,
            act: Act::Print,
        });
    }
    if word == b"quit".as_slice() {
        return words.ended(TimedLine { at, act: Act::Quit });
    }
    let step = order_of(alloc, at, word, words)?;
    timed(step)
}

/// What a script would say to the client of that number, at the frame of that number.
fn timed(step: Step) -> Result<TimedLine, NoLine>
    ensures { LineRead result (timed step) }
{
    match step {
        Step::Line(line) => timed_line(line),
        Step::Set(_setting) => Err(NoLine::Bad),
        Step::Saved(_map) => Err(NoLine::Bad),
    }
}

/// The same of a line behind the settings.
fn timed_line(line: Line1) -> Result<TimedLine, NoLine>
    ensures { LineRead result (timed_line line) }
{
    match line {
        Line1::Do(at, command) => Ok(TimedLine {
            at,
            act: Act::Do(command),
        }),
        _other => Err(NoLine::Bad),
    }
}
