//! One line of a script, read from its words.
ghost use Rattle.std.specs.Prelude.{◌≡◌};
ghost use Rattle.tt_log.specs.Rows.{LineRead, row_at, pick};
ghost use Rattle.tt_log.specs.Reading.{lines, step_at, sets, pieces, shuts, ticks, joins, ups, downs, runs, pumps, acts, forges, expects};

use crate::script::bad::NoLine;
use crate::script::bytes::Bytes;
use crate::script::line::Line1;
use crate::script::order_reading::order_of;
use crate::script::setting_reading::setting_of;
use crate::script::step::Step;
use crate::script::values::{any, bytes, name, number, number8, password};
use crate::script::words::Words;
use std::alloc::Global;

/// The most ticks of one line.
const MOST_TICKS: u32 = 1_000_000;

/// What a text without line feed says.
pub fn step_of(alloc: Global, text: &[u8]) -> Result<Step, NoLine>
    ensures { LineRead result (step_at text.now) }
{
    let mut words = Words::new(text);
    let Some(word) = words.word() else {
        return Err(NoLine::Bad);
    };
    line_of(alloc, word, &mut words)
}

/// The line that begins with that word.
fn line_of(alloc: Global, word: &[u8], words: &mut Words) -> Result<Step, NoLine>
    ensures { LineRead result (row_at (pick lines word.now) words.old) }
{
    match word {
        w if w == b"set".as_slice() => set(alloc, words),
        w if w == b"open".as_slice() => words.ended(Step::Line(Line1::Open)),
        w if w == b"side".as_slice() => words.ended(Step::Line(Line1::Side)),
        w if w == b"bytes".as_slice() => piece(alloc, words),
        w if w == b"shut".as_slice() => shut(words),
        w if w == b"tick".as_slice() => tick(words),
        w if w == b"stop".as_slice() => words.ended(Step::Line(Line1::Stop)),
        w if w == b"join".as_slice() => join(alloc, words),
        w if w == b"up".as_slice() => up(words),
        w if w == b"down".as_slice() => down(words),
        w if w == b"run".as_slice() => run(words),
        w if w == b"pump".as_slice() => pump(words),
        w if w == b"do".as_slice() => act(alloc, words),
        w if w == b"forge".as_slice() => forge(alloc, words),
        w if w == b"=".as_slice() => expected(alloc, words),
        _ => Err(NoLine::Bad),
    }
}

/// A setting.
fn set(alloc: Global, words: &mut Words) -> Result<Step, NoLine>
    ensures { LineRead result (row_at sets words.old) }
{
    let Some(word) = words.word() else {
        return Err(NoLine::Bad);
    };
    setting_of(alloc, word, words)
}

/// A piece of a connection.
fn piece(alloc: Global, words: &mut Words) -> Result<Step, NoLine>
    ensures { LineRead result (row_at pieces words.old) }
{
    let line = Line1::Bytes(any(words)?, bytes(alloc, words)?);
    words.ended(Step::Line(line))
}

/// A connection that is closed.
fn shut(words: &mut Words) -> Result<Step, NoLine>
    ensures { LineRead result (row_at shuts words.old) }
{
    let line = Line1::Shut(any(words)?);
    words.ended(Step::Line(line))
}

/// Ticks.
fn tick(words: &mut Words) -> Result<Step, NoLine>
    ensures { LineRead result (row_at ticks words.old) }
{
    let line = Line1::Tick(number(words, 1, MOST_TICKS)?);
    words.ended(Step::Line(line))
}

/// A client that joins.
fn join(alloc: Global, words: &mut Words) -> Result<Step, NoLine>
    ensures { LineRead result (row_at joins words.old) }
{
    let line = Line1::Join(
        name(alloc, words)?,
        number8(words, 0, 255)?,
        password(alloc, words)?,
        password(alloc, words)?,
    );
    words.ended(Step::Line(line))
}

/// Bytes of a client.
fn up(words: &mut Words) -> Result<Step, NoLine>
    ensures { LineRead result (row_at ups words.old) }
{
    let line = Line1::Up(any(words)?, any(words)?);
    words.ended(Step::Line(line))
}

/// Bytes to a client.
fn down(words: &mut Words) -> Result<Step, NoLine>
    ensures { LineRead result (row_at downs words.old) }
{
    let line = Line1::Down(any(words)?, any(words)?);
    words.ended(Step::Line(line))
}

/// Frames of a client.
fn run(words: &mut Words) -> Result<Step, NoLine>
    ensures { LineRead result (row_at runs words.old) }
{
    let line = Line1::Run(any(words)?, any(words)?);
    words.ended(Step::Line(line))
}

/// All that goes on between a client and the server.
fn pump(words: &mut Words) -> Result<Step, NoLine>
    ensures { LineRead result (row_at pumps words.old) }
{
    let line = Line1::Pump(any(words)?);
    words.ended(Step::Line(line))
}

/// What a client is told to do.
fn act(alloc: Global, words: &mut Words) -> Result<Step, NoLine>
    ensures { LineRead result (row_at acts words.old) }
{
    let conn = any(words)?;
    let Some(word) = words.word() else {
        return Err(NoLine::Bad);
    };
    order_of(alloc, conn, word, words)
}

/// Bytes to a client that aren't of its stream.
fn forge(alloc: Global, words: &mut Words) -> Result<Step, NoLine>
    ensures { LineRead result (row_at forges words.old) }
{
    let line = Line1::Forge(any(words)?, bytes(alloc, words)?);
    words.ended(Step::Line(line))
}

/// An expected line of the report: all that stands behind the blank.
fn expected(alloc: Global, words: &Words) -> Result<Step, NoLine>
    ensures { LineRead result (row_at expects words.now) }
{
    let Some(rest) = words.rest() else {
        return Err(NoLine::Bad);
    };
    let content = Vec::from_slice(alloc, rest)?;
    Ok(Step::Line(Line1::Expect(Bytes::new(content))))
}
