//! The words behind `do C`: what a client is told to do.
ghost use Rattle.std.specs.Prelude.{◌≡◌, []};
ghost use Rattle.tt_log.specs.Rows.{LineRead, row_at, pick};
ghost use Rattle.tt_log.specs.Reading.{orders, money, giving, placing, naming};

use crate::script::bad::NoLine;
use crate::script::line::Line1;
use crate::script::step::Step;
use crate::script::values::{any, number8, short};
use crate::script::words::Words;
use std::alloc::Global;
use tt_frame::Short;
use tt_world::{Code, Command};

/// The empty text.
fn no_text() -> Short
    ensures { result ≡ [] }
{
    match Short::new(b"") {
        Some(text) => text,
        None => unreachable!(),
    }
}

/// A command with a sum of money.
fn sum(conn: u32, code: Code, words: &mut Words) -> Result<Step, NoLine>
    ensures { LineRead result (row_at (money conn code) words.old) }
{
    let command = Command {
        code,
        number: any(words)?,
        to: 0,
        text: no_text(),
    };
    words.ended(Step::Line(Line1::Do(conn, command)))
}

/// A gift: a sum of money and the company that gets it.
fn gift(conn: u32, words: &mut Words) -> Result<Step, NoLine>
    ensures { LineRead result (row_at (giving conn) words.old) }
{
    let command = Command {
        code: Code::Give,
        number: any(words)?,
        to: number8(words, 0, 255)?,
        text: no_text(),
    };
    words.ended(Step::Line(Line1::Do(conn, command)))
}

/// A sign: its tile or its id, and what it says.
fn sign(alloc: Global, conn: u32, code: Code, words: &mut Words) -> Result<Step, NoLine>
    ensures { LineRead result (row_at (placing conn code) words.old) }
{
    let command = Command {
        code,
        number: any(words)?,
        to: 0,
        text: short(alloc, words)?,
    };
    words.ended(Step::Line(Line1::Do(conn, command)))
}

/// A new name.
fn naming_of(alloc: Global, conn: u32, code: Code, words: &mut Words) -> Result<Step, NoLine>
    ensures { LineRead result (row_at (naming conn code) words.old) }
{
    let command = Command {
        code,
        number: 0,
        to: 0,
        text: short(alloc, words)?,
    };
    words.ended(Step::Line(Line1::Do(conn, command)))
}

/// The line that begins with that word.
pub fn order_of(alloc: Global, conn: u32, word: &[u8], words: &mut Words) -> Result<Step, NoLine>
    ensures { LineRead result (row_at (pick (orders conn) word.now) words.old) }
{
    match word {
        w if w == b"loan".as_slice() => sum(conn, Code::IncreaseLoan, words),
        w if w == b"repay".as_slice() => sum(conn, Code::DecreaseLoan, words),
        w if w == b"give".as_slice() => gift(conn, words),
        w if w == b"sign".as_slice() => sign(alloc, conn, Code::PlaceSign, words),
        w if w == b"resign".as_slice() => sign(alloc, conn, Code::RenameSign, words),
        w if w == b"company".as_slice() => naming_of(alloc, conn, Code::RenameCompany, words),
        w if w == b"president".as_slice() => naming_of(alloc, conn, Code::RenamePresident, words),
        _ => Err(NoLine::Bad),
    }
}
