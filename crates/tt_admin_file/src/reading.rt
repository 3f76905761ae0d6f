//! One line of a command file, read from its words.
ghost use Rattle.std.specs.Prelude.{◌≡◌, ℕ, IfOk};
ghost use Rattle.tt_log.specs.Rows.{LineRead, WordRead, BytesRead, row_at, pick, text_at, text_in, hex_in};
ghost use Rattle.tt_admin_file.specs.Reading.{lines, line_at, pings, updates, polls, chats, rcons, waits};

use crate::command::Command;
use std::alloc::Global;
use tt_frame::LongText;
use tt_lines::piece_of;
use tt_log::script::Bytes;
use tt_log::script::bad::NoLine;
use tt_log::script::values::{any, number8, number16};
use tt_log::script::words::Words;

/// What a text without line feed says.
pub fn line_of(alloc: Global, text: &[u8]) -> Result<Command, NoLine>
    ensures { LineRead result (line_at text.now) }
{
    let mut words = Words::new(text);
    let Some(word) = words.word() else {
        return Err(NoLine::Bad);
    };
    command_of(alloc, word, &mut words)
}

/// The line that begins with that word.
fn command_of(alloc: Global, word: &[u8], words: &mut Words) -> Result<Command, NoLine>
    ensures { LineRead result (row_at (pick lines word.now) words.old) }
{
    match word {
        w if w == b"ping".as_slice() => ping(words),
        w if w == b"update".as_slice() => update(words),
        w if w == b"poll".as_slice() => poll(words),
        w if w == b"chat".as_slice() => chat(alloc, words),
        w if w == b"rcon".as_slice() => rcon(alloc, words),
        w if w == b"wait".as_slice() => wait(words),
        w if w == b"quit".as_slice() => words.ended(Command::Quit),
        _ => Err(NoLine::Bad),
    }
}

/// A ping.
fn ping(words: &mut Words) -> Result<Command, NoLine>
    ensures { LineRead result (row_at pings words.old) }
{
    let line = Command::Ping(any(words)?);
    words.ended(line)
}

/// A wish to be told.
fn update(words: &mut Words) -> Result<Command, NoLine>
    ensures { LineRead result (row_at updates words.old) }
{
    let line = Command::Update(number16(words, 0, 65535)?, number16(words, 0, 65535)?);
    words.ended(line)
}

/// A question.
fn poll(words: &mut Words) -> Result<Command, NoLine>
    ensures { LineRead result (row_at polls words.old) }
{
    let line = Command::Poll(number8(words, 0, 255)?, any(words)?);
    words.ended(line)
}

/// A line for all.
fn chat(alloc: Global, words: &mut Words) -> Result<Command, NoLine>
    ensures { LineRead result (row_at chats words.old) }
{
    let line = Command::Chat(text(alloc, words)?);
    words.ended(line)
}

/// A line for the console.
fn rcon(alloc: Global, words: &mut Words) -> Result<Command, NoLine>
    ensures { LineRead result (row_at rcons words.old) }
{
    let line = Command::Rcon(text(alloc, words)?);
    words.ended(line)
}

/// Ticks that are waited.
fn wait(words: &mut Words) -> Result<Command, NoLine>
    ensures { LineRead result (row_at waits words.old) }
{
    let line = Command::Wait(any(words)?);
    words.ended(line)
}

/// The bytes that a word spells in hexadecimal digits.
fn hex_of(alloc: Global, word: &[u8]) -> Result<Bytes, NoLine>
    ensures read { BytesRead result (hex_in word.now) }
{
    match piece_of(alloc, word)? {
        Some(piece) => Ok(Bytes::new(piece)),
        None => Err(NoLine::Bad),
    }
}

/// The bytes of a text: digits, or a dash for none.
#[tactic(auto, unfolding(tt_log::specs::Rows::text_in))]
fn text_of(alloc: Global, word: &[u8]) -> Result<Bytes, NoLine>
    ensures read { BytesRead result (text_in word.now) }
{
    if word == b"-".as_slice() {
        return Ok(Bytes::new(Vec::new(alloc)));
    }
    hex_of(alloc, word)
}

/// A text of at most 899 bytes.
#[tactic(auto, unfolding(tt_log::specs::Rows::text_at))]
fn text(alloc: Global, words: &mut Words) -> Result<LongText<899>, NoLine>
    ensures read { WordRead (λ t. t) result words.new (text_at 0 899 words.old) }
{
    let Some(word) = words.word() else {
        return Err(NoLine::Bad);
    };
    let bytes = text_of(alloc, word)?;
    match LongText::new(alloc, bytes.bytes())? {
        Some(text) => Ok(text),
        None => Err(NoLine::Bad),
    }
}
