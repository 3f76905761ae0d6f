//! The values of words: numbers in a range, texts and pieces of a stream.
ghost use Rattle.std.specs.Prelude.{◌≡◌, ◌≤◌, ◌^◌, true, length, IfOk, MatchResult, List, ℕ, []};
ghost use Rattle.tt_frame.specs.Text.{is_text};
ghost use Rattle.tt_map.specs.Reading.{map_in};
ghost use Rattle.tt_log.specs.Rows.{WordRead, BytesRead, number_at, hex_at, text_at, text_in, may_start, saved_at};

use crate::script::bad::NoLine;
use crate::script::bytes::Bytes;
use crate::script::digits::hex_of;
use crate::script::numbers::number_of;
use crate::script::words::Words;
use std::alloc::Global;
use tt_frame::{Line, Name, Short, Text};
use tt_map::{MapBad, decode_map};
use tt_world::LAST_START_DAY;

/// The most bytes of a saved game's map.
const MOST_SAVED: usize = 65_536;

/// A number from `least` to `most`.
#[tactic(auto, unfolding(crate::specs::Rows::number_at))]
pub fn number(words: &mut Words, least: u32, most: u32) -> Result<u32, NoLine>
    ensures read { WordRead (λ n. n) result words.new (number_at least most words.old) }
    ensures range { IfOk result (λ n. (least ≤ n) × (n ≤ most)) }
{
    let Some(word) = words.word() else {
        return Err(NoLine::Bad);
    };
    let Some(n) = number_of(word) else {
        return Err(NoLine::Bad);
    };
    if n < least {
        return Err(NoLine::Bad);
    }
    if n > most {
        return Err(NoLine::Bad);
    }
    Ok(n)
}

/// Any number of 32 bits.
pub fn any(words: &mut Words) -> Result<u32, NoLine>
    ensures read { WordRead (λ n. n) result words.new (number_at 0 4294967295 words.old) }
{
    number(words, 0, u32::MAX)
}

/// Bytes in hexadecimal digits.
#[tactic(auto, unfolding(crate::specs::Rows::hex_at))]
pub fn bytes(alloc: Global, words: &mut Words) -> Result<Bytes, NoLine>
    ensures read { WordRead (λ b. b) result words.new (hex_at words.old) }
{
    let Some(word) = words.word() else {
        return Err(NoLine::Bad);
    };
    hex_of(alloc, word)
}

/// Whether these bytes are the map of a game that may start again.
fn may_start(alloc: Global, map: &[u8]) -> Result<bool, NoLine>
    ensures { MatchResult result (λ yes. yes ≡ may_start (map_in map.now)) (λ bad. bad ≡ NoLine.Memory) }
{
    match decode_map(alloc, map) {
        Ok(world) => Ok(world.day() <= LAST_START_DAY),
        Err(MapBad::Memory) => Err(NoLine::Memory),
        Err(MapBad::Tag(_)) => Ok(false),
        Err(MapBad::Version(_)) => Ok(false),
        Err(MapBad::Chunk { .. }) => Ok(false),
    }
}

/// The map of a saved game, in hexadecimal digits.
#[tactic(auto, unfolding(crate::specs::Rows::saved_at))]
pub fn saved(alloc: Global, words: &mut Words) -> Result<Bytes, NoLine>
    ensures read { WordRead (λ map. map) result words.new (saved_at words.old) }
{
    let map = bytes(alloc, words)?;
    if map.bytes().len() > MOST_SAVED {
        return Err(NoLine::Bad);
    }
    if may_start(alloc, map.bytes())? {
        Ok(map)
    } else {
        Err(NoLine::Bad)
    }
}

/// The bytes of a text: digits, or a dash for none.
#[tactic(auto, unfolding(crate::specs::Rows::text_in))]
fn text_of(alloc: Global, word: &[u8]) -> Result<Bytes, NoLine>
    ensures read { BytesRead result (text_in word.now) }
{
    if word == b"-".as_slice() {
        return Ok(Bytes::new(Vec::new(alloc)));
    }
    hex_of(alloc, word)
}

/// A text of `least` to `N` bytes.
#[tactic(auto, unfolding(crate::specs::Rows::text_at))]
fn text<const N: usize>(alloc: Global, words: &mut Words, least: usize) -> Result<Text<N>, NoLine>
    ensures read { WordRead (λ t. t) result words.new (text_at least N words.old) }
    ensures some { IfOk result (λ t. least ≤ length t) }
{
    let Some(word) = words.word() else {
        return Err(NoLine::Bad);
    };
    let bytes = text_of(alloc, word)?;
    if bytes.bytes().len() < least {
        return Err(NoLine::Bad);
    }
    match Text::new(bytes.bytes()) {
        Some(text) => Ok(text),
        None => Err(NoLine::Bad),
    }
}

/// A short text, empty or not.
pub fn short(alloc: Global, words: &mut Words) -> Result<Short, NoLine>
    ensures read { WordRead (λ t. t) result words.new (text_at 0 31 words.old) }
{
    text(alloc, words, 0)
}

/// A password of at most 32 bytes.
pub fn password(alloc: Global, words: &mut Words) -> Result<Line, NoLine>
    ensures read { WordRead (λ t. t) result words.new (text_at 0 32 words.old) }
{
    let text: Text<32> = text(alloc, words, 0)?;
    match Line::new(text.bytes()) {
        Some(line) => Ok(line),
        None => unreachable!(),
    }
}

/// A client's name of 1 to 24 bytes.
pub fn name(alloc: Global, words: &mut Words) -> Result<Name, NoLine>
    ensures read { WordRead (λ t. t) result words.new (text_at 1 24 words.old) }
{
    let text: Text<24> = text(alloc, words, 1)?;
    match Name::new(text.bytes()) {
        Some(name) => Ok(name),
        None => unreachable!(),
    }
}

/// A number of two bytes from `least` to `most`.
pub fn number16(words: &mut Words, least: u16, most: u16) -> Result<u16, NoLine>
    ensures read { WordRead (λ n. n) result words.new (number_at least most words.old) }
    ensures range { IfOk result (λ n. (least ≤ n) × (n ≤ most)) }
{
    let n = number(words, least as u32, most as u32)?;
    Ok(n as u16)
}

/// A number of one byte from `least` to `most`.
pub fn number8(words: &mut Words, least: u8, most: u8) -> Result<u8, NoLine>
    ensures read { WordRead (λ n. n) result words.new (number_at least most words.old) }
    ensures range { IfOk result (λ n. (least ≤ n) × (n ≤ most)) }
{
    let n = number(words, least as u32, most as u32)?;
    Ok(n as u8)
}
