//! What the text of an option means.
ghost use Rattle.std.specs.Prelude.{◌≡◌, ◌≤◌, ℕ, List, [], Some, IfSome, option_map, length, codes};
ghost use Rattle.tt_words.specs.Found.{result_of};
ghost use Rattle.tt_words.specs.Values.{Finds, Given, GivenAny, GivenOr, IsNumber, IsWords};

use crate::command::WordsError;
use tt_frame::{Name, Short, Text};
use tt_lines::number_of;

/// The number that the text means, from the least to the most.
fn number_in(text: &str, least: u32, most: u32) -> Option<u32>
    ensures { Finds (IsNumber least most text.now) result }
{
    let number = number_of(text.as_bytes())?;
    if least <= number && number <= most {
        Some(number)
    } else {
        None
    }
}

/// The number that was given, or the default.
pub(crate) fn number_or(given: Option<&str>, least: u32, most: u32, default: u32) -> Option<u32>
    requires within { default ≤ most }
    ensures found { Finds (GivenOr (IsNumber least most) default (option_map (λ text. text.now) given.entry)) result }
    ensures most { IfSome result (λ number. number ≤ most) }
{
    match given {
        None => Some(default),
        Some(text) => number_in(text, least, most),
    }
}

/// The text, where its length is from the least to the most.
fn words_in<const N: usize>(text: &str, least: usize, most: usize) -> Option<Text<N>>
    requires fits { most ≤ N }
    ensures { Finds (IsWords least most text.now) result }
{
    if text.len() < least || most < text.len() {
        return None;
    }
    Text::new(text.as_bytes())
}

/// The text that was given, or the default.
pub(crate) fn words_or<const N: usize>(
    given: Option<&str>,
    least: usize,
    most: usize,
    default: Text<N>,
) -> Option<Text<N>>
    requires fits { most ≤ N }
    ensures { Finds (GivenOr (IsWords least most) default.entry (option_map (λ text. text.now) given.entry)) result }
{
    match given {
        None => Some(default),
        Some(text) => words_in(text, least, most),
    }
}

/// The text that has to be given.
pub(crate) fn words_needed<const N: usize>(
    given: Option<&str>,
    least: usize,
    most: usize,
) -> Option<Text<N>>
    requires fits { most ≤ N }
    ensures { Finds (Given (IsWords least most) (option_map (λ text. text.now) given.entry)) result }
{
    match given {
        None => None,
        Some(text) => words_in(text, least, most),
    }
}

/// The text, if one was given. None where it is out of range.
pub(crate) fn words_any<const N: usize>(
    given: Option<&str>,
    least: usize,
    most: usize,
) -> Option<Option<Text<N>>>
    requires fits { most ≤ N }
    ensures { Finds (GivenAny (IsWords least most) (option_map (λ text. text.now) given.entry)) result }
{
    match given {
        None => Some(None),
        Some(text) => some_words(text, least, most),
    }
}

/// The text as one that was given.
fn some_words<const N: usize>(text: &str, least: usize, most: usize) -> Option<Option<Text<N>>>
    requires fits { most ≤ N }
    ensures { Finds (GivenAny (IsWords least most) (Some text.now)) result }
{
    match words_in(text, least, most) {
        None => None,
        Some(words) => Some(Some(words)),
    }
}

/// The name of a player that has to be given.
pub(crate) fn name_needed(given: Option<&str>) -> Option<Name>
    ensures { Finds (Given (IsWords 1 24) (option_map (λ text. text.now) given.entry)) result }
{
    match given {
        None => None,
        Some(text) => name_in(text),
    }
}

/// The text as the name of a player: 1 to 24 bytes.
fn name_in(text: &str) -> Option<Name>
    ensures { Finds (IsWords 1 24 text.now) result }
{
    if text.len() > 24 {
        return None;
    }
    Name::new(text.as_bytes())
}

/// The empty text.
pub(crate) fn no_text<const N: usize>() -> Text<N>
    ensures { result ≡ [] }
{
    match Text::new(b"") {
        Some(text) => text,
        None => unreachable!(),
    }
}

/// The name that an admin's client tells of itself, where it is given none.
pub(crate) fn usual_name() -> Short
    ensures { result ≡ codes "tt" }
{
    match Text::new(b"tt") {
        Some(name) => name,
        None => unreachable!(),
    }
}

/// What was found, or else that the words are bad.
pub(crate) fn found<T: Drop>(value: Option<T>) -> Result<T, WordsError>
    ensures { result ≡ result_of value }
{
    match value {
        Some(value) => Ok(value),
        None => Err(WordsError::Bad),
    }
}
