//! What a program's options were given, and the words as `clap` takes them.
ghost use Rattle.std.specs.Prelude.{◌≡◌, ◌≤◌, ℕ, List, IfOk, IfSome, map, option_map};
ghost use Rattle.clap.specs.Words.{found_of, rows_of};
ghost use Rattle.tt_words.specs.Options.{given_for};
ghost use Rattle.tt_words.specs.Values.{Finds, Given, GivenAny, GivenOr, IsNumber, IsWords};

use crate::values::{name_needed, number_or, words_any, words_needed, words_or};
use clap::ArgMatches;
use std::alloc::{AllocError, Global};
use tt_frame::{Line, Name, Text};

/// The words as texts.
pub(crate) fn texts_of<'a>(alloc: Global, words: &'a [Line]) -> Result<Vec<&'a str>, AllocError>
    ensures { IfOk result (λ texts. map (λ text. text.now) texts.items ≡ words.entry.now) }
{
    let mut texts = Vec::new(alloc);
    for word in words {
        texts.push(text_of(word))?;
    }
    Ok(texts)
}

/// A word as a text.
fn text_of(word: &Line) -> &str
    ensures { result.now ≡ word.now }
{
    match str::from_utf8(word.bytes()) {
        Ok(text) => text,
        Err(_) => unreachable!(),
    }
}

/// What was given for an option.
fn given<'a>(matches: &ArgMatches<'a>, name: &str) -> Option<&'a str>
    ensures { option_map (λ text. text.now) result ≡ given_for name.now (rows_of (found_of matches.now)) }
{
    matches.get_str(name)
}

/// The number that was given for an option, or the default.
pub(crate) fn number(
    matches: &ArgMatches<'_>,
    name: &str,
    least: u32,
    most: u32,
    default: u32,
) -> Option<u32>
    requires within { default ≤ most }
    ensures found { Finds (GivenOr (IsNumber least most) default (given_for name.now (rows_of (found_of matches.now)))) result }
    ensures most { IfSome result (λ number. number ≤ most) }
{
    number_or(given(matches, name), least, most, default)
}

/// The text that was given for an option, or the default.
pub(crate) fn text<const N: usize>(
    matches: &ArgMatches<'_>,
    name: &str,
    least: usize,
    most: usize,
    default: Text<N>,
) -> Option<Text<N>>
    requires fits { most ≤ N }
    ensures { Finds (GivenOr (IsWords least most) default.entry (given_for name.now (rows_of (found_of matches.now)))) result }
{
    words_or(given(matches, name), least, most, default)
}

/// The text that was given for an option that is needed.
pub(crate) fn needed_text<const N: usize>(
    matches: &ArgMatches<'_>,
    name: &str,
    least: usize,
    most: usize,
) -> Option<Text<N>>
    requires fits { most ≤ N }
    ensures { Finds (Given (IsWords least most) (given_for name.now (rows_of (found_of matches.now)))) result }
{
    words_needed(given(matches, name), least, most)
}

/// The text that was given for an option, if one was. None where it is out of range.
pub(crate) fn any_text<const N: usize>(
    matches: &ArgMatches<'_>,
    name: &str,
    least: usize,
    most: usize,
) -> Option<Option<Text<N>>>
    requires fits { most ≤ N }
    ensures { Finds (GivenAny (IsWords least most) (given_for name.now (rows_of (found_of matches.now)))) result }
{
    words_any(given(matches, name), least, most)
}

/// The name of a player that was given for an option that is needed.
pub(crate) fn needed_name(matches: &ArgMatches<'_>, name: &str) -> Option<Name>
    ensures { Finds (Given (IsWords 1 24) (given_for name.now (rows_of (found_of matches.now)))) result }
{
    name_needed(given(matches, name))
}
