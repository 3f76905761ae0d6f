//! Words read by `clap`, as a table of options says.
ghost use Rattle.std.specs.Prelude.{◌≡◌, ◌<◌, ◌↔◌, ℕ, List, All, Err, IfOk, IsTrue, false, length, map, true};
ghost use Rattle.clap.specs.Words.{app_of, found_of, kind_of, rows_of, rule_of};
ghost use Rattle.tt_words.specs.Options.{AreTaken, IsFaultless, command_for, command_of, is_read, option_named, rows_given, with_options};

use crate::program::{Program, needs_of, others_of};
use clap::error::ErrorKind;
use clap::{Arg, ArgAction, ArgMatches, Command, Error};
use std::alloc::{AllocError, Global};

/// Why words can't be read.
#[derive(Clone, Copy, Debug, PartialEq, Eq)]
pub enum WordsError {
    /// They are in none of the program's forms.
    Bad,
    /// Out of memory.
    Memory,
}

/// The option `--name`, which takes a value.
fn option<'a>(alloc: Global, name: &'a str, needed: bool) -> Arg<'a>
    ensures rule { rule_of result ≡ option_named needed name.entry.now }
    ensures alone { result.global ≡ false }
{
    Arg::new(alloc, name)
        .long(name)
        .action(ArgAction::Set)
        .required(needed)
}

/// The command with an option more for each name.
fn with_names<'a>(
    alloc: Global,
    mut command: Command<'a>,
    needed: bool,
    names: &[&'a str],
) -> Result<Command<'a>, AllocError>
    ensures { IfOk result (λ made. app_of made ≡ with_options needed (map (λ name. name.now) names.now) (app_of command.entry)) }
{
    for name in names {
        command = command.arg(option(alloc, name, needed))?;
    }
    Ok(command)
}

/// The command with these options.
fn command_with<'a>(
    alloc: Global,
    needed: &[&'a str],
    others: &[&'a str],
) -> Result<Command<'a>, AllocError>
    ensures { IfOk result (λ made. app_of made ≡ command_of (map (λ name. name.now) needed.now) (map (λ name. name.now) others.now)) }
{
    let bare = Command::new(alloc, "words")
        .no_binary_name(true)
        .disable_help_flag(true);
    let first = with_names(alloc, bare, true, needed)?;
    with_names(alloc, first, false, others)
}

/// The command of a program.
fn command_for<'a>(alloc: Global, program: Program) -> Result<Command<'a>, AllocError>
    ensures { IfOk result (λ made. app_of made ≡ command_for program) }
{
    command_with(alloc, needs_of(program), others_of(program))
}

/// What was given for the options of a program.
pub(crate) fn parsed<'a>(
    alloc: Global,
    program: Program,
    words: &'a [&'a str],
) -> Result<ArgMatches<'a>, WordsError>
    ensures taken { IfOk result (λ _. AreTaken program (map (λ word. word.now) words.entry.now)) }
    ensures rows { IfOk result (λ matches. rows_of (found_of matches)
        ≡ rows_given (command_for program) (map (λ word. word.now) words.entry.now)) }
    ensures bad { result ≡ Err WordsError.Bad → AreTaken program (map (λ word. word.now) words.entry.now) → ⊥ }
{
    if are_whole(words) {
        matched(alloc, program, words)
    } else {
        Err(WordsError::Bad)
    }
}

/// What `clap` finds in the words.
fn matched<'a>(
    alloc: Global,
    program: Program,
    words: &'a [&'a str],
) -> Result<ArgMatches<'a>, WordsError>
    ensures taken { IfOk result (λ _. IsFaultless (command_for program) (map (λ word. word.now) words.entry.now)) }
    ensures rows { IfOk result (λ matches. rows_of (found_of matches)
        ≡ rows_given (command_for program) (map (λ word. word.now) words.entry.now)) }
    ensures bad { result ≡ Err WordsError.Bad → IsFaultless (command_for program) (map (λ word. word.now) words.entry.now) → ⊥ }
{
    let Ok(command) = command_for(alloc, program) else {
        return Err(WordsError::Memory);
    };
    match command.try_get_matches_from(words) {
        Ok(matches) => Ok(matches),
        Err(error) => Err(cause_of(&error)),
    }
}

/// Whether no word is empty.
fn are_whole(words: &[&str]) -> bool
    ensures { IsTrue result ↔ All (λ word. 0 < length word.now) words.now }
{
    words.iter().all(|word| !word.is_empty())
}

/// Why `clap` refused.
fn cause_of(error: &Error) -> WordsError
    ensures memory { (result ≡ WordsError.Memory) ↔ (kind_of error.now ≡ ErrorKind.OutOfMemory) }
{
    match error.kind() {
        ErrorKind::OutOfMemory => WordsError::Memory,
        _ => WordsError::Bad,
    }
}
