//! The words of the coordinator.
ghost use Rattle.std.specs.Prelude.{◌≡◌, ℕ, List, IfOk, Err};
ghost use Rattle.clap.specs.Words.{found_of, rows_of};
ghost use Rattle.tt_words.specs.Values.{Finds};
ghost use Rattle.tt_words.specs.Forms.{CoordinatorMeans, IsCoordinatorForm, CoordinatorFits};

use crate::command::{WordsError, parsed};
use crate::options::{any_text, number, texts_of};
use crate::program::Program;
use crate::values::found;
use clap::ArgMatches;
use std::alloc::Global;
use tt_frame::Line;

/// What the words of the coordinator say.
#[derive(Debug, PartialEq, Eq, Drop)]
pub struct CoordinatorWords {
    /// The first random word.
    pub first: u32,
    /// The second random word.
    pub second: u32,
    /// The TURN server that peers are told, of 1 to 31 bytes; none where there is no such way.
    pub turn: Option<Line>,
}

/// What the words behind the coordinator's addresses say.
pub fn coordinator_words(alloc: Global, args: &[Line]) -> Result<CoordinatorWords, WordsError>
    ensures ok { IfOk result (λ words. IsCoordinatorForm args.now words) }
    ensures fits { IfOk result (λ words. CoordinatorFits words) }
    ensures bad { result ≡ Err WordsError.Bad → (words : CoordinatorWords) → IsCoordinatorForm args.now words → ⊥ }
{
    let Ok(texts) = texts_of(alloc, args) else {
        return Err(WordsError::Memory);
    };
    match parsed(alloc, Program::Coordinator, texts.as_slice()) {
        Err(error) => Err(error),
        Ok(matches) => found(coordinator_of(&matches)),
    }
}

/// What was given for the options, with the default of each that wasn't. None where a value is out of range.
fn coordinator_of(matches: &ArgMatches<'_>) -> Option<CoordinatorWords>
    ensures { Finds (CoordinatorMeans (rows_of (found_of matches.now))) result }
{
    let first = number(matches, "first", 0, u32::MAX, 0)?;
    let second = number(matches, "second", 0, u32::MAX, 0)?;
    let turn = any_text(matches, "turn", 1, 31)?;
    Some(CoordinatorWords {
        first,
        second,
        turn,
    })
}
