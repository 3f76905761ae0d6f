//! The words of the player.
ghost use Rattle.std.specs.Prelude.{◌≡◌, ℕ, List, IfOk, Err};
ghost use Rattle.clap.specs.Words.{found_of, rows_of};
ghost use Rattle.tt_words.specs.Values.{Finds};
ghost use Rattle.tt_words.specs.Forms.{IsPlayForm, PlayFits, PlayMeans};

use crate::command::{WordsError, parsed};
use crate::options::{needed_name, number, text, texts_of};
use crate::program::Program;
use crate::values::{found, no_text};
use clap::ArgMatches;
use std::alloc::Global;
use tt_frame::{Line, Name};

/// What the words of the player say.
#[derive(Debug, PartialEq, Eq, Drop)]
pub struct PlayWords {
    /// Its name: 1 to 24 bytes.
    pub name: Name,
    /// The company that it wants: 255 none, 254 a new one.
    pub company: u8,
    /// The game's password, at most 32 bytes.
    pub password: Line,
    /// The company's password, at most 32 bytes.
    pub company_password: Line,
}

/// What the words behind the player's address and command file say.
pub fn play_words(alloc: Global, args: &[Line]) -> Result<PlayWords, WordsError>
    ensures ok { IfOk result (λ words. IsPlayForm args.now words) }
    ensures fits { IfOk result (λ words. PlayFits words) }
    ensures bad { result ≡ Err WordsError.Bad → (words : PlayWords) → IsPlayForm args.now words → ⊥ }
{
    let Ok(texts) = texts_of(alloc, args) else {
        return Err(WordsError::Memory);
    };
    match parsed(alloc, Program::Play, texts.as_slice()) {
        Err(error) => Err(error),
        Ok(matches) => found(play_of(&matches)),
    }
}

/// What was given for the options, with the default of each that wasn't. None where a value is out of range.
fn play_of(matches: &ArgMatches<'_>) -> Option<PlayWords>
    ensures { Finds (PlayMeans (rows_of (found_of matches.now))) result }
{
    let name = needed_name(matches, "name")?;
    let company = number(matches, "company", 0, 255, 255)?;
    let password = text(matches, "password", 0, 32, no_text())?;
    let company_password = text(matches, "company-password", 0, 32, no_text())?;
    Some(PlayWords {
        name,
        company: company as u8,
        password,
        company_password,
    })
}
