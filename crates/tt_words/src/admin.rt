//! The words of the admin's client.
ghost use Rattle.std.specs.Prelude.{◌≡◌, ℕ, List, IfOk, Err};
ghost use Rattle.clap.specs.Words.{found_of, rows_of};
ghost use Rattle.tt_words.specs.Values.{Finds};
ghost use Rattle.tt_words.specs.Forms.{AdminMeans, IsAdminForm, AdminFits};

use crate::command::{WordsError, parsed};
use crate::options::{needed_text, text, texts_of};
use crate::program::Program;
use crate::values::{found, usual_name};
use clap::ArgMatches;
use std::alloc::Global;
use tt_frame::{Line, Short, Text};

/// What the words of the admin's client say.
#[derive(Debug, PartialEq, Eq, Drop)]
pub struct AdminWords {
    /// The admins' password.
    pub password: Text<32>,
    /// The name that it tells of itself: 1 to 31 bytes.
    pub name: Short,
}

/// What the words behind the admin's address and command file say.
pub fn admin_words(alloc: Global, args: &[Line]) -> Result<AdminWords, WordsError>
    ensures ok { IfOk result (λ words. IsAdminForm args.now words) }
    ensures fits { IfOk result (λ words. AdminFits words) }
    ensures bad { result ≡ Err WordsError.Bad → (words : AdminWords) → IsAdminForm args.now words → ⊥ }
{
    let Ok(texts) = texts_of(alloc, args) else {
        return Err(WordsError::Memory);
    };
    match parsed(alloc, Program::Admin, texts.as_slice()) {
        Err(error) => Err(error),
        Ok(matches) => found(admin_of(&matches)),
    }
}

/// What was given for the options, with the default of the name. None where a value is out of range.
fn admin_of(matches: &ArgMatches<'_>) -> Option<AdminWords>
    ensures { Finds (AdminMeans (rows_of (found_of matches.now))) result }
{
    let password = needed_text(matches, "password", 0, 32)?;
    let name = text(matches, "name", 1, 31, usual_name())?;
    Some(AdminWords { password, name })
}
