//! The words of the server.
ghost use Rattle.std.specs.Prelude.{◌≡◌, ℕ, List, IfOk, Err};
ghost use Rattle.clap.specs.Words.{found_of, rows_of};
ghost use Rattle.tt_world.specs.Setup.{Fits};
ghost use Rattle.tt_words.specs.Values.{Finds};
ghost use Rattle.tt_words.specs.Forms.{IsServerForm, ServerMeans};

use crate::command::{WordsError, parsed};
use crate::options::{any_text, number, text, texts_of};
use crate::program::Program;
use crate::values::{found, no_text};
use clap::ArgMatches;
use std::alloc::Global;
use tt_frame::Line;
use tt_world::Setup;

/// What the words of the server say.
#[derive(Debug, PartialEq, Eq, Drop)]
pub struct ServerWords {
    /// What the game is made from.
    pub setup: Setup,
    /// The file with the map that the game starts from.
    pub map: Option<Line>,
}

/// What the words behind the server's addresses say.
pub fn server_words(alloc: Global, args: &[Line]) -> Result<ServerWords, WordsError>
    ensures ok { IfOk result (λ words. IsServerForm args.now words) }
    ensures fits { IfOk result (λ words. Fits words.setup) }
    ensures bad { result ≡ Err WordsError.Bad → (words : ServerWords) → IsServerForm args.now words → ⊥ }
{
    let Ok(texts) = texts_of(alloc, args) else {
        return Err(WordsError::Memory);
    };
    match parsed(alloc, Program::Server, texts.as_slice()) {
        Err(error) => Err(error),
        Ok(matches) => found(server_of(&matches)),
    }
}

/// What was given for the options, with the default of each that wasn't. None where a value is out of range.
fn server_of(matches: &ArgMatches<'_>) -> Option<ServerWords>
    ensures { Finds (ServerMeans (rows_of (found_of matches.now))) result }
{
    let seed = number(matches, "seed", 0, u32::MAX, 0)?;
    let frame_freq = number(matches, "frame-freq", 0, 64, 0)?;
    let sync_freq = number(matches, "sync-freq", 1, 1_000, 100)?;
    let clients = number(matches, "clients", 1, 255, 25)?;
    let password = text(matches, "password", 0, 32, no_text())?;
    let admin_password = text(matches, "admin-password", 0, 32, no_text())?;
    let cost = number(matches, "cost", 64, 1 << 30, 1 << 30)?;
    let map = any_text(matches, "map", 0, 899)?;
    let setup = Setup {
        seed,
        frame_freq: frame_freq as u8,
        sync_freq: sync_freq as u16,
        max_clients: clients as u8,
        password,
        admin_password,
        cost: u64::from(cost),
        ..Setup::plain()
    };
    Some(ServerWords { setup, map })
}
