//! What a script starts from, looked at line by line: no line is kept, however many there are.
//!
//! `start_of` gives what the game of the script that the bytes spell starts from, or their first bad line: the first with
//! which what stands so far is no script.
ghost use Rattle.std.specs.Prelude.{◌≡◌, ℕ, ◌++◌, Err, IfOk, OnOk};
ghost use Rattle.tt_lines.specs.Lines.{lines_of, IsFirstBad};
ghost use Rattle.tt_log.specs.Script.{setup_with, map_in_step, IsScriptText};
ghost use Rattle.tt_log.specs.declared.script.bad.ScriptBad.TheVariants as bad;
ghost use Rattle.tt_playing.specs.Begun.{IsScriptOf};

use std::alloc::Global;
use tt_frame::OutOfMemory;
use tt_log::{ScriptBad, ScriptReader, Step};
use tt_world::Setup;

/// What the game of a script starts from.
#[derive(Drop)]
pub struct Start {
    /// The setup of the game.
    pub setup: Setup,
    /// The bytes of a saved game's map, or none where the game starts from the setup.
    pub saved: Vec<u8>,
}

/// What the game of the script starts from that the bytes spell, or their first bad line.
pub fn start_of(alloc: Global, bytes: &[u8]) -> Result<Start, ScriptBad>
    ensures found { IfOk result (λ start. IsScriptOf start.setup start.saved.items (lines_of bytes.now)) }
    ensures bad { (line : ℕ) → result ≡ Err (bad.Line line) → IsFirstBad IsScriptText (lines_of bytes.now) line }
{
    let mut reader = ScriptReader::new(bytes);
    let mut start = Start {
        setup: Setup::plain(),
        saved: Vec::new(alloc),
    };
    loop {
        match reader.next(alloc) {
            Ok(Some(step)) => {
                if let Err(_) = apply(&mut start, step) {
                    return Err(ScriptBad::Memory);
                }
            }
            Ok(None) => return Ok(start),
            Err(bad) => return Err(bad),
        }
    }
}

/// Puts what a line says of the start there. Where memory runs out, nothing was changed.
fn apply(start: &mut Start, step: Step) -> Result<(), OutOfMemory>
    ensures setup { OnOk result (start.new.setup ≡ setup_with start.old.setup step) }
    ensures saved { OnOk result (start.new.saved.items ≡ start.old.saved.items ++ map_in_step step) }
{
    match step {
        Step::Set(setting) => setting.apply(&mut start.setup),
        Step::Saved(map) => start.saved.extend_from_slice(map.bytes())?,
        Step::Line(_line) => {}
    }
    Ok(())
}
