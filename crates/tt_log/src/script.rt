//! Scripts: what the replay program reads and the tests write, line by line.
//!
//! `parse_script` gives the script that the bytes spell, or the first line that is no script line in its place, and
//! `print_script` the text of a script. A line has one spelling, so a script means one thing. Where a script is long,
//! `ScriptReader` gives its lines one after the other and keeps none, and `put_script_line` and `put_set_line` write one.
//!
//! Other files of lines are read with the same parts: `words` cuts a line, `values` reads numbers and texts, and
//! `order_reading` what a client is told to do.
ghost use Rattle.std.specs.Prelude.{◌≡◌, ◌++◌, ◌⊎◌, ℕ, Ok, Err, IfOk, OnOk};
ghost use Rattle.tt_lines.specs.Lines.{lines_of, IsFirstBad};
ghost use Rattle.tt_log.specs.Contents.{Contents};
ghost use Rattle.tt_log.specs.Printing.{IsScript};
ghost use Rattle.tt_log.specs.Script.{Spells, IsScriptText, setup_with, map_in_step, line_in};
ghost use Rattle.tt_log.specs.declared.script.bad.ScriptBad.TheVariants as bad;

pub mod bad;
mod bytes;
mod digits;
mod laws;
mod line;
mod line_reading;
mod numbers;
pub mod order_reading;
mod printing;
mod reader;
mod setting;
mod setting_reading;
mod step;
pub mod values;
pub mod words;
mod writing;

pub use bad::ScriptBad;
pub use bytes::Bytes;
pub use laws::{
    one_first_bad_line, one_line, one_script, parsed_can_be_printed, printed_is_parsed,
    reader_reads_all,
};
pub use line::Line1;
pub use printing::{print_script, put_script_line, put_set_line};
pub use reader::ScriptReader;
pub use setting::Setting;
use std::alloc::Global;
use std::marker::Model;
pub use step::Step;
use tt_world::Setup;

/// A whole script. Contracts see its setup, the bytes of its map and the list of its lines.
#[derive(Debug, Drop)]
pub struct Script {
    /// The setup of its game: the plain one, with what the `set` lines say.
    pub setup: Setup,
    /// The map that the game starts from, as `set map` says it; empty where the game starts from the setup.
    pub saved: Vec<u8>,
    /// The lines behind the settings.
    pub lines: Vec<Line1>,
}

impl Model for Script {
    ghost use Rattle.tt_log.specs.Contents.{Contents};

    ghost Value = { Contents };

    ghost view = { λ script. record { setup = script.setup; saved = script.saved.items; lines = script.lines.items } };
}

/// The script that the bytes spell.
pub fn parse_script(alloc: Global, bytes: &[u8]) -> Result<Script, ScriptBad>
    // What is parsed is what the bytes spell, and what they spell is parsed.
    ensures found { IfOk result (λ script. Spells script (lines_of bytes.now)) }
    ensures script { IfOk result (λ script. IsScript script) }
    ensures only { (script : Contents) → Spells script (lines_of bytes.now) → (result ≡ Ok script) ⊎ (result ≡ Err bad.Memory) }

    // A line is refused exactly where it is the first with which the bytes are no script.
    ensures first { (l : ℕ) → result ≡ Err (bad.Line l) → IsFirstBad IsScriptText (lines_of bytes.now) l }
    ensures refused { (l : ℕ) → IsFirstBad IsScriptText (lines_of bytes.now) l → (result ≡ Err (bad.Line l)) ⊎ (result ≡ Err bad.Memory) }
{
    parsed(alloc, bytes)
}

/// The script, read line by line.
fn parsed(alloc: Global, bytes: &[u8]) -> Result<Script, ScriptBad>
    ensures found { IfOk result (λ script. Spells script (lines_of bytes.now)) }
    ensures first { (l : ℕ) → result ≡ Err (bad.Line l) → IsFirstBad IsScriptText (lines_of bytes.now) l }
{
    let mut reader = ScriptReader::new(bytes);
    let mut setup = Setup::plain();
    let mut saved = Vec::new(alloc);
    let mut lines = Vec::new(alloc);
    loop {
        match reader.next(alloc) {
            Ok(Some(step)) => {
                if let Err(_) = take(&mut setup, &mut saved, &mut lines, step) {
                    return Err(ScriptBad::Memory);
                }
            }
            Ok(None) => {
                return Ok(Script {
                    setup,
                    saved,
                    lines,
                });
            }
            Err(bad) => return Err(bad),
        }
    }
}

/// Takes what one line says.
fn take(
    setup: &mut Setup,
    saved: &mut Vec<u8>,
    lines: &mut Vec<Line1>,
    step: Step,
) -> Result<(), ScriptBad>
    ensures setup { OnOk result (setup.new ≡ setup_with setup.old step) }
    ensures saved { OnOk result (saved.new.items ≡ saved.old.items ++ map_in_step step) }
    ensures lines { OnOk result (lines.new.items ≡ lines.old.items ++ line_in step) }
{
    match step {
        Step::Set(setting) => {
            setting.apply(setup);
            Ok(())
        }
        Step::Saved(map) => {
            saved.extend_from_slice(map.bytes())?;
            Ok(())
        }
        Step::Line(line) => {
            lines.push(line)?;
            Ok(())
        }
    }
}
