//! The hour script as a whole: the setup of its game, and its text.
ghost use Rattle.std.specs.Prelude.{◌≡◌, ◌++◌, OnOk};
ghost use Rattle.std.specs.List.{AllByRecursion, flat_map};
ghost use Rattle.tt_world.specs.Setup.{Fits};
ghost use Rattle.tt_log.specs.Lines.{Holds};
ghost use Rattle.tt_log.specs.Printing.{script_text};
ghost use Rattle.tt_log.specs.Written.{setting_text, line_text};
ghost use Rattle.tt_log.specs.declared.script.setting.Setting.TheVariants.{Seed};
ghost use Rattle.tt_hour.specs.Hour.{hour_setup, hour_script};

use crate::lines::HourLines;
use std::alloc::Global;
use tt_frame::OutOfMemory;
use tt_log::{Setting, put_script_line, put_set_line};
use tt_world::Setup;

/// The setup of the hour's game: the plain one, but for the seed.
pub fn hour_setup(number: u32) -> Setup
    ensures setup { result ≡ hour_setup number }
    ensures fits { Fits result }
{
    let mut setup = Setup::plain();
    setup.seed = number;
    setup
}

/// Appends the text of the hour script of a number: the setting of the seed, unless it is 0, and the lines, each with its
/// line feed. Where memory runs out, some of it may have been appended.
pub fn put_hour(alloc: Global, out: &mut Vec<u8>, number: u32) -> Result<(), OutOfMemory>
    ensures { OnOk result (out.new.items ≡ out.old.items ++ script_text (hour_script number)) }
{
    put_seed(alloc, out, number)?;
    put_lines(alloc, out, HourLines::new(number))?;
    Ok(())
}

/// Appends the setting of the seed, unless it is 0, which it is where nothing else is said.
fn put_seed(alloc: Global, out: &mut Vec<u8>, number: u32) -> Result<(), OutOfMemory>
    ensures { OnOk result (out.new.items ≡ out.old.items ++ setting_text (Seed number)) }
{
    if number == 0 {
        Ok(())
    } else {
        put_set_line(alloc, out, &Setting::Seed(number))
    }
}

/// Appends all lines that are left.
fn put_lines(alloc: Global, out: &mut Vec<u8>, mut lines: HourLines) -> Result<(), OutOfMemory>
    requires { AllByRecursion Holds lines }
    ensures { OnOk result (out.new.items ≡ out.old.items ++ flat_map line_text lines) }
{
    loop {
        match lines.next() {
            Some(line) => put_script_line(alloc, out, &line)?,
            None => return Ok(()),
        }
    }
}
