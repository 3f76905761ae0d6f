//! The lines of the hour, done one after the other.
ghost use Rattle.std.specs.Prelude.{◌≡◌, ℕ, fold, IfOk, OnOk};
ghost use Rattle.std.specs.List.{AllByRecursion};
ghost use Rattle.tt_hour.specs.Hour.{hour_script, hour_lines};
ghost use Rattle.tt_log.specs.Lines.{IsLine};
ghost use Rattle.tt_log.specs.Origin.{Origin};
ghost use Rattle.tt_playing.specs.Begun.{origin_in};
ghost use Rattle.tt_playing.specs.Played.{Played, played, done};
ghost use Rattle.tt_playing.specs.Playing.{IsAt, Stands};
ghost use Rattle.tt_hour_run.specs.Summed.{hour_summary};

use crate::summary::summary_of;
use std::alloc::Global;
use tt_frame::OutOfMemory;
use tt_hour::{HourLines, hour_setup};
use tt_log::Line1;
use tt_playing::{Play, Start, begun, do_line};

/// Plays the hour script of a number, line by line, and answers its summary: how many connections were opened, the frame,
/// the length of the journal, the two random words, how many bytes each connection was told, how many lines were refused,
/// and how many clients run at the server's frame.
pub fn hour_summary(alloc: Global, number: u32) -> Result<Vec<u8>, OutOfMemory>
    ensures { IfOk result (λ text. text.items ≡ hour_summary number) }
{
    let play = hour_played(alloc, number)?;
    summary_of(alloc, &play)
}

/// A play of all lines of the hour script. What was handed to clients is not kept.
fn hour_played(alloc: Global, number: u32) -> Result<Play, OutOfMemory>
    ensures { let game = origin_in (hour_script number) in IfOk result (λ play. IsAt game play (played game (hour_lines number))) }
{
    let start = Start {
        setup: hour_setup(number),
        saved: Vec::new(alloc),
    };
    let mut play = begun(alloc, &start, false)?;
    do_lines(alloc, &mut play, HourLines::new(number))?;
    Ok(play)
}

/// Does all lines that are left.
fn do_lines(alloc: Global, play: &mut Play, mut lines: HourLines) -> Result<(), OutOfMemory>
    requires stands { Stands play.old }
    requires lines { AllByRecursion IsLine lines }
    ensures { (o : Origin) (p : Played) → IsAt o play.old p → OnOk result (IsAt o play.new (fold (done o) p lines)) }
{
    loop {
        match lines.next() {
            Some(line) => do_and_drop(alloc, play, line)?,
            None => return Ok(()),
        }
    }
}

/// Does one line, and lets go of it.
fn do_and_drop(alloc: Global, play: &mut Play, line: Line1) -> Result<(), OutOfMemory>
    requires stands { Stands play.old }
    requires line { IsLine line }
    ensures at { (o : Origin) (p : Played) → IsAt o play.old p → OnOk result (IsAt o play.new (done o p line)) }
{
    do_line(alloc, play, &line)
}
