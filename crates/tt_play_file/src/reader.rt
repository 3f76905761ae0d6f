//! The player's file, read to its end.
ghost use Rattle.std.specs.Prelude.{◌≡◌, ℕ, Err, IfOk, map};
ghost use Rattle.tt_lines.specs.Lines.{lines_of, IsFirstBad};
ghost use Rattle.tt_log.specs.declared.script.bad.ScriptBad.TheVariants as bad;
ghost use Rattle.tt_play_file.specs.File.{IsFile, IsFileText, line_text};

use crate::line::TimedLine;
use crate::line_reading::line_of;
use std::alloc::Global;
use std::collections::VecDeque;
use tt_lines::first_line;
use tt_log::ScriptBad;
use tt_log::script::bad::NoLine;

/// The lines that the bytes of a file spell, or its first bad line.
pub fn parse_commands(alloc: Global, bytes: &[u8]) -> Result<VecDeque<TimedLine>, ScriptBad>
    ensures is { IfOk result (λ lines. IsFile lines.items) }
    ensures text { IfOk result (λ lines. lines_of bytes.now ≡ map line_text lines.items) }
    ensures first { (l : ℕ) → result ≡ Err (bad.Line l) → IsFirstBad IsFileText (lines_of bytes.now) l }
{
    let mut lines = VecDeque::new(alloc);
    let mut rest = bytes;
    let mut last = 0;
    let mut count: u32 = 0;
    'reading: while !rest.is_empty() {
        let (text, after) = first_line(rest);
        let Some(number) = count.checked_add(1) else {
            return Err(ScriptBad::Memory);
        };
        let line = match line_of(alloc, text) {
            Ok(line) => line,
            Err(NoLine::Bad) => return Err(ScriptBad::Line(number)),
            Err(NoLine::Memory) => return Err(ScriptBad::Memory),
        };
        if line.at < last {
            return Err(ScriptBad::Line(number));
        }
        last = line.at;
        count = number;
        rest = after;
        if lines.push_back(line).is_err() {
            return Err(ScriptBad::Memory);
        }
    }
    Ok(lines)
}
