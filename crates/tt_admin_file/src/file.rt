//! A command file, line by line.
ghost use Rattle.std.specs.Prelude.{◌≡◌, ℕ, Err, IfOk};
ghost use Rattle.tt_lines.specs.Lines.{lines_of, IsFirstBad};
ghost use Rattle.tt_admin_file.specs.Commands.{Spells, IsFile};
ghost use Rattle.tt_admin_file.specs.declared.file.FileBad.TheVariants.{Line, Memory};

use crate::command::Command;
use crate::reading::line_of;
use std::alloc::{AllocFailed, Global};
use thiserror::Error;
use tt_lines::first_line;
use tt_log::script::bad::NoLine;

/// Why bytes are no command file.
#[derive(Clone, Copy, Debug, PartialEq, Eq, Error)]
pub enum FileBad {
    /// This line, counted from 1, is the first bad one.
    #[error("line {0} is bad")]
    Line(u32),
    /// Memory ran out, or there are more lines than are counted.
    #[error("memory ran out")]
    Memory,
}

impl<T: Drop> From<AllocFailed<T>> for FileBad {
    ghost from_gives = { λ _ e. e ≡ Memory };

    fn from(_failed: AllocFailed<T>) -> Self {
        FileBad::Memory
    }
}

/// The lines that the bytes spell.
pub fn read_file(alloc: Global, input: &[u8]) -> Result<Vec<Command>, FileBad>
    ensures found { IfOk result (λ lines. Spells lines.items (lines_of input.now)) }
    ensures first { (l : ℕ) → result ≡ Err (Line l) → IsFirstBad IsFile (lines_of input.now) l }
{
    let mut lines = Vec::new(alloc);
    let mut number = 0u32;
    let mut rest = input;
    'reading: while !rest.is_empty() {
        let Some(next) = number.checked_add(1) else {
            return Err(FileBad::Memory);
        };
        number = next;
        let (text, after) = first_line(rest);
        match line_of(alloc, text) {
            Ok(line) => lines.push(line)?,
            Err(NoLine::Bad) => return Err(FileBad::Line(number)),
            Err(NoLine::Memory) => return Err(FileBad::Memory),
        }
        rest = after;
    }
    Ok(lines)
}
