//! The text of a journal.
ghost use Rattle.std.specs.Prelude.{◌≡◌, ◌++◌, OnOk};
ghost use Rattle.tt_report.specs.Entries.{entry_lines, entry_line, stamp_text, command_text};

use std::alloc::Global;
use tt_frame::OutOfMemory;
use tt_lines::{put, put_bytes, put_number};
use tt_rules::number_of;
use tt_world::{Command, Entry};

/// Appends a line for each command of the journal, in order.
pub fn put_journal(alloc: Global, text: &mut Vec<u8>, journal: &[Entry]) -> Result<(), OutOfMemory>
    ensures text { OnOk result (text.new.items ≡ text.old.items ++ entry_lines journal.now) }
{
    for entry in journal {
        put_entry(alloc, text, entry)?;
    }
    Ok(())
}

/// Appends the line of a command of the journal.
fn put_entry(alloc: Global, text: &mut Vec<u8>, entry: &Entry) -> Result<(), OutOfMemory>
    ensures text { OnOk result (text.new.items ≡ text.old.items ++ entry_line entry.now) }
{
    put(text, b"entry ")?;
    put_stamp(text, entry)?;
    put(text, b" ")?;
    put_command(alloc, text, &entry.command)?;
    put(text, b"\n")?;
    Ok(())
}

/// Appends what a command was stamped with: its frame, who sent it, and for which company.
fn put_stamp(text: &mut Vec<u8>, entry: &Entry) -> Result<(), OutOfMemory>
    ensures text { OnOk result (text.new.items ≡ text.old.items ++ stamp_text entry.now) }
{
    put_number(text, entry.frame)?;
    put(text, b" ")?;
    put_number(text, entry.sender)?;
    put(text, b" ")?;
    put_number(text, entry.company)?;
    Ok(())
}

/// Appends what a command says: its code, its number, the company that it names, and its text.
fn put_command(alloc: Global, text: &mut Vec<u8>, command: &Command) -> Result<(), OutOfMemory>
    ensures text { OnOk result (text.new.items ≡ text.old.items ++ command_text command.now) }
{
    put_number(text, number_of(command.code))?;
    put(text, b" ")?;
    put_number(text, command.number)?;
    put(text, b" ")?;
    put_number(text, command.to)?;
    put(text, b" ")?;
    put_bytes(alloc, text, command.text.bytes())?;
    Ok(())
}
