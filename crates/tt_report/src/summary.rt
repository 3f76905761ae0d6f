//! The text of a summary: its lines, one by one.
ghost use Rattle.std.specs.Prelude.{◌≡◌, ◌++◌, OnOk, codes};
ghost use Rattle.std.specs.Fmt.{decimal};
ghost use Rattle.tt_report.specs.Summary.{connections_line, frame_line, entries_line, words_line, count_line, refused_line, running_line};

use crate::worlds::put_words;
use tt_frame::OutOfMemory;
use tt_lines::{put, put_number};
use tt_world::Random;

/// Appends how many connections were opened.
pub fn put_connections(text: &mut Vec<u8>, connections: u32) -> Result<(), OutOfMemory>
    ensures text { OnOk result (text.new.items ≡ text.old.items ++ connections_line connections) }
{
    put_named(text, b"connections ", connections)
}

/// Appends a line of a name and a number.
fn put_named(text: &mut Vec<u8>, name: &[u8], number: u32) -> Result<(), OutOfMemory>
    ensures text { OnOk result (text.new.items ≡ text.old.items ++ (name.now ++ decimal number ++ codes "\n")) }
{
    put(text, name)?;
    put_number(text, number)?;
    put(text, b"\n")?;
    Ok(())
}

/// Appends the frame.
pub fn put_frame(text: &mut Vec<u8>, frame: u32) -> Result<(), OutOfMemory>
    ensures text { OnOk result (text.new.items ≡ text.old.items ++ frame_line frame) }
{
    put(text, b"frame ")?;
    put_number(text, frame)?;
    put(text, b"\n")?;
    Ok(())
}

/// Appends how many commands the journal has.
pub fn put_entry_count(text: &mut Vec<u8>, entries: usize) -> Result<(), OutOfMemory>
    ensures text { OnOk result (text.new.items ≡ text.old.items ++ entries_line entries) }
{
    put(text, b"entries ")?;
    put_number(text, entries)?;
    put(text, b"\n")?;
    Ok(())
}

/// Appends the two random words.
pub fn put_words_line(text: &mut Vec<u8>, random: &Random) -> Result<(), OutOfMemory>
    ensures text { OnOk result (text.new.items ≡ text.old.items ++ words_line random.now) }
{
    put(text, b"words ")?;
    put_words(text, random)?;
    put(text, b"\n")?;
    Ok(())
}

/// Appends how many bytes a connection was told.
pub fn put_count(text: &mut Vec<u8>, conn: u32, count: u64) -> Result<(), OutOfMemory>
    ensures text { OnOk result (text.new.items ≡ text.old.items ++ count_line conn count) }
{
    put(text, b"conn ")?;
    put_number(text, conn)?;
    put(text, b" ")?;
    put_number(text, count)?;
    put(text, b"\n")?;
    Ok(())
}

/// Appends how many lines were refused.
pub fn put_refused(text: &mut Vec<u8>, refused: u32) -> Result<(), OutOfMemory>
    ensures text { OnOk result (text.new.items ≡ text.old.items ++ refused_line refused) }
{
    put(text, b"refused ")?;
    put_number(text, refused)?;
    put(text, b"\n")?;
    Ok(())
}

/// Appends how many clients run at the server's frame.
pub fn put_running(text: &mut Vec<u8>, running: u32) -> Result<(), OutOfMemory>
    ensures text { OnOk result (text.new.items ≡ text.old.items ++ running_line running) }
{
    put(text, b"running ")?;
    put_number(text, running)?;
    put(text, b"\n")?;
    Ok(())
}
