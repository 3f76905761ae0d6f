//! The words of a message, written part by part.
ghost use Rattle.std.specs.Prelude.{◌≡◌, ℕ, List, [], ◌++◌, length, take, OnOk, OnErr};
ghost use Rattle.std.specs.Fmt.{decimal};
ghost use Rattle.tt_frame.specs.Said.{Said};
ghost use Rattle.tt_frame.specs.Parts.{said_by, PartFits};
ghost use Rattle.tt_lines.specs.Digits.{bytes_text};
ghost use Rattle.tt_show.specs.Words.{word};
ghost use Rattle.tt_show.specs.SaidWords.{said_words};

use std::alloc::Global;
use tt_frame::{OutOfMemory, Part, PartWriter};
use tt_lines::{put, put_bytes, put_number};

/// A line that is written: a message's name, and then a word for each of its parts.
#[derive(Drop)]
pub(crate) struct Line {
    pub(crate) text: Vec<u8>,
    pub(crate) alloc: Global,
}

/// Appends the word of a number.
fn put_count(text: &mut Vec<u8>, number: u64) -> Result<(), OutOfMemory>
    ensures ok { OnOk result (text.new.items ≡ text.old.items ++ word (decimal number)) }
    ensures err { OnErr result (take (length text.old.items) text.new.items ≡ text.old.items) }
{
    put(text, b" ")?;
    put_number(text, number)
}

/// Appends the word of a text or of plain bytes.
fn put_digits(alloc: Global, text: &mut Vec<u8>, bytes: &[u8]) -> Result<(), OutOfMemory>
    ensures ok { OnOk result (text.new.items ≡ text.old.items ++ word (bytes_text bytes.now)) }
    ensures err { OnErr result (take (length text.old.items) text.new.items ≡ text.old.items) }
{
    put(text, b" ")?;
    put_bytes(alloc, text, bytes)
}

impl PartWriter for Line {
    ghost text = { λ line. line.text.items };

    ghost word = { said_words };

    fn put_part(&mut self, part: &Part) -> Result<(), OutOfMemory>
        requires { PartFits part.now }
        ensures ok { OnOk result (self.new.text.items ≡ self.old.text.items ++ said_words (said_by part.now)) }
        ensures err { OnErr result (take (length self.old.text.items) self.new.text.items ≡ self.old.text.items) }
    {
        match part {
            Part::Head(_) | Part::Mark(_) => Ok(()),
            Part::U8(n) | Part::Always(n) | Part::Count8(n) => put_count(
                &mut self.text,
                (*n).into(),
            ),
            Part::U16(n) | Part::Count16(n) => put_count(&mut self.text, (*n).into()),
            Part::U32(n) => put_count(&mut self.text, (*n).into()),
            Part::U64(n) => put_count(&mut self.text, *n),
            Part::Truth(b) => put_count(&mut self.text, (*b).into()),
            Part::Words(bytes) | Part::Raw(bytes) => put_digits(self.alloc, &mut self.text, bytes),
        }
    }
}
