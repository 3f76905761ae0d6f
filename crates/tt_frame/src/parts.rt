//! What a message tells of itself, part by part, to whoever writes it.
//!
//! A message calls `tell(to, &parts)` once, with its head and then its fields in order. A `PartWriter` says what it writes for
//! one part: a vector of bytes writes the packet, and a writer of lines writes words.
ghost use Rattle.std.specs.Prelude.{◌≡◌, ℕ, List, ◌++◌, length, take, OnOk, OnErr};
ghost use Rattle.tt_frame.specs.Said.{Said, each_said, said_bytes};
ghost use Rattle.tt_frame.specs.Parts.{said_by, all_said_by, PartFits, PartsFit};
ghost use Rattle.tt_frame.specs.Families.{if_done};

use crate::memory::OutOfMemory;
use crate::put::Put;

/// A part of a message.
#[derive(Clone, Copy)]
pub enum Part<'a> {
    /// The message's number, which stands first.
    Head(u8),
    /// A number of one byte.
    U8(u8),
    /// A number of two bytes, the low one first.
    U16(u16),
    /// A number of four bytes, the low one first.
    U32(u32),
    /// A number of eight bytes, the low one first.
    U64(u64),
    /// One byte: 1 for true, 0 for false.
    Truth(bool),
    /// A text; a zero byte is written behind it.
    Words(&'a [u8]),
    /// Bytes as they are.
    Raw(&'a [u8]),
    /// A byte that is the same in every message of its kind, as a version.
    Always(u8),
    /// How many items follow, in one byte.
    Count8(u8),
    /// How many items follow, in two bytes.
    Count16(u16),
    /// Whether one more item follows, in one byte.
    Mark(bool),
}

/// Who writes the parts of messages.
pub trait PartWriter {
    /// What stands there.
    ghost text: { Self → List ℕ };

    /// What is written for a part.
    ghost word: { Said → List ℕ };

    /// Writes one part behind what stands there. Where memory is refused, what stood there still does.
    fn put_part(&mut self, part: &Part) -> Result<(), OutOfMemory>
        requires { PartFits part.now }
        ensures ok { OnOk result (text self.new ≡ text self.old ++ word (said_by part.now)) }
        ensures err { OnErr result (take (length (text self.old)) (text self.new) ≡ text self.old) };
}

impl PartWriter for Vec<u8> {
    ghost text = { λ v. v.items };

    ghost word = { said_bytes };

    fn put_part(&mut self, part: &Part) -> Result<(), OutOfMemory>
        requires { PartFits part.now }
        ensures ok { OnOk result (self.new.items ≡ self.old.items ++ said_bytes (said_by part.now)) }
        ensures err { OnErr result (take (length self.old.items) self.new.items ≡ self.old.items) }
    {
        match part {
            Part::Head(kind) => Put::raw(self, &[0, 0, *kind]),
            Part::U8(n) => Put::u8(self, *n),
            Part::U16(n) => Put::u16(self, *n),
            Part::U32(n) => Put::u32(self, *n),
            Part::U64(n) => Put::u64(self, *n),
            Part::Truth(b) => Put::bool(self, *b),
            Part::Words(bytes) => Put::text(self, bytes),
            Part::Raw(bytes) => Put::raw(self, bytes),
            Part::Always(byte) => Put::raw(self, &[*byte]),
            Part::Count8(n) => Put::u8(self, *n),
            Part::Count16(n) => Put::u16(self, *n),
            Part::Mark(b) => Put::raw(self, &[*b as u8]),
        }
    }
}

/// The parts, one behind the other.
pub(crate) fn put_parts<W: PartWriter>(to: &mut W, parts: &[Part]) -> Result<(), OutOfMemory>
    requires { PartsFit parts.now }
    ensures ok { OnOk result (W.text to.new ≡ W.text to.old ++ each_said W.word (all_said_by parts.now)) }
    ensures err { OnErr result (take (length (W.text to.old)) (W.text to.new) ≡ W.text to.old) }
{
    for part in parts {
        if let Err(e) = to.put_part(part) {
            return Err(e);
        }
    }
    Ok(())
}

/// Tells the parts, one behind the other.
pub fn tell<W: PartWriter>(to: &mut W, parts: &[Part]) -> Result<(), OutOfMemory>
    requires { PartsFit parts.now }
    ensures told { W.text to.new ≡ if_done result (W.text to.old ++ each_said W.word (all_said_by parts.now)) (W.text to.new) }
    ensures err { OnErr result (take (length (W.text to.old)) (W.text to.new) ≡ W.text to.old) }
{
    put_parts(to, parts)
}

/// Tells parts, one behind the other: `told!(to; Head(KIND), U32(*client))`. A family of messages has a `told` of its own, which
/// says what that means for its messages.
#[macro_export]
macro_rules! told {
    ($to:expr; $($part:expr),+) => { told($to, &[$($part),+]) };
}
