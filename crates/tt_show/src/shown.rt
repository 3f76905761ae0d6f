//! What a family of messages is shown by: how its messages are read, their names, and their parts.
ghost use Rattle.std.specs.Prelude.{◌≡◌, ℕ, List, ◌++◌, length, take, OnOk, OnErr, Err, None, codes};
ghost use Rattle.tt_frame.specs.Packet.{Packet};
ghost use Rattle.tt_frame.specs.declared.bad.Bad.TheVariants.{Malformed};
ghost use Rattle.tt_frame.specs.Unread.{whole};
ghost use Rattle.tt_frame.specs.Tables.{MessageReadOrMemory, SpelledBy, StopsBy, name_by, read_by};
ghost use Rattle.tt_frame.specs.Said.{each_said};
ghost use Rattle.tt_frame.specs.Families.{Family as Messages, family_kind, family_said};
ghost use Rattle.tt_show.specs.SaidWords.{said_words};
ghost use Rattle.tt_show.specs.Packets.{text_by, Appends};

use crate::words::Line;
use std::alloc::Global;
use tt_frame::{Bad, OutOfMemory, PartWriter};
use tt_lines::put;

/// A message that can be shown.
pub(crate) trait Shown: Drop {
    /// Its family.
    ghost family: { Messages Self };

    /// The message that a packet spells.
    fn read(alloc: Global, kind: u8, body: &[u8]) -> Result<Self, Bad>
        ensures { MessageReadOrMemory result (read_by family.table kind (whole body.now)) };

    /// The name of the message of that number.
    fn name(kind: u8) -> &'static [u8]
        ensures { result.now ≡ name_by family.table kind };

    /// Tells its parts.
    fn tell_to<W: PartWriter>(&self, to: &mut W) -> Result<(), OutOfMemory>
        ensures ok { OnOk result (W.text to.new ≡ W.text to.old ++ each_said W.word (family_said family self.now)) }
        ensures err { OnErr result (take (length (W.text to.old)) (W.text to.new) ≡ W.text to.old) };

    ghost same_kind: { (m : Self) (kind : ℕ) (body : List ℕ) → SpelledBy family.table m kind body → family_kind family m ≡ kind };
}

/// Writes a message's name, and its words behind it.
fn put_message<M: Shown>(line: &mut Line, message: &M, kind: u8) -> Result<(), OutOfMemory>
    ensures { OnOk result (line.new.text.items ≡ line.old.text.items ++ (name_by M.family.table kind
        ++ (each_said said_words (family_said M.family message.now) ++ codes "\n"))) }
{
    put(&mut line.text, M::name(kind))?;
    message.tell_to(line)?;
    put(&mut line.text, b"\n")
}

/// Appends the line of a packet, where it spells a message of this family. Otherwise a part of the line may stand there.
pub(crate) fn put_line<M: Shown>(
    alloc: Global,
    line: &mut Line,
    kind: u8,
    body: &[u8],
) -> Result<(), Bad>
    ensures shown { OnOk result (Appends (text_by M.family (record { kind = kind; body = body.now }))
        line.old.text.items line.new.text.items) }
    ensures nothing { (at : ℕ) → result ≡ Err (Malformed at) → text_by M.family (record { kind = kind; body = body.now }) ≡ None }
    ensures place { (at : ℕ) → result ≡ Err (Malformed at) → StopsBy M.family.table kind body.now at }
{
    match M::read(alloc, kind, body) {
        Ok(message) => match put_message(line, &message, kind) {
            Ok(()) => Ok(()),
            Err(_) => Err(Bad::Memory),
        },
        Err(e) => Err(e),
    }
}
