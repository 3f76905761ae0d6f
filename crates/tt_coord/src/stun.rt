//! The message to the STUN desk, by which a peer shows the address that it has to the outside.
#![tactic(auto, unfolding(tt_frame::specs::Tables::Reads))]

ghost use Rattle.std.specs.Prelude.{◌≡◌, ◌≢◌, ℕ, ◌≤◌, ◌+◌, ◌++◌, length, take, IfOk, OnOk, OnErr, Ok, Err};
ghost use Rattle.tt_frame.specs.declared.bad.Bad.TheVariants.{Malformed, Memory};
ghost use Rattle.tt_frame.specs.Packet.{packet, largest_packet};
ghost use Rattle.tt_frame.specs.Unread.{whole};
ghost use Rattle.tt_frame.specs.Tables.{MessageRead, Reads, StopsBy, name_by, read_by};
ghost use Rattle.tt_frame.specs.Said.{each_said};
ghost use Rattle.tt_frame.specs.Families.{Tells, family_said};
ghost use Rattle.tt_coord.specs.declared.stun.StunMsg.TheVariants.{SercliStun};
ghost use Rattle.tt_coord.specs.Stun.{stun_messages, stun_family, StunSpells, stun_kind_of, stun_body_bytes};

use crate::parts::{VERSION, version};
use std::alloc::Global;
use tt_frame::Part::{Always, Head, U8, Words};
use tt_frame::{
    Bad, Fields, OutOfMemory, PartWriter, Text, UpTo, ended, finish, read, tell, text, up_to,
};

/// A message to the STUN desk. Each field's type holds exactly the values that have a spelling.
#[derive(Debug, PartialEq, Eq, Drop)]
pub enum StunMsg {
    /// 0, from a server (side 0) or a client (side 1): its address is the one that this connection comes from.
    SercliStun { token: Text<31>, side: UpTo<1> },
}

// The number of the message, named here and nowhere else.
pub(crate) const SERCLI_STUN: u8 = 0;

/// The fields of the message of that number.
fn fields_of(kind: u8, f: &mut Fields) -> Result<StunMsg, Bad>
    requires { f.old.at ≡ 0 }
    ensures { Reads stun_messages kind result f.old f.new }
{
    match kind {
        SERCLI_STUN => {
            version(f)?;
            read!(f; StunMsg::SercliStun { token: text, side: up_to })
        }
        _ => Err(Bad::Malformed { at: 0 }),
    }
}

/// The message that a body of that number spells.
fn read(kind: u8, body: &[u8]) -> Result<StunMsg, Bad>
    ensures { MessageRead result (read_by stun_messages kind (whole body.now)) }
{
    let f = &mut Fields::new(body);
    let fields = fields_of(kind, f);
    ended(fields, f)
}

/// Tells the token and the side.
#[tactic(auto, unfolding(tt_frame::specs::Families::Tells))]
fn tell_stun<W: PartWriter>(to: &mut W, token: &Text<31>, side: UpTo<1>) -> Result<(), OutOfMemory>
    ensures { Tells stun_family W.word (SercliStun token.now side) result (W.text to.old) (W.text to.new) }
{
    tell(
        to,
        &[
            Head(SERCLI_STUN),
            Always(VERSION),
            Words(token.bytes()),
            U8(side.get()),
        ],
    )
}

/// Tells the message's parts.
fn tell_parts<W: PartWriter>(message: &StunMsg, to: &mut W) -> Result<(), OutOfMemory>
    ensures { Tells stun_family W.word message.now result (W.text to.old) (W.text to.new) }
{
    match message {
        StunMsg::SercliStun { token, side } => tell_stun(to, token, *side),
    }
}

impl StunMsg {
    /// The name of the message of that number, or no letters where no message has it.
    pub fn name_of(kind: u8) -> &'static [u8]
        ensures { result.now ≡ name_by stun_messages kind }
    {
        match kind {
            SERCLI_STUN => b"SERCLI_STUN",
            _ => &[],
        }
    }

    /// The message that a packet of this number and body spells, or why it spells none.
    pub fn decode(_alloc: Global, kind: u8, body: &[u8]) -> Result<StunMsg, Bad>
        // What is read is spelled so.
        ensures found { IfOk result (λ m. StunSpells m kind body.now) }
        // What is spelled so is read, and memory never runs out, since none is taken.
        ensures only { (m : StunMsg) → StunSpells m kind body.now → result ≡ Ok m }
        ensures never { result ≢ Err Memory }

        // It is malformed only where nothing is spelled, and the place is that of the first field that isn't there, or of
        // the first byte behind the last field, or 0 where no message has the number.
        ensures nothing { (at : ℕ) (m : StunMsg) → result ≡ Err (Malformed at) → StunSpells m kind body.now → ⊥ }
        ensures place { (at : ℕ) → result ≡ Err (Malformed at) → StopsBy stun_messages kind body.now at }

        // All of this in one: the answer is what reading the body by the table gives.
        ensures exact { MessageRead result (read_by stun_messages kind (whole body.now)) }
    {
        read(kind, body)
    }

    /// Tells the message's head and its parts, in order: what a writer writes for them stands behind what stood there.
    pub fn tell<W: PartWriter>(&self, to: &mut W) -> Result<(), OutOfMemory>
        ensures ok { OnOk result (W.text to.new ≡ W.text to.old ++ each_said W.word (family_said stun_family self.now)) }
        ensures err { OnErr result (take (length (W.text to.old)) (W.text to.new) ≡ W.text to.old) }
    {
        tell_parts(self, to)
    }

    /// Appends the packet of the message, or nothing where memory is refused.
    pub fn encode(&self, out: &mut Vec<u8>) -> Result<(), OutOfMemory>
        // What is appended is one packet, whose number and body spell the message.
        ensures ok { OnOk result (out.new.items ≡ out.old.items ++ packet (stun_kind_of self.now) (stun_body_bytes self.now)) }
        ensures spelled { StunSpells self.now (stun_kind_of self.now) (stun_body_bytes self.now) }
        ensures size { length (stun_body_bytes self.now) + 3 ≤ largest_packet }

        ensures err { OnErr result (out.new.items ≡ out.old.items) }
    {
        let start = out.len();
        let written = tell_parts(self, out);
        finish(out, start, written)
    }
}
