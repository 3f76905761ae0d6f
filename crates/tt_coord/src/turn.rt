//! The messages between the TURN server and the peers that it connects.
#![tactic(auto, unfolding(tt_frame::specs::Tables::Reads))]

ghost use Rattle.std.specs.Prelude.{◌≡◌, ◌≢◌, ℕ, ◌≤◌, ◌+◌, ◌++◌, length, take, IfOk, OnOk, OnErr, Ok, Err};
ghost use Rattle.tt_frame.specs.declared.bad.Bad.TheVariants.{Malformed, Memory};
ghost use Rattle.tt_frame.specs.Packet.{packet, largest_packet};
ghost use Rattle.tt_frame.specs.Unread.{whole};
ghost use Rattle.tt_frame.specs.Tables.{MessageRead, Reads, StopsBy, name_by, read_by};
ghost use Rattle.tt_frame.specs.Said.{each_said};
ghost use Rattle.tt_frame.specs.Families.{Tells, TellsThese, family_said};
ghost use Rattle.tt_frame.specs.Parts.{PartsFit, all_said_by};
ghost use Rattle.tt_coord.specs.Turn.{turn_messages, turn_family, TurnSpells, turn_kind_of, turn_body_bytes};

use crate::parts::{VERSION, version};
use std::alloc::Global;
use tt_frame::Part::{Always, Head, Words};
use tt_frame::{
    Bad, Fields, OutOfMemory, Part, PartWriter, Text, ended, finish, read, tell, text, told,
};

/// A message between the TURN server and a peer. Each field's type holds exactly the values that have a spelling.
#[derive(Debug, PartialEq, Eq, Drop)]
pub enum TurnMsg {
    /// 0, from the TURN server: the ticket is not good, and the connection ends.
    TurnError,
    /// 1, from a server or a client: it wants to be connected with the other peer that has this ticket.
    SercliConnect { ticket: Text<31> },
    /// 2, from the TURN server: the other peer is there, and what follows comes from it.
    TurnConnected { host: Text<31> },
}

// The numbers of the messages, named here and nowhere else.
pub(crate) const TURN_ERROR: u8 = 0;

pub(crate) const SERCLI_CONNECT: u8 = 1;

pub(crate) const TURN_CONNECTED: u8 = 2;

/// The fields of the message of that number.
fn fields_of(kind: u8, f: &mut Fields) -> Result<TurnMsg, Bad>
    requires { f.old.at ≡ 0 }
    ensures { Reads turn_messages kind result f.old f.new }
{
    match kind {
        TURN_ERROR => Ok(TurnMsg::TurnError),
        SERCLI_CONNECT => {
            version(f)?;
            read!(f; TurnMsg::SercliConnect { ticket: text })
        }
        TURN_CONNECTED => read!(f; TurnMsg::TurnConnected { host: text }),
        _ => Err(Bad::Malformed { at: 0 }),
    }
}

/// The message that a body of that number spells.
fn read(kind: u8, body: &[u8]) -> Result<TurnMsg, Bad>
    ensures { MessageRead result (read_by turn_messages kind (whole body.now)) }
{
    let f = &mut Fields::new(body);
    let fields = fields_of(kind, f);
    ended(fields, f)
}

/// Tells these parts, which are some message's.
fn told<W: PartWriter>(to: &mut W, parts: &[Part]) -> Result<(), OutOfMemory>
    requires { PartsFit parts.now }
    ensures { TellsThese turn_family W.word (all_said_by parts.now) result (W.text to.old) (W.text to.new) }
{
    tell(to, parts)
}

/// Tells the message's parts.
fn tell_parts<W: PartWriter>(message: &TurnMsg, to: &mut W) -> Result<(), OutOfMemory>
    ensures { Tells turn_family W.word message.now result (W.text to.old) (W.text to.new) }
{
    match message {
        TurnMsg::TurnError => told!(to; Head(TURN_ERROR)),
        TurnMsg::SercliConnect { ticket } =>
            told!(to; Head(SERCLI_CONNECT), Always(VERSION), Words(ticket.bytes())),
        TurnMsg::TurnConnected { host } => told!(to; Head(TURN_CONNECTED), Words(host.bytes())),
    }
}

impl TurnMsg {
    /// The name of the message of that number, or no letters where no message has it.
    pub fn name_of(kind: u8) -> &'static [u8]
        ensures { result.now ≡ name_by turn_messages kind }
    {
        match kind {
            TURN_ERROR => b"TURN_ERROR",
            SERCLI_CONNECT => b"SERCLI_CONNECT",
            TURN_CONNECTED => b"TURN_CONNECTED",
            _ => &[],
        }
    }

    /// The message that a packet of this number and body spells, or why it spells none.
    pub fn decode(_alloc: Global, kind: u8, body: &[u8]) -> Result<TurnMsg, Bad>
        // What is read is spelled so.
        ensures found { IfOk result (λ m. TurnSpells m kind body.now) }
        // What is spelled so is read, and memory never runs out, since none is taken.
        ensures only { (m : TurnMsg) → TurnSpells m kind body.now → result ≡ Ok m }
        ensures never { result ≢ Err Memory }

        // It is malformed only where nothing is spelled, and the place is that of the first field that isn't there, or of
        // the first byte behind the last field, or 0 where no message has the number.
        ensures nothing { (at : ℕ) (m : TurnMsg) → result ≡ Err (Malformed at) → TurnSpells m kind body.now → ⊥ }
        ensures place { (at : ℕ) → result ≡ Err (Malformed at) → StopsBy turn_messages kind body.now at }

        // All of this in one: the answer is what reading the body by the table gives.
        ensures exact { MessageRead result (read_by turn_messages kind (whole body.now)) }
    {
        read(kind, body)
    }

    /// Tells the message's head and its parts, in order: what a writer writes for them stands behind what stood there.
    pub fn tell<W: PartWriter>(&self, to: &mut W) -> Result<(), OutOfMemory>
        ensures ok { OnOk result (W.text to.new ≡ W.text to.old ++ each_said W.word (family_said turn_family self.now)) }
        ensures err { OnErr result (take (length (W.text to.old)) (W.text to.new) ≡ W.text to.old) }
    {
        tell_parts(self, to)
    }

    /// Appends the packet of the message, or nothing where memory is refused.
    pub fn encode(&self, out: &mut Vec<u8>) -> Result<(), OutOfMemory>
        // What is appended is one packet, whose number and body spell the message.
        ensures ok { OnOk result (out.new.items ≡ out.old.items ++ packet (turn_kind_of self.now) (turn_body_bytes self.now)) }
        ensures spelled { TurnSpells self.now (turn_kind_of self.now) (turn_body_bytes self.now) }
        ensures size { length (turn_body_bytes self.now) + 3 ≤ largest_packet }

        ensures err { OnErr result (out.new.items ≡ out.old.items) }
    {
        let start = out.len();
        let written = tell_parts(self, out);
        finish(out, start, written)
    }
}
