//! The messages between the coordinator and a server or a client.
#![tactic(auto, unfolding(tt_frame::specs::Tables::Reads, tt_frame::specs::Tables::ReadsOrMemory))]

ghost use Rattle.std.specs.Prelude.{◌≡◌, ◌≢◌, ◌⊎◌, ℕ, ◌≤◌, ◌+◌, ◌++◌, length, take, IfOk, OnOk, OnErr, Ok, Err};
ghost use Rattle.tt_frame.specs.declared.bad.Bad.TheVariants.{Malformed, Memory};
ghost use Rattle.tt_frame.specs.Packet.{packet, largest_packet};
ghost use Rattle.tt_frame.specs.Unread.{whole};
ghost use Rattle.tt_frame.specs.Tables.{MessageReadOrMemory, Reads, ReadsOrMemory, StopsBy, name_by, read_by};
ghost use Rattle.tt_frame.specs.Said.{each_said};
ghost use Rattle.tt_frame.specs.Families.{Tells, TellsThese, family_said};
ghost use Rattle.tt_frame.specs.Parts.{PartsFit, all_said_by};
ghost use Rattle.tt_coord.specs.declared.coord.CoordMsg.TheVariants.{GcListing, GcNewgrfLookup};
ghost use Rattle.tt_coord.specs.Coord.{coord_messages, coord_family, server_update, CoordSpells, coord_kind_of, coord_body_bytes};

use crate::file_list::LookupFiles;
use crate::info::Info;
use crate::parts::{VERSION, version};
use crate::server_list::Servers;
use std::alloc::Global;
use tt_frame::Part::{Always, Count8, Count16, Head, Truth, U8, U16, U32, Words};
use tt_frame::{
    Bad, Fields, OutOfMemory, Part, PartWriter, Text, UpTo, counted, ended, finish, number8,
    number16, number16_up_to, number32, read, tell, tell_counted, text, told, truth, up_to,
};

/// A message between the coordinator and a server or a client. Each field's type holds exactly the values that have a
/// spelling.
#[derive(Debug, PartialEq, Eq, Drop)]
pub enum CoordMsg {
    /// 0, from the coordinator: the connection ends, for this reason, with the code that was asked for.
    GcError {
        code: UpTo<2>,
        detail: Text<31>,
    },
    /// 1, from a server: it asks to be registered, for local, public or invited play (`kind` 0 to 2), with its game's port, and
    /// with the code and the secret that it had before, or with empty ones.
    ServerRegister {
        kind: u8,
        port: u16,
        code: Text<31>,
        secret: Text<32>,
    },
    /// 2, from the coordinator: the server is registered by this code, and has this secret. `way` says how it can be reached.
    GcRegisterAck {
        code: Text<31>,
        secret: Text<32>,
        way: UpTo<4>,
    },
    /// 3, from a server: its game is now this.
    ServerUpdate {
        info: Info,
    },
    /// 4, from a client: it asks for the public servers of this revision.
    ClientListing {
        revision: Text<31>,
    },
    /// 5, from the coordinator: some of the servers that were asked for, or none behind the last one.
    GcListing {
        items: Servers,
    },
    /// 6, from a client: it wants to connect to the server with this code.
    ClientConnect {
        code: Text<31>,
    },
    /// 7, from the coordinator: the attempt to connect to that server has this token.
    GcConnecting {
        token: Text<31>,
        code: Text<31>,
    },
    /// 8, from a server or a client: the way with this tracking number failed.
    SercliConnectFailed {
        token: Text<31>,
        tracking: u8,
    },
    /// 9, from the coordinator: the attempt failed.
    GcConnectFailed {
        token: Text<31>,
    },
    /// 10, from a client: the attempt worked.
    ClientConnected {
        token: Text<31>,
    },
    /// 11, from the coordinator: the client is to try this address.
    GcDirectConnect {
        token: Text<31>,
        tracking: u8,
        host: Text<31>,
        port: u16,
    },
    /// 12, from the coordinator: the peer is to show its address to the STUN desk.
    GcStunRequest {
        token: Text<31>,
    },
    /// 13, from a server (side 0) or a client (side 1): whether it reached the STUN desk.
    SercliStunResult {
        token: Text<31>,
        side: UpTo<1>,
        ok: bool,
    },
    /// 14, from the coordinator: the peer, which is on this side, is to try the other's address.
    GcStunConnect {
        token: Text<31>,
        tracking: u8,
        side: UpTo<1>,
        host: Text<31>,
        port: u16,
    },
    /// 15, from the coordinator: names of files. It is never sent.
    GcNewgrfLookup {
        items: LookupFiles,
    },
    /// 16, from the coordinator: the peer is to connect to this TURN server, with this ticket.
    GcTurnConnect {
        token: Text<31>,
        tracking: u8,
        ticket: Text<31>,
        host: Text<31>,
    },
}

// The numbers of the messages, named here and nowhere else.
pub(crate) const GC_ERROR: u8 = 0;

pub(crate) const SERVER_REGISTER: u8 = 1;

pub(crate) const GC_REGISTER_ACK: u8 = 2;

pub(crate) const SERVER_UPDATE: u8 = 3;

pub(crate) const CLIENT_LISTING: u8 = 4;

pub(crate) const GC_LISTING: u8 = 5;

pub(crate) const CLIENT_CONNECT: u8 = 6;

pub(crate) const GC_CONNECTING: u8 = 7;

pub(crate) const SERCLI_CONNECT_FAILED: u8 = 8;

pub(crate) const GC_CONNECT_FAILED: u8 = 9;

pub(crate) const CLIENT_CONNECTED: u8 = 10;

pub(crate) const GC_DIRECT_CONNECT: u8 = 11;

pub(crate) const GC_STUN_REQUEST: u8 = 12;

pub(crate) const SERCLI_STUN_RESULT: u8 = 13;

pub(crate) const GC_STUN_CONNECT: u8 = 14;

pub(crate) const GC_NEWGRF_LOOKUP: u8 = 15;

pub(crate) const GC_TURN_CONNECT: u8 = 16;

/// The fields of the message of that number, of those that take no memory.
fn fields_of(kind: u8, f: &mut Fields) -> Result<CoordMsg, Bad>
    requires start { f.old.at ≡ 0 }
    requires no_listing { kind ≢ 5 }
    requires no_lookup { kind ≢ 15 }
    ensures { Reads coord_messages kind result f.old f.new }
{
    match kind {
        GC_ERROR => read!(f; CoordMsg::GcError { code: up_to, detail: text }),
        SERVER_REGISTER => {
            version(f)?;
            read!(f; CoordMsg::ServerRegister { kind: number8, port: number16, code: text, secret: text })
        }
        GC_REGISTER_ACK =>
            read!(f; CoordMsg::GcRegisterAck { code: text, secret: text, way: up_to }),
        SERVER_UPDATE => {
            version(f)?;
            Ok(CoordMsg::ServerUpdate {
                info: Info {
                    name: text(f)?,
                    revision: text(f)?,
                    clients: number8(f)?,
                    max: number8(f)?,
                    companies: number8(f)?,
                    password: truth(f)?,
                    frame: number32(f)?,
                },
            })
        }
        CLIENT_LISTING => {
            version(f)?;
            read!(f; CoordMsg::ClientListing { revision: text })
        }
        CLIENT_CONNECT => {
            version(f)?;
            read!(f; CoordMsg::ClientConnect { code: text })
        }
        GC_CONNECTING => read!(f; CoordMsg::GcConnecting { token: text, code: text }),
        SERCLI_CONNECT_FAILED => {
            version(f)?;
            read!(f; CoordMsg::SercliConnectFailed { token: text, tracking: number8 })
        }
        GC_CONNECT_FAILED => read!(f; CoordMsg::GcConnectFailed { token: text }),
        CLIENT_CONNECTED => {
            version(f)?;
            read!(f; CoordMsg::ClientConnected { token: text })
        }
        GC_DIRECT_CONNECT =>
            read!(f; CoordMsg::GcDirectConnect { token: text, tracking: number8, host: text, port: number16 }),
        GC_STUN_REQUEST => read!(f; CoordMsg::GcStunRequest { token: text }),
        SERCLI_STUN_RESULT => {
            version(f)?;
            read!(f; CoordMsg::SercliStunResult { token: text, side: up_to, ok: truth })
        }
        GC_STUN_CONNECT =>
            read!(f; CoordMsg::GcStunConnect { token: text, tracking: number8, side: up_to, host: text, port: number16 }),
        GC_TURN_CONNECT =>
            read!(f; CoordMsg::GcTurnConnect { token: text, tracking: number8, ticket: text, host: text }),
        _ => Err(Bad::Malformed { at: 0 }),
    }
}

/// The fields of the message of that number. The two lists take memory, and no other message does.
fn fields_or_memory(alloc: Global, kind: u8, f: &mut Fields) -> Result<CoordMsg, Bad>
    requires start { f.old.at ≡ 0 }
    ensures read { ReadsOrMemory coord_messages kind result f.old f.new }
    ensures memory { result ≡ Err Memory → (kind ≡ 5) ⊎ (kind ≡ 15) }
{
    match kind {
        GC_LISTING => {
            let count = number16_up_to(f, 255)?;
            Ok(CoordMsg::GcListing {
                items: counted(alloc, count, f)?,
            })
        }
        GC_NEWGRF_LOOKUP => {
            let count: UpTo<62> = up_to(f)?;
            Ok(CoordMsg::GcNewgrfLookup {
                items: counted(alloc, count.get().into(), f)?,
            })
        }
        _ => fields_of(kind, f),
    }
}

/// The message that a body of that number spells.
fn read(alloc: Global, kind: u8, body: &[u8]) -> Result<CoordMsg, Bad>
    ensures read { MessageReadOrMemory result (read_by coord_messages kind (whole body.now)) }
    ensures memory { result ≡ Err Memory → (kind ≡ 5) ⊎ (kind ≡ 15) }
{
    let f = &mut Fields::new(body);
    let fields = fields_or_memory(alloc, kind, f);
    ended(fields, f)
}

/// Tells these parts, which are some message's.
fn told<W: PartWriter>(to: &mut W, parts: &[Part]) -> Result<(), OutOfMemory>
    requires { PartsFit parts.now }
    ensures { TellsThese coord_family W.word (all_said_by parts.now) result (W.text to.old) (W.text to.new) }
{
    tell(to, parts)
}

#[tactic(auto, unfolding(tt_frame::specs::Families::Tells))]
fn tell_update<'a, W: PartWriter>(
    to: &mut W,
    name: &'a Text<31>,
    revision: &'a Text<31>,
    clients: u8,
    max: u8,
    companies: u8,
    password: bool,
    frame: u32,
) -> Result<(), OutOfMemory>
    ensures { Tells coord_family W.word (server_update name.now revision.now clients max companies password frame) result
        (W.text to.old) (W.text to.new) }
{
    tell(
        to,
        &[
            Head(SERVER_UPDATE),
            Always(VERSION),
            Words(name.bytes()),
            Words(revision.bytes()),
            U8(clients),
            U8(max),
            U8(companies),
            Truth(password),
            U32(frame),
        ],
    )
}

#[tactic(auto, unfolding(tt_frame::specs::Families::Tells))]
fn tell_listing<W: PartWriter>(to: &mut W, items: &Servers) -> Result<(), OutOfMemory>
    ensures { Tells coord_family W.word (GcListing items.now) result (W.text to.old) (W.text to.new) }
{
    tell_counted(to, &[Head(GC_LISTING), Count16(items.len() as u16)], items)
}

#[tactic(auto, unfolding(tt_frame::specs::Families::Tells))]
fn tell_lookup<W: PartWriter>(to: &mut W, items: &LookupFiles) -> Result<(), OutOfMemory>
    ensures { Tells coord_family W.word (GcNewgrfLookup items.now) result (W.text to.old) (W.text to.new) }
{
    tell_counted(
        to,
        &[Head(GC_NEWGRF_LOOKUP), Count8(items.len() as u8)],
        items,
    )
}

/// Tells the message's parts.
fn tell_parts<W: PartWriter>(message: &CoordMsg, to: &mut W) -> Result<(), OutOfMemory>
    ensures { Tells coord_family W.word message.now result (W.text to.old) (W.text to.new) }
{
    match message {
        CoordMsg::GcError { code, detail } =>
            told!(to; Head(GC_ERROR), U8(code.get()), Words(detail.bytes())),
        CoordMsg::ServerRegister {
            kind,
            port,
            code,
            secret,
        } =>
            told!(to; Head(SERVER_REGISTER), Always(VERSION), U8(*kind), U16(*port), Words(code.bytes()), Words(secret.bytes())),
        CoordMsg::GcRegisterAck { code, secret, way } =>
            told!(to; Head(GC_REGISTER_ACK), Words(code.bytes()), Words(secret.bytes()), U8(way.get())),
        CoordMsg::ServerUpdate { info } => tell_update(
            to,
            &info.name,
            &info.revision,
            info.clients,
            info.max,
            info.companies,
            info.password,
            info.frame,
        ),
        CoordMsg::ClientListing { revision } =>
            told!(to; Head(CLIENT_LISTING), Always(VERSION), Words(revision.bytes())),
        CoordMsg::GcListing { items } => tell_listing(to, items),
        CoordMsg::ClientConnect { code } =>
            told!(to; Head(CLIENT_CONNECT), Always(VERSION), Words(code.bytes())),
        CoordMsg::GcConnecting { token, code } =>
            told!(to; Head(GC_CONNECTING), Words(token.bytes()), Words(code.bytes())),
        CoordMsg::SercliConnectFailed { token, tracking } =>
            told!(to; Head(SERCLI_CONNECT_FAILED), Always(VERSION), Words(token.bytes()), U8(*tracking)),
        CoordMsg::GcConnectFailed { token } =>
            told!(to; Head(GC_CONNECT_FAILED), Words(token.bytes())),
        CoordMsg::ClientConnected { token } =>
            told!(to; Head(CLIENT_CONNECTED), Always(VERSION), Words(token.bytes())),
        CoordMsg::GcDirectConnect {
            token,
            tracking,
            host,
            port,
        } =>
            told!(to; Head(GC_DIRECT_CONNECT), Words(token.bytes()), U8(*tracking), Words(host.bytes()), U16(*port)),
        CoordMsg::GcStunRequest { token } => told!(to; Head(GC_STUN_REQUEST), Words(token.bytes())),
        CoordMsg::SercliStunResult { token, side, ok } =>
            told!(to; Head(SERCLI_STUN_RESULT), Always(VERSION), Words(token.bytes()), U8(side.get()), Truth(*ok)),
        CoordMsg::GcStunConnect {
            token,
            tracking,
            side,
            host,
            port,
        } =>
            told!(to; Head(GC_STUN_CONNECT), Words(token.bytes()), U8(*tracking), U8(side.get()), Words(host.bytes()), U16(*port)),
        CoordMsg::GcNewgrfLookup { items } => tell_lookup(to, items),
        CoordMsg::GcTurnConnect {
            token,
            tracking,
            ticket,
            host,
        } =>
            told!(to; Head(GC_TURN_CONNECT), Words(token.bytes()), U8(*tracking), Words(ticket.bytes()), Words(host.bytes())),
    }
}

impl CoordMsg {
    /// The name of the message of that number, or no letters where no message has it.
    pub fn name_of(kind: u8) -> &'static [u8]
        ensures { result.now ≡ name_by coord_messages kind }
    {
        match kind {
            GC_ERROR => b"GC_ERROR",
            SERVER_REGISTER => b"SERVER_REGISTER",
            GC_REGISTER_ACK => b"GC_REGISTER_ACK",
            SERVER_UPDATE => b"SERVER_UPDATE",
            CLIENT_LISTING => b"CLIENT_LISTING",
            GC_LISTING => b"GC_LISTING",
            CLIENT_CONNECT => b"CLIENT_CONNECT",
            GC_CONNECTING => b"GC_CONNECTING",
            SERCLI_CONNECT_FAILED => b"SERCLI_CONNECT_FAILED",
            GC_CONNECT_FAILED => b"GC_CONNECT_FAILED",
            CLIENT_CONNECTED => b"CLIENT_CONNECTED",
            GC_DIRECT_CONNECT => b"GC_DIRECT_CONNECT",
            GC_STUN_REQUEST => b"GC_STUN_REQUEST",
            SERCLI_STUN_RESULT => b"SERCLI_STUN_RESULT",
            GC_STUN_CONNECT => b"GC_STUN_CONNECT",
            GC_NEWGRF_LOOKUP => b"GC_NEWGRF_LOOKUP",
            GC_TURN_CONNECT => b"GC_TURN_CONNECT",
            _ => &[],
        }
    }

    /// The message that a packet of this number and body spells, or why it spells none.
    pub fn decode(alloc: Global, kind: u8, body: &[u8]) -> Result<CoordMsg, Bad>
        // What is read is spelled so.
        ensures found { IfOk result (λ m. CoordSpells m kind body.now) }
        // What is spelled so is read, unless memory runs out, which it can only for the two lists.
        ensures only { (m : CoordMsg) → CoordSpells m kind body.now → (result ≡ Ok m) ⊎ (result ≡ Err Memory) }
        ensures memory { result ≡ Err Memory → (kind ≡ 5) ⊎ (kind ≡ 15) }

        // It is malformed only where nothing is spelled, and the place is that of the first field that isn't there, or of
        // the first byte behind the last field, or 0 where no message has the number.
        ensures nothing { (at : ℕ) (m : CoordMsg) → result ≡ Err (Malformed at) → CoordSpells m kind body.now → ⊥ }
        ensures place { (at : ℕ) → result ≡ Err (Malformed at) → StopsBy coord_messages kind body.now at }

        // All of this in one: the answer is what reading the body by the table gives.
        ensures exact { MessageReadOrMemory result (read_by coord_messages kind (whole body.now)) }
    {
        read(alloc, kind, body)
    }

    /// Tells the message's head and its parts, in order: what a writer writes for them stands behind what stood there.
    pub fn tell<W: PartWriter>(&self, to: &mut W) -> Result<(), OutOfMemory>
        ensures ok { OnOk result (W.text to.new ≡ W.text to.old ++ each_said W.word (family_said coord_family self.now)) }
        ensures err { OnErr result (take (length (W.text to.old)) (W.text to.new) ≡ W.text to.old) }
    {
        tell_parts(self, to)
    }

    /// Appends the packet of the message, or nothing where memory is refused.
    pub fn encode(&self, out: &mut Vec<u8>) -> Result<(), OutOfMemory>
        // What is appended is one packet, whose number and body spell the message.
        ensures ok { OnOk result (out.new.items ≡ out.old.items ++ packet (coord_kind_of self.now) (coord_body_bytes self.now)) }
        ensures spelled { CoordSpells self.now (coord_kind_of self.now) (coord_body_bytes self.now) }
        ensures size { length (coord_body_bytes self.now) + 3 ≤ largest_packet }

        ensures err { OnErr result (out.new.items ≡ out.old.items) }
    {
        let start = out.len();
        let written = tell_parts(self, out);
        finish(out, start, written)
    }
}
