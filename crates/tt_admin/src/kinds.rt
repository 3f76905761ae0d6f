//! Each message by its number: read by it, and told with it.
#![tactic(auto, unfolding(tt_frame::specs::Tables::Reads, tt_frame::specs::Tables::ReadsOrMemory))]

ghost use Rattle.std.specs.Prelude.{◌≡◌, Err};
ghost use Rattle.tt_frame.specs.declared.bad.Bad.TheVariants.{Memory};
ghost use Rattle.tt_frame.specs.Unread.{whole};
ghost use Rattle.tt_frame.specs.Tables.{MessageReadOrMemory, Reads, ReadsOrMemory, name_by, read_by};
ghost use Rattle.tt_frame.specs.Parts.{PartsFit, all_said_by};
ghost use Rattle.tt_frame.specs.Families.{Tells, TellsThese};
ghost use Rattle.tt_admin.specs.Messages.{messages, report_messages, TakesMemory};
ghost use Rattle.tt_admin.specs.Apart.{admin_family};
ghost use Rattle.tt_admin.specs.declared.message.AdminMsg.TheVariants.{ServerProtocol, ServerCmdNames};

use crate::items::{CommandNames, UpdateTypes};
use crate::message::AdminMsg;
use std::alloc::Global;
use tt_frame::Part::{Head, Truth, U8, U16, U32, U64, Words};
use tt_frame::{
    Bad, Fields, OutOfMemory, Part, PartWriter, ended, long_text, marked, number8, number16,
    number32, number64, read, tell, tell_marked, text, told, truth, up_to,
};

// The numbers of the messages, named here and nowhere else.
pub(crate) const ADMIN_JOIN: u8 = 0;

pub(crate) const ADMIN_QUIT: u8 = 1;

pub(crate) const ADMIN_UPDATE_FREQUENCY: u8 = 2;

pub(crate) const ADMIN_POLL: u8 = 3;

pub(crate) const ADMIN_CHAT: u8 = 4;

pub(crate) const ADMIN_RCON: u8 = 5;

pub(crate) const ADMIN_GAMESCRIPT: u8 = 6;

pub(crate) const ADMIN_PING: u8 = 7;

pub(crate) const ADMIN_EXTERNAL_CHAT: u8 = 8;

pub(crate) const SERVER_FULL: u8 = 100;

pub(crate) const SERVER_BANNED: u8 = 101;

pub(crate) const SERVER_ERROR: u8 = 102;

pub(crate) const SERVER_PROTOCOL: u8 = 103;

pub(crate) const SERVER_WELCOME: u8 = 104;

pub(crate) const SERVER_NEWGAME: u8 = 105;

pub(crate) const SERVER_SHUTDOWN: u8 = 106;

pub(crate) const SERVER_DATE: u8 = 107;

pub(crate) const SERVER_CLIENT_JOIN: u8 = 108;

pub(crate) const SERVER_CLIENT_INFO: u8 = 109;

pub(crate) const SERVER_CLIENT_UPDATE: u8 = 110;

pub(crate) const SERVER_CLIENT_QUIT: u8 = 111;

pub(crate) const SERVER_CLIENT_ERROR: u8 = 112;

pub(crate) const SERVER_COMPANY_NEW: u8 = 113;

pub(crate) const SERVER_COMPANY_INFO: u8 = 114;

pub(crate) const SERVER_COMPANY_UPDATE: u8 = 115;

pub(crate) const SERVER_COMPANY_REMOVE: u8 = 116;

pub(crate) const SERVER_COMPANY_ECONOMY: u8 = 117;

pub(crate) const SERVER_COMPANY_STATS: u8 = 118;

pub(crate) const SERVER_CHAT: u8 = 119;

pub(crate) const SERVER_RCON: u8 = 120;

pub(crate) const SERVER_CONSOLE: u8 = 121;

pub(crate) const SERVER_CMD_NAMES: u8 = 122;

pub(crate) const SERVER_CMD_LOGGING_OLD: u8 = 123;

pub(crate) const SERVER_GAMESCRIPT: u8 = 124;

pub(crate) const SERVER_RCON_END: u8 = 125;

pub(crate) const SERVER_PONG: u8 = 126;

pub(crate) const SERVER_CMD_LOGGING: u8 = 127;

/// The fields of the message of that number, of those that take no memory.
fn fields_of(kind: u8, f: &mut Fields) -> Result<AdminMsg, Bad>
    requires place { f.old.at ≡ 0 }
    requires memory { TakesMemory kind → ⊥ }
    ensures { Reads messages kind result f.old f.new }
{
    match kind {
        ADMIN_JOIN =>
            read!(f; AdminMsg::AdminJoin { password: text, application: text, version: text }),
        ADMIN_QUIT => Ok(AdminMsg::AdminQuit),
        ADMIN_UPDATE_FREQUENCY =>
            read!(f; AdminMsg::AdminUpdateFrequency { kind: number16, bits: number16 }),
        ADMIN_POLL => read!(f; AdminMsg::AdminPoll { kind: number8, id: number32 }),
        ADMIN_PING => read!(f; AdminMsg::AdminPing { id: number32 }),
        SERVER_FULL => Ok(AdminMsg::ServerFull),
        SERVER_BANNED => Ok(AdminMsg::ServerBanned),
        SERVER_ERROR => read!(f; AdminMsg::ServerError { code: up_to }),
        SERVER_WELCOME =>
            read!(f; AdminMsg::ServerWelcome { name: text, revision: text, dedicated: truth, map: text,
                seed: number32, landscape: number8, day: number32, width: number16, height: number16 }),
        SERVER_NEWGAME => Ok(AdminMsg::ServerNewgame),
        SERVER_SHUTDOWN => Ok(AdminMsg::ServerShutdown),
        _ => report_fields_of(kind, f),
    }
}

/// The same of reports.
fn report_fields_of(kind: u8, f: &mut Fields) -> Result<AdminMsg, Bad>
    requires place { f.old.at ≡ 0 }
    requires memory { TakesMemory kind → ⊥ }
    ensures { Reads report_messages kind result f.old f.new }
{
    match kind {
        SERVER_DATE => read!(f; AdminMsg::ServerDate { day: number32 }),
        SERVER_CLIENT_JOIN => read!(f; AdminMsg::ServerClientJoin { id: number32 }),
        SERVER_CLIENT_INFO =>
            read!(f; AdminMsg::ServerClientInfo { client: number32, name: text, company: number8 }),
        SERVER_CLIENT_UPDATE =>
            read!(f; AdminMsg::ServerClientUpdate { client: number32, name: text, company: number8 }),
        SERVER_CLIENT_QUIT => read!(f; AdminMsg::ServerClientQuit { id: number32 }),
        SERVER_CLIENT_ERROR => read!(f; AdminMsg::ServerClientError { id: number32, code: up_to }),
        SERVER_COMPANY_NEW => read!(f; AdminMsg::ServerCompanyNew { id: number8 }),
        SERVER_COMPANY_INFO =>
            read!(f; AdminMsg::ServerCompanyInfo { company: number8, name: text, president: text, password: truth }),
        SERVER_COMPANY_UPDATE =>
            read!(f; AdminMsg::ServerCompanyUpdate { company: number8, name: text, president: text, password: truth }),
        SERVER_COMPANY_REMOVE =>
            read!(f; AdminMsg::ServerCompanyRemove { id: number8, reason: number8 }),
        SERVER_COMPANY_ECONOMY =>
            read!(f; AdminMsg::ServerCompanyEconomy { company: number8, money: number64, loan: number32 }),
        SERVER_COMPANY_STATS =>
            read!(f; AdminMsg::ServerCompanyStats { company: number8, signs: number16 }),
        SERVER_CMD_LOGGING_OLD => Ok(AdminMsg::ServerCmdLoggingOld),
        SERVER_PONG => read!(f; AdminMsg::ServerPong { id: number32 }),
        SERVER_CMD_LOGGING =>
            read!(f; AdminMsg::ServerCmdLogging { client: number32, company: number8, code: number16, frame: number32 }),
        _ => Err(Bad::Malformed { at: 0 }),
    }
}

/// The fields of the message of that number.
fn fields_or_memory(alloc: Global, kind: u8, f: &mut Fields) -> Result<AdminMsg, Bad>
    requires place { f.old.at ≡ 0 }
    ensures read { ReadsOrMemory messages kind result f.old f.new }
    ensures memory { result ≡ Err Memory → TakesMemory kind }
{
    match kind {
        ADMIN_CHAT => Ok(AdminMsg::AdminChat {
            scope: up_to(f)?,
            to: number32(f)?,
            text: long_text(alloc, f)?,
        }),
        ADMIN_RCON => Ok(AdminMsg::AdminRcon {
            text: long_text(alloc, f)?,
        }),
        ADMIN_GAMESCRIPT => Ok(AdminMsg::AdminGamescript {
            text: long_text(alloc, f)?,
        }),
        ADMIN_EXTERNAL_CHAT => Ok(AdminMsg::AdminExternalChat {
            source: text(f)?,
            colour: number16(f)?,
            user: text(f)?,
            text: long_text(alloc, f)?,
        }),
        SERVER_PROTOCOL => Ok(AdminMsg::ServerProtocol {
            version: number8(f)?,
            items: marked(alloc, f)?,
        }),
        SERVER_CHAT => Ok(AdminMsg::ServerChat {
            scope: up_to(f)?,
            client: number32(f)?,
            text: long_text(alloc, f)?,
        }),
        SERVER_RCON => Ok(AdminMsg::ServerRcon {
            colour: number16(f)?,
            text: long_text(alloc, f)?,
        }),
        SERVER_CONSOLE => Ok(AdminMsg::ServerConsole {
            origin: text(f)?,
            text: long_text(alloc, f)?,
        }),
        SERVER_CMD_NAMES => Ok(AdminMsg::ServerCmdNames {
            items: marked(alloc, f)?,
        }),
        SERVER_GAMESCRIPT => Ok(AdminMsg::ServerGamescript {
            text: long_text(alloc, f)?,
        }),
        SERVER_RCON_END => Ok(AdminMsg::ServerRconEnd {
            text: long_text(alloc, f)?,
        }),
        _ => fields_of(kind, f),
    }
}

/// The message that a body of that number spells. Memory runs out only for those that take some.
pub(crate) fn read(alloc: Global, kind: u8, body: &[u8]) -> Result<AdminMsg, Bad>
    ensures read { MessageReadOrMemory result (read_by messages kind (whole body.now)) }
    ensures memory { result ≡ Err Memory → TakesMemory kind }
{
    let f = &mut Fields::new(body);
    let fields = fields_or_memory(alloc, kind, f);
    ended(fields, f)
}

/// The name of the message of that number.
pub(crate) fn name_of(kind: u8) -> &'static [u8]
    ensures { result.now ≡ name_by messages kind }
{
    match kind {
        ADMIN_JOIN => b"JOIN",
        ADMIN_QUIT => b"QUIT",
        ADMIN_UPDATE_FREQUENCY => b"UPDATE_FREQUENCY",
        ADMIN_POLL => b"POLL",
        ADMIN_CHAT => b"CHAT",
        ADMIN_RCON => b"RCON",
        ADMIN_GAMESCRIPT => b"GAMESCRIPT",
        ADMIN_PING => b"PING",
        ADMIN_EXTERNAL_CHAT => b"EXTERNAL_CHAT",
        SERVER_FULL => b"FULL",
        SERVER_BANNED => b"BANNED",
        SERVER_ERROR => b"ERROR",
        SERVER_PROTOCOL => b"PROTOCOL",
        SERVER_WELCOME => b"WELCOME",
        SERVER_NEWGAME => b"NEWGAME",
        SERVER_SHUTDOWN => b"SHUTDOWN",
        SERVER_DATE => b"DATE",
        SERVER_CLIENT_JOIN => b"CLIENT_JOIN",
        SERVER_CLIENT_INFO => b"CLIENT_INFO",
        SERVER_CLIENT_UPDATE => b"CLIENT_UPDATE",
        SERVER_CLIENT_QUIT => b"CLIENT_QUIT",
        SERVER_CLIENT_ERROR => b"CLIENT_ERROR",
        SERVER_COMPANY_NEW => b"COMPANY_NEW",
        SERVER_COMPANY_INFO => b"COMPANY_INFO",
        SERVER_COMPANY_UPDATE => b"COMPANY_UPDATE",
        SERVER_COMPANY_REMOVE => b"COMPANY_REMOVE",
        SERVER_COMPANY_ECONOMY => b"COMPANY_ECONOMY",
        SERVER_COMPANY_STATS => b"COMPANY_STATS",
        SERVER_CHAT => b"CHAT",
        SERVER_RCON => b"RCON",
        SERVER_CONSOLE => b"CONSOLE",
        SERVER_CMD_NAMES => b"CMD_NAMES",
        SERVER_CMD_LOGGING_OLD => b"CMD_LOGGING_OLD",
        SERVER_GAMESCRIPT => b"GAMESCRIPT",
        SERVER_RCON_END => b"RCON_END",
        SERVER_PONG => b"PONG",
        SERVER_CMD_LOGGING => b"CMD_LOGGING",
        _ => &[],
    }
}

/// Tells these parts, which are some message's.
fn told<W: PartWriter>(to: &mut W, parts: &[Part]) -> Result<(), OutOfMemory>
    requires { PartsFit parts.now }
    ensures { TellsThese admin_family W.word (all_said_by parts.now) result (W.text to.old) (W.text to.new) }
{
    tell(to, parts)
}

#[tactic(auto, unfolding(tt_frame::specs::Families::Tells))]
fn tell_server_protocol<W: PartWriter>(
    to: &mut W,
    version: u8,
    items: &UpdateTypes,
) -> Result<(), OutOfMemory>
    ensures { Tells admin_family W.word (ServerProtocol version items.now) result (W.text to.old) (W.text to.new) }
{
    let _count = items.len();
    tell_marked(to, &[Head(SERVER_PROTOCOL), U8(version)], items)
}

#[tactic(auto, unfolding(tt_frame::specs::Families::Tells))]
fn tell_server_cmd_names<W: PartWriter>(to: &mut W, items: &CommandNames) -> Result<(), OutOfMemory>
    ensures { Tells admin_family W.word (ServerCmdNames items.now) result (W.text to.old) (W.text to.new) }
{
    let _count = items.len();
    tell_marked(to, &[Head(SERVER_CMD_NAMES)], items)
}

/// Tells the message's parts.
pub(crate) fn tell_parts<W: PartWriter>(
    message: &AdminMsg,
    writer: &mut W,
) -> Result<(), OutOfMemory>
    ensures { Tells admin_family W.word message.now result (W.text writer.old) (W.text writer.new) }
{
    match message {
        AdminMsg::AdminJoin {
            password,
            application,
            version,
        } =>
            told!(writer; Head(ADMIN_JOIN), Words(password.bytes()), Words(application.bytes()), Words(version.bytes())),
        AdminMsg::AdminQuit => told!(writer; Head(ADMIN_QUIT)),
        AdminMsg::AdminUpdateFrequency { kind, bits } =>
            told!(writer; Head(ADMIN_UPDATE_FREQUENCY), U16(*kind), U16(*bits)),
        AdminMsg::AdminPoll { kind, id } => told!(writer; Head(ADMIN_POLL), U8(*kind), U32(*id)),
        AdminMsg::AdminChat { scope, to, text } =>
            told!(writer; Head(ADMIN_CHAT), U8(scope.get()), U32(*to), Words(text.bytes())),
        AdminMsg::AdminRcon { text } => told!(writer; Head(ADMIN_RCON), Words(text.bytes())),
        AdminMsg::AdminGamescript { text } =>
            told!(writer; Head(ADMIN_GAMESCRIPT), Words(text.bytes())),
        AdminMsg::AdminPing { id } => told!(writer; Head(ADMIN_PING), U32(*id)),
        AdminMsg::AdminExternalChat {
            source,
            colour,
            user,
            text,
        } =>
            told!(writer; Head(ADMIN_EXTERNAL_CHAT), Words(source.bytes()), U16(*colour), Words(user.bytes()),
                Words(text.bytes())),
        AdminMsg::ServerFull => told!(writer; Head(SERVER_FULL)),
        AdminMsg::ServerBanned => told!(writer; Head(SERVER_BANNED)),
        AdminMsg::ServerError { code } => told!(writer; Head(SERVER_ERROR), U8(code.get())),
        AdminMsg::ServerProtocol { version, items } => tell_server_protocol(
            writer, *version, items,
        ),
        AdminMsg::ServerWelcome {
            name,
            revision,
            dedicated,
            map,
            seed,
            landscape,
            day,
            width,
            height,
        } =>
            told!(writer; Head(SERVER_WELCOME), Words(name.bytes()), Words(revision.bytes()), Truth(*dedicated),
                Words(map.bytes()), U32(*seed), U8(*landscape), U32(*day), U16(*width), U16(*height)),
        AdminMsg::ServerNewgame => told!(writer; Head(SERVER_NEWGAME)),
        AdminMsg::ServerShutdown => told!(writer; Head(SERVER_SHUTDOWN)),
        AdminMsg::ServerDate { day } => told!(writer; Head(SERVER_DATE), U32(*day)),
        AdminMsg::ServerClientJoin { id } => told!(writer; Head(SERVER_CLIENT_JOIN), U32(*id)),
        AdminMsg::ServerClientInfo {
            client,
            name,
            company,
        } =>
            told!(writer; Head(SERVER_CLIENT_INFO), U32(*client), Words(name.bytes()), U8(*company)),
        AdminMsg::ServerClientUpdate {
            client,
            name,
            company,
        } =>
            told!(writer; Head(SERVER_CLIENT_UPDATE), U32(*client), Words(name.bytes()), U8(*company)),
        AdminMsg::ServerClientQuit { id } => told!(writer; Head(SERVER_CLIENT_QUIT), U32(*id)),
        AdminMsg::ServerClientError { id, code } =>
            told!(writer; Head(SERVER_CLIENT_ERROR), U32(*id), U8(code.get())),
        AdminMsg::ServerCompanyNew { id } => told!(writer; Head(SERVER_COMPANY_NEW), U8(*id)),
        AdminMsg::ServerCompanyInfo {
            company,
            name,
            president,
            password,
        } =>
            told!(writer; Head(SERVER_COMPANY_INFO), U8(*company), Words(name.bytes()), Words(president.bytes()),
                Truth(*password)),
        AdminMsg::ServerCompanyUpdate {
            company,
            name,
            president,
            password,
        } =>
            told!(writer; Head(SERVER_COMPANY_UPDATE), U8(*company), Words(name.bytes()), Words(president.bytes()),
                Truth(*password)),
        AdminMsg::ServerCompanyRemove { id, reason } =>
            told!(writer; Head(SERVER_COMPANY_REMOVE), U8(*id), U8(*reason)),
        AdminMsg::ServerCompanyEconomy {
            company,
            money,
            loan,
        } => told!(writer; Head(SERVER_COMPANY_ECONOMY), U8(*company), U64(*money), U32(*loan)),
        AdminMsg::ServerCompanyStats { company, signs } =>
            told!(writer; Head(SERVER_COMPANY_STATS), U8(*company), U16(*signs)),
        AdminMsg::ServerChat {
            scope,
            client,
            text,
        } => told!(writer; Head(SERVER_CHAT), U8(scope.get()), U32(*client), Words(text.bytes())),
        AdminMsg::ServerRcon { colour, text } =>
            told!(writer; Head(SERVER_RCON), U16(*colour), Words(text.bytes())),
        AdminMsg::ServerConsole { origin, text } =>
            told!(writer; Head(SERVER_CONSOLE), Words(origin.bytes()), Words(text.bytes())),
        AdminMsg::ServerCmdNames { items } => tell_server_cmd_names(writer, items),
        AdminMsg::ServerCmdLoggingOld => told!(writer; Head(SERVER_CMD_LOGGING_OLD)),
        AdminMsg::ServerGamescript { text } =>
            told!(writer; Head(SERVER_GAMESCRIPT), Words(text.bytes())),
        AdminMsg::ServerRconEnd { text } =>
            told!(writer; Head(SERVER_RCON_END), Words(text.bytes())),
        AdminMsg::ServerPong { id } => told!(writer; Head(SERVER_PONG), U32(*id)),
        AdminMsg::ServerCmdLogging {
            client,
            company,
            code,
            frame,
        } =>
            told!(writer; Head(SERVER_CMD_LOGGING), U32(*client), U8(*company), U16(*code), U32(*frame)),
    }
}
