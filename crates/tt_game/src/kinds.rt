//! Each message by its number: read by it, and told with it.
#![tactic(auto, unfolding(tt_frame::specs::Tables::Reads, tt_frame::specs::Tables::ReadsOrMemory))]

ghost use Rattle.std.specs.Prelude.{◌≡◌, Err};
ghost use Rattle.tt_frame.specs.declared.bad.Bad.TheVariants.{Memory};
ghost use Rattle.tt_frame.specs.Unread.{whole};
ghost use Rattle.tt_frame.specs.Tables.{MessageReadOrMemory, Reads, ReadsOrMemory, name_by, read_by};
ghost use Rattle.tt_frame.specs.Parts.{PartsFit, all_said_by};
ghost use Rattle.tt_frame.specs.Families.{Tells, TellsThese};
ghost use Rattle.tt_game.specs.Messages.{messages, playing_messages, TakesMemory};
ghost use Rattle.tt_game.specs.Apart.{game_family};
ghost use Rattle.tt_game.specs.declared.message.GameMsg.TheVariants.{ServerCheckNewgrfs};

use crate::files::Files;
use crate::map_piece::MapPiece;
use crate::message::GameMsg;
use std::alloc::Global;
use tt_frame::Part::{Count8, Head, Raw, Truth, U8, U16, U32, Words};
use tt_frame::{
    Bad, Fields, OutOfMemory, Part, PartWriter, UpTo, counted, digest, digits_or_none, ended,
    long_text, number8, number16, number32, optional_digest, read, tell, tell_counted, text, told,
    truth, up_to,
};

// The numbers of the messages, named here and nowhere else.
pub(crate) const SERVER_FULL: u8 = 0;

pub(crate) const SERVER_BANNED: u8 = 1;

pub(crate) const CLIENT_JOIN: u8 = 2;

pub(crate) const SERVER_ERROR: u8 = 3;

pub(crate) const CLIENT_GAME_INFO: u8 = 4;

pub(crate) const SERVER_GAME_INFO: u8 = 5;

pub(crate) const SERVER_CHECK_NEWGRFS: u8 = 6;

pub(crate) const CLIENT_NEWGRFS_CHECKED: u8 = 7;

pub(crate) const SERVER_NEED_GAME_PASSWORD: u8 = 8;

pub(crate) const CLIENT_GAME_PASSWORD: u8 = 9;

pub(crate) const SERVER_NEED_COMPANY_PASSWORD: u8 = 10;

pub(crate) const CLIENT_COMPANY_PASSWORD: u8 = 11;

pub(crate) const SERVER_WELCOME: u8 = 12;

pub(crate) const CLIENT_GETMAP: u8 = 13;

pub(crate) const SERVER_WAIT: u8 = 14;

pub(crate) const SERVER_MAP_BEGIN: u8 = 15;

pub(crate) const SERVER_MAP_SIZE: u8 = 16;

pub(crate) const SERVER_MAP_DATA: u8 = 17;

pub(crate) const SERVER_MAP_DONE: u8 = 18;

pub(crate) const CLIENT_MAP_OK: u8 = 19;

pub(crate) const SERVER_JOIN: u8 = 20;

pub(crate) const SERVER_FRAME: u8 = 21;

pub(crate) const SERVER_SYNC: u8 = 22;

pub(crate) const CLIENT_ACK: u8 = 23;

pub(crate) const CLIENT_COMMAND: u8 = 24;

pub(crate) const SERVER_COMMAND: u8 = 25;

pub(crate) const CLIENT_CHAT: u8 = 26;

pub(crate) const SERVER_CHAT: u8 = 27;

pub(crate) const CLIENT_SET_NAME: u8 = 28;

pub(crate) const SERVER_CLIENT_INFO: u8 = 29;

pub(crate) const CLIENT_SET_PASSWORD: u8 = 30;

pub(crate) const CLIENT_MOVE: u8 = 31;

pub(crate) const SERVER_MOVE: u8 = 32;

pub(crate) const CLIENT_ERROR: u8 = 33;

pub(crate) const SERVER_ERROR_QUIT: u8 = 34;

pub(crate) const CLIENT_QUIT: u8 = 35;

pub(crate) const SERVER_QUIT: u8 = 36;

pub(crate) const SERVER_SHUTDOWN: u8 = 37;

pub(crate) const SERVER_NEWGAME: u8 = 38;

/// The fields of the message of that number, of those that take no memory.
fn fields_of(kind: u8, f: &mut Fields) -> Result<GameMsg, Bad>
    requires place { f.old.at ≡ 0 }
    requires memory { TakesMemory kind → ⊥ }
    ensures { Reads messages kind result f.old f.new }
{
    match kind {
        SERVER_FULL => Ok(GameMsg::ServerFull),
        SERVER_BANNED => Ok(GameMsg::ServerBanned),
        CLIENT_JOIN =>
            read!(f; GameMsg::ClientJoin { revision: text, grf: number32, name: text, company: number8 }),
        SERVER_ERROR => read!(f; GameMsg::ServerError { code: up_to }),
        CLIENT_GAME_INFO => Ok(GameMsg::ClientGameInfo),
        SERVER_GAME_INFO =>
            read!(f; GameMsg::ServerGameInfo { name: text, frame: number32, clients: number8, companies: number8,
                max: number8, password: truth }),
        CLIENT_NEWGRFS_CHECKED => Ok(GameMsg::ClientNewgrfsChecked),
        SERVER_NEED_GAME_PASSWORD =>
            read!(f; GameMsg::ServerNeedGamePassword { seed: number32, id: text }),
        CLIENT_GAME_PASSWORD => read!(f; GameMsg::ClientGamePassword { digest: digest }),
        SERVER_NEED_COMPANY_PASSWORD =>
            read!(f; GameMsg::ServerNeedCompanyPassword { seed: number32, id: text }),
        CLIENT_COMPANY_PASSWORD => read!(f; GameMsg::ClientCompanyPassword { digest: digest }),
        SERVER_WELCOME =>
            read!(f; GameMsg::ServerWelcome { client: number32, seed: number32, id: text }),
        CLIENT_GETMAP => Ok(GameMsg::ClientGetmap),
        SERVER_WAIT => read!(f; GameMsg::ServerWait { number: number8 }),
        SERVER_MAP_BEGIN => read!(f; GameMsg::ServerMapBegin { frame: number32 }),
        SERVER_MAP_SIZE => read!(f; GameMsg::ServerMapSize { size: number32 }),
        SERVER_MAP_DONE => Ok(GameMsg::ServerMapDone),
        CLIENT_MAP_OK => Ok(GameMsg::ClientMapOk),
        _ => playing_fields_of(kind, f),
    }
}

/// The same of a client that plays.
fn playing_fields_of(kind: u8, f: &mut Fields) -> Result<GameMsg, Bad>
    requires place { f.old.at ≡ 0 }
    requires memory { TakesMemory kind → ⊥ }
    ensures { Reads playing_messages kind result f.old f.new }
{
    match kind {
        SERVER_JOIN => read!(f; GameMsg::ServerJoin { client: number32 }),
        SERVER_FRAME =>
            read!(f; GameMsg::ServerFrame { frame: number32, max: number32, token: number8 }),
        SERVER_SYNC => read!(f; GameMsg::ServerSync { frame: number32, word: number32 }),
        CLIENT_ACK => read!(f; GameMsg::ClientAck { frame: number32, token: number8 }),
        CLIENT_COMMAND =>
            read!(f; GameMsg::ClientCommand { company: number8, code: number16, number: number32, to: number8, text: text }),
        SERVER_COMMAND =>
            read!(f; GameMsg::ServerCommand { company: number8, code: number16, number: number32, to: number8,
                text: text, frame: number32, sender: number32 }),
        CLIENT_SET_NAME => read!(f; GameMsg::ClientSetName { name: text }),
        SERVER_CLIENT_INFO =>
            read!(f; GameMsg::ServerClientInfo { client: number32, company: number8, name: text }),
        CLIENT_SET_PASSWORD => read!(f; GameMsg::ClientSetPassword { digest: optional_digest }),
        CLIENT_MOVE => read!(f; GameMsg::ClientMove { company: number8, digest: optional_digest }),
        SERVER_MOVE => read!(f; GameMsg::ServerMove { client: number32, company: number8 }),
        CLIENT_ERROR => read!(f; GameMsg::ClientError { code: up_to }),
        SERVER_ERROR_QUIT => read!(f; GameMsg::ServerErrorQuit { client: number32, code: up_to }),
        CLIENT_QUIT => Ok(GameMsg::ClientQuit),
        SERVER_QUIT => read!(f; GameMsg::ServerQuit { client: number32 }),
        SERVER_SHUTDOWN => Ok(GameMsg::ServerShutdown),
        SERVER_NEWGAME => Ok(GameMsg::ServerNewgame),
        _ => Err(Bad::Malformed { at: 0 }),
    }
}

/// The fields of the message of that number.
fn fields_or_memory(alloc: Global, kind: u8, f: &mut Fields) -> Result<GameMsg, Bad>
    requires place { f.old.at ≡ 0 }
    ensures read { ReadsOrMemory messages kind result f.old f.new }
    ensures memory { result ≡ Err Memory → TakesMemory kind }
{
    match kind {
        SERVER_CHECK_NEWGRFS => {
            let count: UpTo<62> = up_to(f)?;
            Ok(GameMsg::ServerCheckNewgrfs {
                items: counted(alloc, u16::from(count.get()), f)?,
            })
        }
        SERVER_MAP_DATA => {
            let at = f.at();
            match MapPiece::new(alloc, f.rest()) {
                Ok(Some(rest)) => Ok(GameMsg::ServerMapData { rest }),
                Ok(None) => Err(Bad::Malformed { at }),
                Err(OutOfMemory) => Err(Bad::Memory),
            }
        }
        CLIENT_CHAT => Ok(GameMsg::ClientChat {
            scope: up_to(f)?,
            to: number32(f)?,
            text: long_text(alloc, f)?,
        }),
        SERVER_CHAT => Ok(GameMsg::ServerChat {
            client: number32(f)?,
            scope: up_to(f)?,
            text: long_text(alloc, f)?,
        }),
        _ => fields_of(kind, f),
    }
}

/// The message that a body of that number spells. Memory runs out only for those that take some.
pub(crate) fn read(alloc: Global, kind: u8, body: &[u8]) -> Result<GameMsg, Bad>
    ensures read { MessageReadOrMemory result (read_by messages kind (whole body.now)) }
    ensures memory { result ≡ Err Memory → TakesMemory kind }
{
    let f = &mut Fields::new(body);
    let fields = fields_or_memory(alloc, kind, f);
    ended(fields, f)
}

/// The name of the message of that number.
pub(crate) fn name_of(kind: u8) -> &'static [u8]
    ensures { result.now ≡ name_by messages kind }
{
    match kind {
        SERVER_FULL => b"SERVER_FULL",
        SERVER_BANNED => b"SERVER_BANNED",
        CLIENT_JOIN => b"CLIENT_JOIN",
        SERVER_ERROR => b"SERVER_ERROR",
        CLIENT_GAME_INFO => b"CLIENT_GAME_INFO",
        SERVER_GAME_INFO => b"SERVER_GAME_INFO",
        SERVER_CHECK_NEWGRFS => b"SERVER_CHECK_NEWGRFS",
        CLIENT_NEWGRFS_CHECKED => b"CLIENT_NEWGRFS_CHECKED",
        SERVER_NEED_GAME_PASSWORD => b"SERVER_NEED_GAME_PASSWORD",
        CLIENT_GAME_PASSWORD => b"CLIENT_GAME_PASSWORD",
        SERVER_NEED_COMPANY_PASSWORD => b"SERVER_NEED_COMPANY_PASSWORD",
        CLIENT_COMPANY_PASSWORD => b"CLIENT_COMPANY_PASSWORD",
        SERVER_WELCOME => b"SERVER_WELCOME",
        CLIENT_GETMAP => b"CLIENT_GETMAP",
        SERVER_WAIT => b"SERVER_WAIT",
        SERVER_MAP_BEGIN => b"SERVER_MAP_BEGIN",
        SERVER_MAP_SIZE => b"SERVER_MAP_SIZE",
        SERVER_MAP_DATA => b"SERVER_MAP_DATA",
        SERVER_MAP_DONE => b"SERVER_MAP_DONE",
        CLIENT_MAP_OK => b"CLIENT_MAP_OK",
        SERVER_JOIN => b"SERVER_JOIN",
        SERVER_FRAME => b"SERVER_FRAME",
        SERVER_SYNC => b"SERVER_SYNC",
        CLIENT_ACK => b"CLIENT_ACK",
        CLIENT_COMMAND => b"CLIENT_COMMAND",
        SERVER_COMMAND => b"SERVER_COMMAND",
        CLIENT_CHAT => b"CLIENT_CHAT",
        SERVER_CHAT => b"SERVER_CHAT",
        CLIENT_SET_NAME => b"CLIENT_SET_NAME",
        SERVER_CLIENT_INFO => b"SERVER_CLIENT_INFO",
        CLIENT_SET_PASSWORD => b"CLIENT_SET_PASSWORD",
        CLIENT_MOVE => b"CLIENT_MOVE",
        SERVER_MOVE => b"SERVER_MOVE",
        CLIENT_ERROR => b"CLIENT_ERROR",
        SERVER_ERROR_QUIT => b"SERVER_ERROR_QUIT",
        CLIENT_QUIT => b"CLIENT_QUIT",
        SERVER_QUIT => b"SERVER_QUIT",
        SERVER_SHUTDOWN => b"SERVER_SHUTDOWN",
        SERVER_NEWGAME => b"SERVER_NEWGAME",
        _ => &[],
    }
}

/// Tells these parts, which are some message's.
fn told<W: PartWriter>(to: &mut W, parts: &[Part]) -> Result<(), OutOfMemory>
    requires { PartsFit parts.now }
    ensures { TellsThese game_family W.word (all_said_by parts.now) result (W.text to.old) (W.text to.new) }
{
    tell(to, parts)
}

#[tactic(auto, unfolding(tt_frame::specs::Families::Tells))]
fn tell_server_check_newgrfs<W: PartWriter>(to: &mut W, items: &Files) -> Result<(), OutOfMemory>
    ensures { Tells game_family W.word (ServerCheckNewgrfs items.now) result (W.text to.old) (W.text to.new) }
{
    let count = items.len() as u8;
    tell_counted(to, &[Head(SERVER_CHECK_NEWGRFS), Count8(count)], items)
}

/// Tells the message's parts.
pub(crate) fn tell_parts<W: PartWriter>(
    message: &GameMsg,
    writer: &mut W,
) -> Result<(), OutOfMemory>
    ensures { Tells game_family W.word message.now result (W.text writer.old) (W.text writer.new) }
{
    match message {
        GameMsg::ServerFull => told!(writer; Head(SERVER_FULL)),
        GameMsg::ServerBanned => told!(writer; Head(SERVER_BANNED)),
        GameMsg::ClientJoin {
            revision,
            grf,
            name,
            company,
        } =>
            told!(writer; Head(CLIENT_JOIN), Words(revision.bytes()), U32(*grf), Words(name.bytes()), U8(*company)),
        GameMsg::ServerError { code } => told!(writer; Head(SERVER_ERROR), U8(code.get())),
        GameMsg::ClientGameInfo => told!(writer; Head(CLIENT_GAME_INFO)),
        GameMsg::ServerGameInfo {
            name,
            frame,
            clients,
            companies,
            max,
            password,
        } =>
            told!(writer; Head(SERVER_GAME_INFO), Words(name.bytes()), U32(*frame), U8(*clients), U8(*companies),
                U8(*max), Truth(*password)),
        GameMsg::ServerCheckNewgrfs { items } => tell_server_check_newgrfs(writer, items),
        GameMsg::ClientNewgrfsChecked => told!(writer; Head(CLIENT_NEWGRFS_CHECKED)),
        GameMsg::ServerNeedGamePassword { seed, id } =>
            told!(writer; Head(SERVER_NEED_GAME_PASSWORD), U32(*seed), Words(id.bytes())),
        GameMsg::ClientGamePassword { digest } =>
            told!(writer; Head(CLIENT_GAME_PASSWORD), Words(digest.bytes())),
        GameMsg::ServerNeedCompanyPassword { seed, id } =>
            told!(writer; Head(SERVER_NEED_COMPANY_PASSWORD), U32(*seed), Words(id.bytes())),
        GameMsg::ClientCompanyPassword { digest } =>
            told!(writer; Head(CLIENT_COMPANY_PASSWORD), Words(digest.bytes())),
        GameMsg::ServerWelcome { client, seed, id } =>
            told!(writer; Head(SERVER_WELCOME), U32(*client), U32(*seed), Words(id.bytes())),
        GameMsg::ClientGetmap => told!(writer; Head(CLIENT_GETMAP)),
        GameMsg::ServerWait { number } => told!(writer; Head(SERVER_WAIT), U8(*number)),
        GameMsg::ServerMapBegin { frame } => told!(writer; Head(SERVER_MAP_BEGIN), U32(*frame)),
        GameMsg::ServerMapSize { size } => told!(writer; Head(SERVER_MAP_SIZE), U32(*size)),
        GameMsg::ServerMapData { rest } => told!(writer; Head(SERVER_MAP_DATA), Raw(rest.bytes())),
        GameMsg::ServerMapDone => told!(writer; Head(SERVER_MAP_DONE)),
        GameMsg::ClientMapOk => told!(writer; Head(CLIENT_MAP_OK)),
        GameMsg::ServerJoin { client } => told!(writer; Head(SERVER_JOIN), U32(*client)),
        GameMsg::ServerFrame { frame, max, token } =>
            told!(writer; Head(SERVER_FRAME), U32(*frame), U32(*max), U8(*token)),
        GameMsg::ServerSync { frame, word } =>
            told!(writer; Head(SERVER_SYNC), U32(*frame), U32(*word)),
        GameMsg::ClientAck { frame, token } =>
            told!(writer; Head(CLIENT_ACK), U32(*frame), U8(*token)),
        GameMsg::ClientCommand {
            company,
            code,
            number,
            to,
            text,
        } =>
            told!(writer; Head(CLIENT_COMMAND), U8(*company), U16(*code), U32(*number), U8(*to), Words(text.bytes())),
        GameMsg::ServerCommand {
            company,
            code,
            number,
            to,
            text,
            frame,
            sender,
        } =>
            told!(writer; Head(SERVER_COMMAND), U8(*company), U16(*code), U32(*number), U8(*to), Words(text.bytes()),
                U32(*frame), U32(*sender)),
        GameMsg::ClientChat { scope, to, text } =>
            told!(writer; Head(CLIENT_CHAT), U8(scope.get()), U32(*to), Words(text.bytes())),
        GameMsg::ServerChat {
            client,
            scope,
            text,
        } => told!(writer; Head(SERVER_CHAT), U32(*client), U8(scope.get()), Words(text.bytes())),
        GameMsg::ClientSetName { name } =>
            told!(writer; Head(CLIENT_SET_NAME), Words(name.bytes())),
        GameMsg::ServerClientInfo {
            client,
            company,
            name,
        } =>
            told!(writer; Head(SERVER_CLIENT_INFO), U32(*client), U8(*company), Words(name.bytes())),
        GameMsg::ClientSetPassword { digest } =>
            told!(writer; Head(CLIENT_SET_PASSWORD), Words(digits_or_none(digest))),
        GameMsg::ClientMove { company, digest } =>
            told!(writer; Head(CLIENT_MOVE), U8(*company), Words(digits_or_none(digest))),
        GameMsg::ServerMove { client, company } =>
            told!(writer; Head(SERVER_MOVE), U32(*client), U8(*company)),
        GameMsg::ClientError { code } => told!(writer; Head(CLIENT_ERROR), U8(code.get())),
        GameMsg::ServerErrorQuit { client, code } =>
            told!(writer; Head(SERVER_ERROR_QUIT), U32(*client), U8(code.get())),
        GameMsg::ClientQuit => told!(writer; Head(CLIENT_QUIT)),
        GameMsg::ServerQuit { client } => told!(writer; Head(SERVER_QUIT), U32(*client)),
        GameMsg::ServerShutdown => told!(writer; Head(SERVER_SHUTDOWN)),
        GameMsg::ServerNewgame => told!(writer; Head(SERVER_NEWGAME)),
    }
}
