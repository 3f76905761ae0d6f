//! What an admin says: what its message asks for, or the code that ends it.
ghost use Rattle.std.specs.Prelude.{◌≡◌, ◌||◌, not, bytes_eq};
ghost use Rattle.tt_world.specs.World.{WorldState};
ghost use Rattle.tt_rules.specs.Codes.{illegal_packet};
ghost use Rattle.tt_rules.specs.Reasons.{◌⇒◌};
ghost use Rattle.tt_log.specs.Admin.{may_be_polled, may_be_told};
ghost use Rattle.tt_log.specs.Desk.{admin_join_refused, admin_refused, behind_join};
ghost use Rattle.tt_log.specs.Judged.{is_empty};
ghost use Rattle.tt_admin_desk.specs.Hearing.{begun, console_line, hears, says};

use crate::admin::{Admin, may_be_polled, may_be_told};
use crate::commands::{ConsoleCommand, console};
use tt_admin::AdminMsg;
use tt_frame::{Line, LongText, Text};
use tt_world::Setup;

/// Ends an admin: a name without bytes, bits that may not be set, or a type that may not be asked for.
const ILLEGAL_PACKET: u8 = 4;

/// Ends an admin: a second JOIN, anything else before JOIN, or a server's message.
const NOT_EXPECTED: u8 = 7;

/// Ends an admin: another password than that of admins, or there is none.
const WRONG_PASSWORD: u8 = 10;

/// What an admin asks for once: a type of updates, of a client or company, or of all (4,294,967,295).
#[derive(Clone, Copy, Debug, PartialEq, Eq)]
pub struct Question {
    /// The number of the type.
    pub kind: u8,
    /// Of whom.
    pub id: u32,
}

/// What a message of an admin comes to.
#[derive(Debug, PartialEq, Eq, Drop)]
pub enum Heard {
    /// It joins, and is greeted.
    Joined,
    /// It wants to be told of this type as the bits say.
    Bits { kind: u16, bits: u16 },
    /// It is answered this once.
    Ask(Question),
    /// It says a line for the server: for all (scope 0), the company `to` (1), or the client `to` (2).
    Say { scope: u8, to: u32, text: Line },
    /// A line of the console, and what it asks for.
    Console { text: Line, command: ConsoleCommand },
    /// It wants a pong with this number.
    Pong(u32),
    /// Nothing is done.
    Nothing,
    /// It leaves.
    Leave,
    /// It is told this code, and ends.
    Ends(u8),
}

/// What a message of an admin comes to, in a game of this setup.
pub(crate) fn heard_of(setup: &Setup, admin: &Admin, msg: &AdminMsg) -> Heard
    ensures heard { (start : WorldState) → result ≡ hears (begun setup.now start) admin.now msg.now }
{
    match refusal(setup, admin, msg) {
        Some(code) => Heard::Ends(code),
        None => said(msg),
    }
}

/// The code for which a message is refused, if it is.
fn refusal(setup: &Setup, admin: &Admin, msg: &AdminMsg) -> Option<u8>
    ensures refusal { (start : WorldState) → result ≡ admin_refused (begun setup.now start) admin.now msg.now }
{
    match msg {
        AdminMsg::AdminJoin {
            password,
            application,
            version,
        } => join_refusal(setup, admin, password, application, version),
        AdminMsg::AdminQuit => None,
        AdminMsg::AdminUpdateFrequency { kind, bits } => {
            behind_join(admin, may_be_told(*kind, *bits))
        }
        AdminMsg::AdminPoll { kind, .. } => behind_join(admin, may_be_polled(*kind)),
        AdminMsg::AdminChat { .. }
        | AdminMsg::AdminRcon { .. }
        | AdminMsg::AdminGamescript { .. }
        | AdminMsg::AdminPing { .. }
        | AdminMsg::AdminExternalChat { .. } => behind_join(admin, true),
        _ => Some(NOT_EXPECTED),
    }
}

/// The refusals of JOIN, in their order.
fn join_refusal(
    setup: &Setup,
    admin: &Admin,
    password: &Text<32>,
    application: &Text<31>,
    version: &Text<31>,
) -> Option<u8>
    ensures refusal { (start : WorldState) → result
        ≡ admin_join_refused (begun setup.now start) admin.now password.now application.now version.now }
{
    if admin.joined {
        Some(NOT_EXPECTED)
    } else if is_empty(application.bytes()) || is_empty(version.bytes()) {
        Some(ILLEGAL_PACKET)
    } else if !is_password(setup.admin_password.bytes(), password.bytes()) {
        Some(WRONG_PASSWORD)
    } else {
        None
    }
}

/// Whether admins are let in at all, and this is their password.
fn is_password(known: &[u8], password: &[u8]) -> bool
    ensures is { result ≡ not (is_empty known.now || not (bytes_eq password.now known.now)) }
{
    !is_empty(known) && password == known
}

/// Whether these are no bytes.
fn is_empty(bytes: &[u8]) -> bool
    ensures empty { result ≡ is_empty bytes.now }
{
    matches!(bytes, [])
}

/// What comes behind JOIN is refused before it, and then where it is not allowed.
fn behind_join(admin: &Admin, allowed: bool) -> Option<u8>
    ensures refusal { result ≡ behind_join admin.now (not allowed ⇒ illegal_packet) }
{
    if !admin.joined {
        Some(NOT_EXPECTED)
    } else if !allowed {
        Some(ILLEGAL_PACKET)
    } else {
        None
    }
}

/// What a message asks for that is allowed.
fn said(msg: &AdminMsg) -> Heard
    ensures says { result ≡ says msg.now }
{
    match msg {
        AdminMsg::AdminJoin { .. } => Heard::Joined,
        AdminMsg::AdminQuit => Heard::Leave,
        AdminMsg::AdminUpdateFrequency { kind, bits } => Heard::Bits {
            kind: *kind,
            bits: *bits,
        },
        AdminMsg::AdminPoll { kind, id } => Heard::Ask(Question {
            kind: *kind,
            id: *id,
        }),
        AdminMsg::AdminChat { scope, to, text } => Heard::Say {
            scope: scope.get(),
            to: *to,
            text: line_of(text),
        },
        AdminMsg::AdminRcon { text } => console_line(text),
        AdminMsg::AdminPing { id } => Heard::Pong(*id),
        _ => Heard::Nothing,
    }
}

/// A line of the console, and what it asks for.
fn console_line(text: &LongText<899>) -> Heard
    ensures line { result ≡ console_line text.now }
{
    let text = line_of(text);
    let command = console(&text);
    Heard::Console { text, command }
}

/// The same text as a line, which takes no memory.
fn line_of(text: &LongText<899>) -> Line
    ensures same { result ≡ text.now }
{
    match Line::new(text.bytes()) {
        Some(line) => line,
        None => unreachable!(),
    }
}
