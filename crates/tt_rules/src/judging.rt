//! What a packet of a member is judged.
ghost use Rattle.std.specs.Prelude.{◌≡◌, Bool, List};
ghost use Rattle.tt_rules.specs.Verdict.{permits, refusal, ack_refusal, command_refusal, set_password_refusal, move_refusal, verdict};

use crate::live::Live;
use crate::status::{Standing, Status, Verdict};
use tt_game::GameMsg;

/// The greatest number of a code.
const LAST_CODE: u16 = 8;

/// The code of Pause; it and the one behind it are the server's own.
const PAUSE: u16 = 7;

/// How many commands of a member may wait.
const MOST_WAITING: u8 = 16;

/// The greatest number of a company.
const LAST_COMPANY: u8 = 14;

/// The company of those that have none.
const SPECTATOR: u8 = 255;

/// Ends a connection: a packet that its status doesn't permit, an unknown code, or an acknowledgement out of range
/// or with a token that isn't open.
const NOT_EXPECTED: u8 = 7;

/// Ends a connection: a company that is not the member's, or none that lives.
const COMPANY_MISMATCH: u8 = 11;

/// Ends a connection: thrown out for the server's own command, or for one of no company that lives.
const KICKED: u8 = 12;

/// Ends a connection: sixteen commands wait already.
const TOO_MANY_COMMANDS: u8 = 15;

/// What a packet of a member is judged by its status, its waiting commands, the command's code, its company and its
/// acknowledgements. A JOIN's fields, names and passwords are not looked at here. It takes no memory.
pub fn verdict(standing: &Standing, live: &Live, msg: &GameMsg) -> Verdict
    ensures verdict { result ≡ verdict standing.now live.now msg.now }
{
    if !is_permitted(standing.status, msg) {
        return Verdict::Ends(NOT_EXPECTED);
    }
    match refusal(standing, live, msg) {
        None => Verdict::Allowed,
        Some(code) => Verdict::Ends(code),
    }
}

/// Whether a status permits a packet.
fn is_permitted(status: Status, msg: &GameMsg) -> bool
    ensures permits { result ≡ permits msg.now status }
{
    match msg {
        GameMsg::ClientJoin { .. } | GameMsg::ClientGameInfo => matches!(status, Status::Inactive),
        GameMsg::ClientNewgrfsChecked => matches!(status, Status::NewgrfsCheck),
        GameMsg::ClientGamePassword { .. } => matches!(status, Status::AuthGame),
        GameMsg::ClientCompanyPassword { .. } => matches!(status, Status::AuthCompany),
        GameMsg::ClientGetmap => matches!(status, Status::Authorized),
        GameMsg::ClientMapOk => matches!(status, Status::DoneMap),
        GameMsg::ClientAck { .. } | GameMsg::ClientCommand { .. } => {
            matches!(status, Status::PreActive | Status::Active)
        }
        GameMsg::ClientChat { .. }
        | GameMsg::ClientSetName { .. }
        | GameMsg::ClientSetPassword { .. }
        | GameMsg::ClientMove { .. } => matches!(status, Status::Active),
        GameMsg::ClientError { .. } | GameMsg::ClientQuit => true,
        _ => false,
    }
}

/// The code for which a packet that the status permits is refused, if it is.
fn refusal(standing: &Standing, live: &Live, msg: &GameMsg) -> Option<u8>
    ensures refusal { result ≡ refusal standing.now live.now msg.now }
{
    match msg {
        GameMsg::ClientAck { frame, token } => ack_refusal(standing, *frame, *token),
        GameMsg::ClientCommand { company, code, .. } => {
            command_refusal(standing, live, *company, *code)
        }
        GameMsg::ClientSetPassword { .. } => set_password_refusal(standing),
        GameMsg::ClientMove { company, .. } => move_refusal(live, *company),
        _ => None,
    }
}

/// An acknowledgement below the last one, or above what the member was told, is refused, and then a token that isn't open.
fn ack_refusal(standing: &Standing, frame: u32, token: u8) -> Option<u8>
    ensures refusal { result ≡ ack_refusal standing.now frame token }
{
    if frame < standing.acked || frame > standing.told {
        Some(NOT_EXPECTED)
    } else if token != 0 && token != standing.token {
        Some(NOT_EXPECTED)
    } else {
        None
    }
}

/// The refusals of a command, in their order.
fn command_refusal(standing: &Standing, live: &Live, company: u8, code: u16) -> Option<u8>
    ensures refusal { result ≡ command_refusal standing.now live.now company code }
{
    if standing.waiting >= MOST_WAITING {
        Some(TOO_MANY_COMMANDS)
    } else if code > LAST_CODE {
        Some(NOT_EXPECTED)
    } else if code >= PAUSE {
        Some(KICKED)
    } else if !live.has(company) {
        Some(KICKED)
    } else if company != standing.company {
        Some(COMPANY_MISMATCH)
    } else {
        None
    }
}

/// A password of no company is refused.
fn set_password_refusal(standing: &Standing) -> Option<u8>
    ensures refusal { result ≡ set_password_refusal standing.now }
{
    if standing.company > LAST_COMPANY {
        Some(COMPANY_MISMATCH)
    } else {
        None
    }
}

/// A move into a company that doesn't live is refused.
fn move_refusal(live: &Live, company: u8) -> Option<u8>
    ensures refusal { result ≡ move_refusal live.now company }
{
    if company == SPECTATOR || live.has(company) {
        None
    } else {
        Some(COMPANY_MISMATCH)
    }
}
