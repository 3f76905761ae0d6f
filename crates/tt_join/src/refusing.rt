//! The codes for which a packet is refused that its member's standing allows.
ghost use Rattle.std.specs.Prelude.{◌≡◌, ◌≤◌, length, IfSome};
ghost use Rattle.tt_log.specs.Judged.{company_password_refused, game_password_refused, has_room, is_same_digest, is_same_game};
ghost use Rattle.tt_log.specs.Judged.{join_refused, may_ask_for};
ghost use Rattle.tt_log.specs.Judged.{move_refused, name_refused, opens, refused};
ghost use Rattle.tt_log.specs.Origin.{Origin};
ghost use Rattle.tt_log.specs.Table.{Table};
ghost use Rattle.tt_members.specs.Places.{seated};
ghost use Rattle.tt_join.specs.Joining.{made_from, with_crew};

use crate::joining::digest_of;
use crate::scene::Scene;
use tt_frame::{Digest, Text};
use tt_game::GameMsg;
use tt_members::{Member, NameBad, name_for};
use tt_rules::{Live, password_digest};
use tt_world::Setup;

/// The NewGRF version number that goes with the revision.
const GRF_VERSION: u32 = 13;

/// The company of those that have none.
const SPECTATOR: u8 = 255;

/// The company that a founder asks for: a new one.
const FOUNDER: u8 = 254;

/// Ends a connection: another revision of the game.
const WRONG_REVISION: u8 = 8;

/// Ends a connection: another member has the name.
const NAME_IN_USE: u8 = 9;

/// Ends a connection: another password.
const WRONG_PASSWORD: u8 = 10;

/// Ends a connection: a company that it may not ask for.
const COMPANY_MISMATCH: u8 = 11;

/// Ends a connection: an empty name.
const INVALID_CLIENT_NAME: u8 = 20;

/// The code for which a packet is refused that its member's standing allows, if it is: the refusals of its kind in their order.
pub fn refused(scene: Scene<'_>, live: &Live, m: &Member, msg: &GameMsg) -> Option<u8>
    requires short { length scene.setup.now.password ≤ 32 }
    ensures refused { (o : Origin) (t : Table) → result
        ≡ refused (made_from scene.entry.setup.now o) live.now (with_crew scene.entry.members.now scene.entry.digests.now t) m.now msg.now }
    ensures code { IfSome result (λ code. code ≤ 20) }
{
    match msg {
        GameMsg::ClientJoin {
            revision,
            grf,
            name,
            company,
        } => join_refused(scene, live, m, revision, *grf, name, *company),
        GameMsg::ClientGamePassword { digest } => game_password_refused(scene.setup, digest),
        GameMsg::ClientCompanyPassword { digest } => {
            company_password_refused(scene.digests, m, digest)
        }
        GameMsg::ClientSetName { name } => name_refused(scene.members, m, name),
        GameMsg::ClientMove { company, digest } => move_refused(scene.digests, *company, digest),
        _ => None,
    }
}

/// The refusals of a JOIN.
fn join_refused(
    scene: Scene<'_>,
    live: &Live,
    m: &Member,
    revision: &Text<31>,
    grf: u32,
    name: &Text<24>,
    company: u8,
) -> Option<u8>
    ensures refused { (o : Origin) (t : Table) → result
        ≡ join_refused (made_from scene.entry.setup.now o) live.now (with_crew scene.entry.members.now scene.entry.digests.now t)
        m.now revision.now grf name.now company }
    ensures code { IfSome result (λ code. code ≤ 20) }
{
    if !is_same_game(scene.setup, revision, grf) {
        return Some(WRONG_REVISION);
    }
    if name.bytes().is_empty() {
        return Some(INVALID_CLIENT_NAME);
    }
    if !may_ask_for(live, company) {
        return Some(COMPANY_MISMATCH);
    }
    name_refused(scene.members, m, name)
}

/// Whether a client has the same revision of the game.
fn is_same_game(setup: &Setup, revision: &Text<31>, grf: u32) -> bool
    ensures same { (o : Origin) → result ≡ is_same_game (made_from setup.now o) revision.now grf }
{
    revision.bytes() == setup.revision.bytes() && grf == GRF_VERSION
}

/// The companies that a client may ask for: none, a live one, or a new one where there is room.
fn may_ask_for(live: &Live, company: u8) -> bool
    ensures may { result ≡ may_ask_for live.now company }
{
    company == SPECTATOR || live.has(company) || (company == FOUNDER && has_room(live))
}

/// Whether a number is free for a new company.
fn has_room(live: &Live) -> bool
    ensures room { result ≡ has_room live.now }
{
    let mut more = *live;
    more.add().is_some()
}

/// The refusals of a name.
fn name_refused(members: &[Member], m: &Member, name: &Text<24>) -> Option<u8>
    ensures refused { (t : Table) → result ≡ name_refused (seated t members.now) m.now name.now }
    ensures code { IfSome result (λ code. code ≤ 20) }
{
    match name_for(name.bytes(), members, m.conn()) {
        Ok(_) => None,
        Err(NameBad::Empty) => Some(INVALID_CLIENT_NAME),
        Err(NameBad::InUse) => Some(NAME_IN_USE),
    }
}

/// The refusal of a digest of the game's password.
fn game_password_refused(setup: &Setup, digest: &Digest) -> Option<u8>
    requires short { length setup.now.password ≤ 32 }
    ensures refused { (o : Origin) → result ≡ game_password_refused (made_from setup.now o) digest.now }
    ensures code { IfSome result (λ code. code ≤ 20) }
{
    let own = password_digest(&setup.password, &setup.id, setup.seed);
    if digest.bytes() == own.as_slice() {
        return None;
    }
    Some(WRONG_PASSWORD)
}

/// The refusal of a digest of a company's password.
fn company_password_refused(digests: &[(u8, Digest)], m: &Member, digest: &Digest) -> Option<u8>
    ensures refused { (t : Table) → result ≡ company_password_refused (with_crew t.members digests.now t) m.now digest.now }
    ensures code { IfSome result (λ code. code ≤ 20) }
{
    if is_same_digest(digest_of(digests, m.marks().asked), digest) {
        return None;
    }
    Some(WRONG_PASSWORD)
}

/// Whether there is a digest, and it is the same as this one.
fn is_same_digest(one: Option<Digest>, digest: &Digest) -> bool
    ensures same { result ≡ is_same_digest one digest.now }
{
    match one {
        Some(one) => one.bytes() == digest.bytes(),
        None => false,
    }
}

/// Whether what is given opens a company: one without a password, or by its digest.
fn opens(own: Option<Digest>, given: &Option<Digest>) -> bool
    ensures opens { result ≡ opens own given.now }
{
    match own {
        None => true,
        Some(own) => is_same_digest(*given, &own),
    }
}

/// The refusal of a move: the company's password is not opened.
fn move_refused(digests: &[(u8, Digest)], company: u8, digest: &Option<Digest>) -> Option<u8>
    ensures refused { (t : Table) → result ≡ move_refused (with_crew t.members digests.now t) company digest.now }
    ensures code { IfSome result (λ code. code ≤ 20) }
{
    if opens(digest_of(digests, company), digest) {
        return None;
    }
    Some(WRONG_PASSWORD)
}
