//! From the opening to the welcome, and another name: what each packet does, as a plan. Nothing but the plan is changed.
ghost use Rattle.std.specs.Prelude.{ℕ, ◌≡◌, ◌≤◌, false, [], List, filter, length, take, OnOk};
ghost use Rattle.tt_log.specs.Judged.{is_empty};
ghost use Rattle.tt_log.specs.Member.{is_welcomed};
ghost use Rattle.tt_log.specs.Names.{is_too_long};
ghost use Rattle.tt_log.specs.PacketRules.{first_company};
ghost use Rattle.tt_log.specs.Table.{count_living};
ghost use Rattle.tt_members.specs.Planned.{nothing};
ghost use Rattle.tt_join.specs.Joining.{digest_in, game_told, guest_named, guest_of, joining, marks_in, name_in, renaming};
ghost use Rattle.tt_join.specs.Joining.{to_company, to_company_by, to_password_by, welcomed_marks, welcoming};

use crate::scene::Scene;
use tt_admin::AdminMsg;
use tt_frame::{Digest, Name, OutOfMemory, Text};
use tt_game::GameMsg;
use tt_log::report::Report;
use tt_members::{
    Audience, Conns, Edit, Marks, Member, NameBad, Plan, What, name_for, others, playing,
};
use tt_rules::{Live, Status};
use tt_world::Setup;

/// The type of updates of what becomes of clients.
const CLIENT_UPDATES: u16 = 1;

/// The company of those that have none.
const SPECTATOR: u8 = 255;

/// The company that a founder asks for: a new one.
const FOUNDER: u8 = 254;

/// The greatest number of clients that is told.
const MOST_TOLD: usize = 255;

/// How many companies there may be.
const COMPANIES: u8 = 15;

/// One that comes in: a member with the name and the marks that are planned for it.
#[derive(Debug, Drop)]
pub struct Guest {
    /// Its connection.
    pub conn: u32,
    /// Its client number.
    pub client: u32,
    /// Its marks.
    pub marks: Marks,
    /// Its name.
    pub name: Text<24>,
}

/// A member as it is.
fn guest_of(m: &Member) -> Guest
    ensures guest { result ≡ guest_of m.now }
{
    Guest {
        conn: m.conn(),
        client: m.client(),
        marks: m.marks(),
        name: m.name().copy(),
    }
}

/// A member with this name, and the company that it asks for.
fn guest_named(m: &Member, name: Text<24>, asked: u8) -> Guest
    ensures guest { result ≡ guest_named m.now name asked }
{
    Guest {
        conn: m.conn(),
        client: m.client(),
        marks: Marks { asked, ..m.marks() },
        name,
    }
}

/// A status that begins at a frame.
fn marks_in(status: Status, since: u32, marks: Marks) -> Marks
    ensures marks { result ≡ marks_in status since marks }
{
    Marks {
        status,
        since,
        ..marks
    }
}

/// The company that a member has once it is welcomed: the asked one, none where it asked for a new one.
fn first_company(asked: u8) -> u8
    ensures company { result ≡ first_company asked }
{
    if asked == FOUNDER { SPECTATOR } else { asked }
}

/// A name as a field of a message.
fn field_of(name: &Name) -> Text<31>
    ensures same { result ≡ name.now }
{
    match Text::new(name.bytes()) {
        Some(text) => text,
        None => unreachable!(),
    }
}

/// A member is welcome: those that play are told of it, and the admins that watch.
fn welcome(scene: Scene<'_>, guest: Guest, plan: &mut Plan) -> Result<(), OutOfMemory>
    requires empty { plan.old ≡ nothing }
    ensures plan { OnOk result (plan.new ≡ welcoming scene.entry.setup.now scene.entry.frame scene.entry.members.now guest) }
{
    let Guest {
        conn,
        client,
        marks,
        name,
    } = guest;
    let company = first_company(marks.asked);
    let marks = Marks {
        company,
        ..marks_in(Status::Authorized, scene.frame, marks)
    };
    plan.change(Edit::Mark { conn, marks })?;
    let welcome = GameMsg::ServerWelcome {
        client,
        seed: scene.setup.seed,
        id: field_of(&scene.setup.id),
    };
    plan.tell_one(conn, What::Msg(welcome))?;
    let others = others(scene.alloc, scene.members, conn)?;
    let info = GameMsg::ServerClientInfo {
        client,
        company,
        name: name.copy(),
    };
    plan.tell(Audience::Several(others), What::Msg(info))?;
    let report = AdminMsg::ServerClientInfo {
        client,
        name,
        company,
    };
    plan.tell(
        Audience::Watching(CLIENT_UPDATES),
        What::ToAdmin(Report::Message(report)),
    )
}

/// The digest of a company's password, where it has one.
pub fn digest_of(digests: &[(u8, Digest)], company: u8) -> Option<Digest>
    ensures digest { result ≡ digest_in digests.now company }
{
    let (_, digest) = digests.iter().find(|(owner, _)| *owner == company)?;
    Some(*digest)
}

/// The company step: a company with a password asks for it.
fn to_company(scene: Scene<'_>, guest: Guest, plan: &mut Plan) -> Result<(), OutOfMemory>
    requires empty { plan.old ≡ nothing }
    ensures plan { OnOk result (plan.new
        ≡ to_company scene.entry.setup.now scene.entry.frame scene.entry.members.now scene.entry.digests.now guest) }
{
    if digest_of(scene.digests, guest.marks.asked).is_none() {
        return welcome(scene, guest, plan);
    }
    let conn = guest.conn;
    let marks = marks_in(Status::AuthCompany, scene.frame, guest.marks);
    plan.change(Edit::Mark { conn, marks })?;
    let request = GameMsg::ServerNeedCompanyPassword {
        seed: scene.setup.seed,
        id: field_of(&scene.setup.id),
    };
    plan.tell_one(conn, What::Msg(request))
}

/// The password step: a game with a password asks for it.
fn to_password(scene: Scene<'_>, guest: Guest, plan: &mut Plan) -> Result<(), OutOfMemory>
    requires empty { plan.old ≡ nothing }
    ensures plan { OnOk result (plan.new
        ≡ to_password_by scene.entry.setup.now.password scene.entry.setup.now scene.entry.frame scene.entry.members.now
        scene.entry.digests.now guest) }
{
    if scene.setup.password.bytes().is_empty() {
        return to_company(scene, guest, plan);
    }
    let conn = guest.conn;
    let marks = marks_in(Status::AuthGame, scene.frame, guest.marks);
    plan.change(Edit::Mark { conn, marks })?;
    let request = GameMsg::ServerNeedGamePassword {
        seed: scene.setup.seed,
        id: field_of(&scene.setup.id),
    };
    plan.tell_one(conn, What::Msg(request))
}

/// The name that a member gets, which is not refused.
fn given_name(members: &[Member], m: &Member, wanted: &Text<24>) -> Text<24>
    requires some { is_empty wanted.now ≡ false }
    requires short { is_too_long (name_in members.now m.now.conn wanted.now) ≡ false }
    ensures name { result ≡ name_in members.now m.now.conn wanted.now }
{
    match name_for(wanted.bytes(), members, m.conn()) {
        Ok(name) => name,
        Err(NameBad::Empty) => unreachable!(),
        Err(NameBad::InUse) => unreachable!(),
    }
}

/// JOIN: the member has a name, and then the password step.
pub fn join(
    scene: Scene<'_>,
    m: &Member,
    wanted: &Text<24>,
    company: u8,
    plan: &mut Plan,
) -> Result<(), OutOfMemory>
    requires empty { plan.old ≡ nothing }
    requires some { is_empty wanted.now ≡ false }
    requires short { is_too_long (name_in scene.members.now m.now.conn wanted.now) ≡ false }
    ensures plan { OnOk result (plan.new
        ≡ joining scene.entry.setup.now scene.entry.frame scene.entry.members.now scene.entry.digests.now m.now
        (name_in scene.entry.members.now m.now.conn wanted.now) company) }
{
    let name = given_name(scene.members, m, wanted);
    to_password(scene, guest_named(m, name.copy(), company), plan)?;
    plan.rename(m.conn(), name);
    Ok(())
}

/// GAME_PASSWORD: the company step.
pub fn game_password(scene: Scene<'_>, m: &Member, plan: &mut Plan) -> Result<(), OutOfMemory>
    requires empty { plan.old ≡ nothing }
    ensures plan { OnOk result (plan.new
        ≡ to_company scene.entry.setup.now scene.entry.frame scene.entry.members.now scene.entry.digests.now (guest_of m.now)) }
{
    to_company(scene, guest_of(m), plan)
}

/// COMPANY_PASSWORD: the welcome.
pub fn company_password(scene: Scene<'_>, m: &Member, plan: &mut Plan) -> Result<(), OutOfMemory>
    requires empty { plan.old ≡ nothing }
    ensures plan { OnOk result (plan.new ≡ welcoming scene.entry.setup.now scene.entry.frame scene.entry.members.now (guest_of m.now)) }
{
    welcome(scene, guest_of(m), plan)
}

/// How many members are welcome.
fn count_welcomed(members: &[Member]) -> usize
    ensures count { result ≡ length (filter is_welcomed members.now) }
{
    let mut count = 0;
    for m in members.iter() {
        if m.is_welcomed() {
            count += 1;
        }
    }
    count
}

/// How many of the fifteen companies live.
fn count_living(live: &Live) -> u8
    ensures count { result ≡ count_living (take 15 live.now) }
{
    let mut count = 0;
    for n in 0..COMPANIES {
        if live.has(n) {
            count += 1;
        }
    }
    count
}

/// GAME_INFO: the game in a few numbers.
pub fn game_info(
    scene: Scene<'_>,
    live: &Live,
    m: &Member,
    plan: &mut Plan,
) -> Result<(), OutOfMemory>
    requires empty { plan.old ≡ nothing }
    ensures plan { OnOk result (plan.new ≡ game_told scene.entry.setup.now scene.entry.frame live.now scene.entry.members.now m.now) }
{
    let setup: &Setup = scene.setup;
    let info = GameMsg::ServerGameInfo {
        name: field_of(&setup.name),
        frame: scene.frame,
        clients: count_welcomed(scene.members).min(MOST_TOLD) as u8,
        companies: count_living(live),
        max: setup.max_clients,
        password: !setup.password.bytes().is_empty(),
    };
    plan.tell_one(m.conn(), What::Msg(info))
}

/// SET_NAME: all that play are told, and the admins that watch.
pub fn set_name(
    scene: Scene<'_>,
    m: &Member,
    wanted: &Text<24>,
    plan: &mut Plan,
) -> Result<(), OutOfMemory>
    requires empty { plan.old ≡ nothing }
    requires some { is_empty wanted.now ≡ false }
    requires short { is_too_long (name_in scene.members.now m.now.conn wanted.now) ≡ false }
    ensures plan { OnOk result (plan.new ≡ renaming scene.entry.members.now m.now (name_in scene.entry.members.now m.now.conn wanted.now)) }
{
    let name = given_name(scene.members, m, wanted);
    let (client, company) = (m.client(), m.marks().company);
    let info = GameMsg::ServerClientInfo {
        client,
        company,
        name: name.copy(),
    };
    let all = Conns::new(playing(scene.alloc, scene.members)?);
    plan.tell(Audience::Several(all), What::Msg(info))?;
    let report = AdminMsg::ServerClientUpdate {
        client,
        name: name.copy(),
        company,
    };
    plan.tell(
        Audience::Watching(CLIENT_UPDATES),
        What::ToAdmin(Report::Message(report)),
    )?;
    plan.rename(m.conn(), name);
    Ok(())
}
