//! From the welcome into the game, openings and ends, each as a plan. A plan that is filled is empty before. Nothing else is
//! changed.
ghost use Rattle.std.specs.Prelude.{◌≡◌, ◌++◌, ◌≤◌, ◌+◌, ◌==◌, OnOk};
ghost use Rattle.tt_log.specs.PacketRules.{client_info, new_company};
ghost use Rattle.tt_members.specs.Leaving.{farewell_of, IsParting};
ghost use Rattle.tt_members.specs.Planned.{IsPlain, nothing};
ghost use Rattle.tt_join.specs.Entering.{acked_marks, acknowledging, asking, catches_up, entered, infos, opening};
ghost use Rattle.tt_join.specs.Entering.{ending_plan, leaving_plan};

use std::alloc::Global;
use tt_admin::AdminMsg;
use tt_frame::{OutOfMemory, Short};
use tt_game::GameMsg;
use tt_log::deed::What;
use tt_log::report::Report;
use tt_members::{
    Audience, Edit, Marks, Member, Parting, Plan, Queue, end, fresh_token, leave, move_up, others,
    unask,
};
use tt_rules::Status;
use tt_world::{Code, Command, Random};

/// How far behind the server's frame a member may be that plays.
const CAUGHT_UP: u32 = 74;

/// The company that a founder asks for.
const FOUNDER: u8 = 254;

/// The type of updates of what becomes of clients.
const CLIENT_UPDATES: u16 = 1;

/// GETMAP: a member asks for the map, and stands last in the queue.
pub fn ask(queue: &Queue, frame: u32, m: &Member, plan: &mut Plan) -> Result<(), OutOfMemory>
    requires { plan.old ≡ nothing }
    ensures plan { OnOk result (plan.new ≡ asking queue.now.conns frame m.now) }
{
    let conn = m.conn();
    let marks = Marks {
        status: Status::MapWait,
        since: frame,
        ..m.marks()
    };
    plan.change(Edit::Mark { conn, marks })?;
    move_up(queue.all().len(), &[conn], frame, plan)?;
    plan.ask(conn);
    Ok(())
}

/// What speaks of a member.
pub fn client_info(m: &Member) -> GameMsg
    ensures info { result ≡ client_info m.now }
{
    let name = m.name();
    GameMsg::ServerClientInfo {
        client: m.client(),
        company: m.marks().company,
        name: name.copy(),
    }
}

/// One connection is told of each welcomed member.
fn tell_welcomed(members: &[Member], conn: u32, plan: &mut Plan) -> Result<(), OutOfMemory>
    ensures steps { OnOk result (plan.new.steps ≡ plan.old.steps ++ infos conn members.now) }
    ensures edits { plan.new.edits ≡ plan.old.edits }
    ensures plain { IsPlain plan.old plan.new }
{
    for m in members.iter() {
        if m.is_welcomed() {
            plan.tell_one(conn, What::Msg(client_info(m)))?;
        }
    }
    Ok(())
}

/// MAP_OK: a member is in the game, and catches up.
pub fn enter(
    members: &[Member],
    queue: &Queue,
    words: (u32, u32),
    frame: u32,
    top: u32,
    m: &Member,
    plan: &mut Plan,
) -> Result<(), OutOfMemory>
    requires { plan.old ≡ nothing }
    ensures plan { OnOk result (plan.new ≡ entered frame top words members.now queue.now.conns m.now) }
{
    let conn = m.conn();
    let old = m.marks();
    let mut random = Random::of(words.0, words.1);
    let token = fresh_token(&mut random);
    let marks = Marks {
        status: Status::PreActive,
        since: frame,
        acked: old.map_frame,
        told: top,
        token,
        token_frame: frame,
        ..old
    };
    plan.change(Edit::Mark { conn, marks })?;
    tell_welcomed(members, conn, plan)?;
    let above = old.map_frame;
    plan.tell_one(conn, What::Entries { above })?;
    let max = top;
    plan.tell_one(conn, What::Msg(GameMsg::ServerFrame { frame, max, token }))?;
    unask(conn, frame, queue, plan)?;
    plan.draw(random.words());
    Ok(())
}

/// Whether an acknowledged frame makes a member play.
fn has_caught_up(m: &Member, acked: u32, frame: u32) -> bool
    ensures caught_up { result ≡ catches_up frame acked m.now }
{
    matches!(m.marks().status, Status::PreActive) && frame.saturating_sub(CAUGHT_UP) <= acked
}

/// A member's marks behind an acknowledged frame and a token.
fn acked_marks(m: &Member, acked: u32, token: u8) -> Marks
    ensures marks { result ≡ acked_marks (token == 0) acked m.now }
{
    let marks = Marks { acked, ..m.marks() };
    if token == 0 {
        return marks;
    }
    Marks {
        token: 0,
        token_frame: 0,
        ..marks
    }
}

/// A company for a member that asked for a new one.
fn new_company(m: &Member) -> Command
    ensures command { result ≡ new_company m.now }
{
    let Some(text) = Short::new(b"") else {
        unreachable!();
    };
    Command {
        code: Code::NewCompany,
        number: m.client(),
        to: 0,
        text,
    }
}

/// ACK: the frame is kept, and a member that has caught up plays from now on.
pub fn acknowledge(
    alloc: Global,
    members: &[Member],
    frame: u32,
    m: &Member,
    acked: u32,
    token: u8,
    plan: &mut Plan,
) -> Result<(), OutOfMemory>
    requires { plan.old ≡ nothing }
    ensures plan { OnOk result (plan.new ≡ acknowledging frame acked token members.now m.now) }
{
    let conn = m.conn();
    let marks = acked_marks(m, acked, token);
    if !has_caught_up(m, acked, frame) {
        return plan.change(Edit::Mark { conn, marks });
    }
    let marks = Marks {
        status: Status::Active,
        since: frame,
        ..marks
    };
    plan.change(Edit::Mark { conn, marks })?;
    let client = m.client();
    let others = others(alloc, members, conn)?;
    plan.tell(
        Audience::Several(others),
        What::Msg(GameMsg::ServerJoin { client }),
    )?;
    let report = Report::Message(AdminMsg::ServerClientJoin { id: client });
    plan.tell(Audience::Watching(CLIENT_UPDATES), What::ToAdmin(report))?;
    if marks.asked == FOUNDER {
        plan.order(new_company(m));
    }
    Ok(())
}

/// A member ends untold; the others are told how it goes where it was welcomed.
pub fn end_untold(
    alloc: Global,
    members: &[Member],
    queue: &Queue,
    frame: u32,
    m: &Member,
    parting: Parting,
    plan: &mut Plan,
) -> Result<(), OutOfMemory>
    requires parting { IsParting parting }
    requires empty { plan.old ≡ nothing }
    ensures plan { OnOk result (plan.new ≡ leaving_plan (farewell_of parting) frame members.now queue.now.conns m.now) }
{
    let others = others(alloc, members, m.conn())?;
    leave(m, parting, frame, others, queue, plan)
}

/// A member is told a code, and ends.
pub fn end_told(
    alloc: Global,
    members: &[Member],
    queue: &Queue,
    frame: u32,
    m: &Member,
    code: u8,
    plan: &mut Plan,
) -> Result<(), OutOfMemory>
    requires code { code ≤ 20 }
    requires empty { plan.old ≡ nothing }
    ensures plan { OnOk result (plan.new ≡ ending_plan code frame members.now queue.now.conns m.now) }
{
    let others = others(alloc, members, m.conn())?;
    end(m, code, frame, others, queue, plan)
}

/// An opening: the connection is a member, or is told that all places are taken.
pub fn open(
    alloc: Global,
    full: bool,
    conn: u32,
    client: u32,
    frame: u32,
    plan: &mut Plan,
) -> Result<(), OutOfMemory>
    requires { plan.old ≡ nothing }
    ensures plan { OnOk result (plan.new ≡ opening full conn client frame) }
{
    plan.count();
    if full {
        plan.tell_one(conn, What::Msg(GameMsg::ServerFull))?;
        return plan.tell_one(conn, What::End);
    }
    plan.bring(Member::new(alloc, conn, client, frame)?);
    Ok(())
}
