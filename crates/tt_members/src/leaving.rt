//! How a member ends, and how the queue of downloads moves up.
ghost use Rattle.std.specs.Prelude.{◌≡◌, ◌≤◌, ◌<◌, ◌+◌, ◌^◌, ◌++◌, ◌∷◌, [], OnOk, IfOk, length};
ghost use Rattle.tt_log.specs.Ending.{news_of};
ghost use Rattle.tt_log.specs.Member.{is_welcomed};
ghost use Rattle.tt_members.specs.Edits.{place_of};
ghost use Rattle.tt_members.specs.Leaving.{farewell_of, farewell_if, IsParting, left, leaving, others, playing_in, ending, report_of};
ghost use Rattle.tt_members.specs.Planned.{IsPlain};
ghost use Rattle.tt_members.specs.Queues.{beginning, moving, news_at, unasked, unasking};

use crate::edit::Edit;
use crate::member::Member;
use crate::plan::Plan;
use crate::queue::Queue;
use crate::step::Audience;
use std::alloc::Global;
use tt_admin::AdminMsg;
use tt_frame::{OutOfMemory, UpTo};
use tt_game::GameMsg;
use tt_log::deed::{Conns, What};
use tt_log::report::Report;

/// The greatest number before it that one that waits is told.
const MOST_TOLD: usize = 255;

/// The type of updates of what becomes of clients.
const CLIENT_UPDATES: u16 = 1;

/// How a member goes.
#[derive(Clone, Copy, Debug, PartialEq, Eq)]
pub enum Parting {
    /// By its own word.
    Quits,
    /// For a reason, which has a code.
    Fails(u8),
}

/// What one is told that has come to a place of the queue.
fn news_at(before: usize) -> What
    ensures news { result ≡ news_at before }
{
    if before == 0 {
        return What::MapBegin;
    }
    What::Msg(GameMsg::ServerWait {
        number: before.min(MOST_TOLD) as u8,
    })
}

/// Those that stand from a place on have moved up to it.
pub fn move_up(place: usize, behind: &[u32], frame: u32, plan: &mut Plan) -> Result<(), OutOfMemory>
    requires { place + length behind.now < 2 ^ 64 }
    ensures steps { OnOk result (plan.new.steps ≡ plan.old.steps ++ moving place behind.now) }
    ensures plain { IsPlain plan.old plan.new }
    ensures edits { OnOk result (plan.new.edits ≡ plan.old.edits ++ beginning frame place behind.now) }
{
    begin_first(place, behind, frame, plan)?;
    let mut before = place;
    for conn in behind.iter() {
        plan.tell_one(*conn, news_at(before))?;
        before += 1;
    }
    Ok(())
}

/// The one that has come to the first place downloads.
fn begin_first(place: usize, behind: &[u32], frame: u32, plan: &mut Plan) -> Result<(), OutOfMemory>
    ensures steps { plan.new.steps ≡ plan.old.steps }
    ensures plain { IsPlain plan.old plan.new }
    ensures edits { OnOk result (plan.new.edits ≡ plan.old.edits ++ beginning frame place behind.now) }
{
    if place > 0 {
        return Ok(());
    }
    if let Some(first) = behind.first() {
        plan.change(Edit::Begin {
            conn: *first,
            frame,
        })?;
    }
    Ok(())
}

/// A connection leaves the queue, if it stands there, and those behind it move up.
pub fn unask(conn: u32, frame: u32, queue: &Queue, plan: &mut Plan) -> Result<(), OutOfMemory>
    ensures steps { OnOk result (plan.new.steps ≡ plan.old.steps ++ unasking (place_of conn queue.now.conns) queue.now.conns) }
    ensures plain { IsPlain plan.old plan.new }
    ensures edits { OnOk result (plan.new.edits ≡ plan.old.edits ++ unasked conn frame (place_of conn queue.now.conns) queue.now.conns) }
{
    let Some(place) = queue.place(conn) else {
        return Ok(());
    };
    plan.change(Edit::Unask { conn })?;
    let conns = queue.all();
    move_up(place, &conns[place + 1..], frame, plan)
}

/// What those that play are told of an end.
fn news_of(m: &Member, parting: Parting) -> GameMsg
    requires { IsParting parting }
    ensures news { result ≡ news_of (farewell_of parting) m.now }
{
    let client = m.client();
    match parting {
        Parting::Quits => GameMsg::ServerQuit { client },
        Parting::Fails(code) => GameMsg::ServerErrorQuit {
            client,
            code: reason(code),
        },
    }
}

/// What admins are told of an end.
fn report_of(m: &Member, parting: Parting) -> AdminMsg
    requires { IsParting parting }
    ensures report { result ≡ report_of (farewell_of parting) m.now }
{
    let id = m.client();
    match parting {
        Parting::Quits => AdminMsg::ServerClientQuit { id },
        Parting::Fails(code) => AdminMsg::ServerClientError {
            id,
            code: reason(code),
        },
    }
}

/// A reason, by its code.
pub fn reason(code: u8) -> UpTo<20>
    requires { code ≤ 20 }
    ensures code { result ≡ code }
{
    match UpTo::new(code) {
        Some(code) => code,
        None => unreachable!(),
    }
}

/// Where a member was welcomed, the others that play and the admins that watch are told that it goes.
fn tell_farewell(
    m: &Member,
    parting: Parting,
    others: Conns,
    plan: &mut Plan,
) -> Result<(), OutOfMemory>
    requires { IsParting parting }
    ensures steps { OnOk result (plan.new.steps
        ≡ plan.old.steps ++ farewell_if (is_welcomed m.now) (farewell_of parting) m.now others) }
    ensures plain { IsPlain plan.old plan.new }
    ensures edits { plan.new.edits ≡ plan.old.edits }
{
    if !m.is_welcomed() {
        return Ok(());
    }
    plan.tell(Audience::Several(others), What::Msg(news_of(m, parting)))?;
    let report = Report::Message(report_of(m, parting));
    plan.tell(Audience::Watching(CLIENT_UPDATES), What::ToAdmin(report))
}

/// A member ends: these others play.
pub fn leave(
    m: &Member,
    parting: Parting,
    frame: u32,
    others: Conns,
    queue: &Queue,
    plan: &mut Plan,
) -> Result<(), OutOfMemory>
    requires { IsParting parting }
    ensures steps { OnOk result (plan.new.steps
        ≡ plan.old.steps ++ leaving m.now (farewell_of parting) others queue.now.conns) }
    ensures plain { IsPlain plan.old plan.new }
    ensures edits { OnOk result (plan.new.edits ≡ plan.old.edits ++ left m.now.conn frame queue.now.conns) }
{
    let conn = m.conn();
    plan.tell_one(conn, What::End)?;
    plan.change(Edit::Leave { conn })?;
    tell_farewell(m, parting, others, plan)?;
    unask(conn, frame, queue, plan)
}

/// A member is told a code, and ends: these others play.
pub fn end(
    m: &Member,
    code: u8,
    frame: u32,
    others: Conns,
    queue: &Queue,
    plan: &mut Plan,
) -> Result<(), OutOfMemory>
    requires { code ≤ 20 }
    ensures steps { OnOk result (plan.new.steps ≡ plan.old.steps ++ ending m.now code others queue.now.conns) }
    ensures plain { IsPlain plan.old plan.new }
    ensures edits { OnOk result (plan.new.edits ≡ plan.old.edits ++ left m.now.conn frame queue.now.conns) }
{
    let error = GameMsg::ServerError { code: reason(code) };
    plan.tell_one(m.conn(), What::Msg(error))?;
    leave(m, Parting::Fails(code), frame, others, queue, plan)
}

/// The connections of those that play.
pub fn playing(alloc: Global, members: &[Member]) -> Result<Vec<u32>, OutOfMemory>
    ensures conns { IfOk result (λ conns. conns.items ≡ playing_in members.now) }
{
    let mut conns = Vec::new(alloc);
    for m in members.iter() {
        if m.is_playing() {
            conns.push(m.conn())?;
        }
    }
    Ok(conns)
}

/// The connections of the others that play.
pub fn others(alloc: Global, members: &[Member], conn: u32) -> Result<Conns, OutOfMemory>
    ensures conns { IfOk result (λ conns. conns ≡ others conn members.now) }
{
    let mut conns = Vec::new(alloc);
    for m in members.iter() {
        push_other(&mut conns, m, conn)?;
    }
    Ok(Conns::new(conns))
}

/// The connection of a member more, where it plays and is another one.
fn push_other(conns: &mut Vec<u32>, m: &Member, conn: u32) -> Result<(), OutOfMemory>
    ensures pushed { OnOk result (conns.new.items ≡ conns.old.items ++ others conn (m.now ∷ [])) }
{
    if !m.is_playing() {
        return Ok(());
    }
    let one = m.conn();
    if one != conn {
        conns.push(one)?;
    }
    Ok(())
}
