//! The time limits: who has passed one ends, in order of arrival, each end told to those that are there by then.
ghost use Rattle.std.specs.Prelude.{◌≡◌, ◌≤◌, ◌-◌, ◌++◌, ◌||◌, nat_lt, drop, is_some, OnOk, IfOk, IfSome};
ghost use Rattle.std.specs.List.{list_any};
ghost use Rattle.tt_rules.specs.Codes.{timeout_computer};
ghost use Rattle.tt_rules.specs.Reasons.{◌⇒◌};
ghost use Rattle.tt_log.specs.Tick.{keeps_token, late};
ghost use Rattle.tt_members.specs.Edits.{queue_after, queue_by};
ghost use Rattle.tt_members.specs.Leaving.{but, left, ending};
ghost use Rattle.tt_members.specs.Planned.{IsPlain};
ghost use Rattle.tt_join.specs.Ticking.{began, begins_on, limit_of, limited_by, limiting_at, limits_of, plays_after, plays_by};

use std::alloc::Global;
use tt_frame::OutOfMemory;
use tt_members::{Conns, Edit, Member, Plan, Queue, end, playing};
use tt_rules::Status;
use tt_world::Setup;

/// Ends a connection: it took too long for a password.
const TIMEOUT_PASSWORD: u8 = 16;

/// Ends a connection: it took too long to say what it wants, or fell behind.
const TIMEOUT_COMPUTER: u8 = 17;

/// Ends a connection: it took too long for the map.
const TIMEOUT_MAP: u8 = 18;

/// Ends a connection: it took too long from the map to the server's frame.
const TIMEOUT_JOIN: u8 = 19;

/// The code of a limit, where more ticks went by than it allows.
fn past(limit: u16, ticks: u32, code: u8) -> Option<u8>
    ensures past { result ≡ (nat_lt limit ticks ⇒ code) }
    ensures code { IfSome result (λ c. c ≡ code) }
{
    if ticks > u32::from(limit) {
        Some(code)
    } else {
        None
    }
}

/// Whether a member keeps an open token for longer than it may lag.
fn keeps_token(setup: &Setup, frame: u32, m: &Member) -> bool
    ensures keeps { result ≡ keeps_token setup.now frame m.now }
{
    let marks = m.marks();
    marks.token != 0 && frame.saturating_sub(marks.token_frame) > u32::from(setup.lag)
}

/// The code for which a member that is ACTIVE ends.
fn lags(setup: &Setup, frame: u32, m: &Member) -> Option<u8>
    ensures lags { result ≡ (nat_lt setup.now.lag (frame - m.now.acked) || keeps_token setup.now frame m.now ⇒ timeout_computer) }
    ensures within { IfSome result (λ code. code ≤ 20) }
{
    let marks = m.marks();
    if frame.saturating_sub(marks.acked) > u32::from(setup.lag) {
        return Some(TIMEOUT_COMPUTER);
    }
    if keeps_token(setup, frame, m) {
        return Some(TIMEOUT_COMPUTER);
    }
    None
}

/// The code of the limit that a member has passed at a frame.
fn late(setup: &Setup, frame: u32, m: &Member) -> Option<u8>
    ensures late { result ≡ late setup.now frame m.now }
    ensures within { IfSome result (λ code. code ≤ 20) }
{
    let marks = m.marks();
    let age = frame.saturating_sub(marks.since);
    match marks.status {
        Status::Inactive | Status::Authorized => past(setup.init, age, TIMEOUT_COMPUTER),
        Status::AuthGame | Status::AuthCompany => past(setup.pass_limit, age, TIMEOUT_PASSWORD),
        Status::Map | Status::DoneMap => past(setup.download, age, TIMEOUT_MAP),
        Status::PreActive => past(setup.join, age, TIMEOUT_JOIN),
        Status::Active => lags(setup, frame, m),
        Status::NewgrfsCheck | Status::MapWait => None,
    }
}

/// Whether a change begins the download of a connection.
fn begins_on(conn: u32, edit: Edit) -> bool
    ensures begins { result ≡ begins_on conn edit }
{
    match edit {
        Edit::Begin { conn: one, .. } => conn == one,
        _ => false,
    }
}

/// Whether one of some changes begins the download of a connection.
fn began(conn: u32, edits: &[Edit]) -> bool
    ensures began { result ≡ began conn edits.now }
{
    for edit in edits.iter() {
        if begins_on(conn, *edit) {
            return true;
        }
    }
    false
}

/// The code for which a member ends behind these changes.
fn limit_of(setup: &Setup, frame: u32, edits: &[Edit], m: &Member) -> Option<u8>
    ensures code { result ≡ limit_of setup.now frame edits.now m.now }
    ensures within { IfSome result (λ code. code ≤ 20) }
{
    if began(m.conn(), edits) {
        return None;
    }
    late(setup, frame, m)
}

/// Whether a member is late at a frame.
fn is_any_late(setup: &Setup, frame: u32, members: &[Member]) -> bool
    ensures late { result ≡ list_any (λ m. is_some (late setup.now frame m)) members.now }
{
    members.iter().any(|m| late(setup, frame, m).is_some())
}

/// These connections but for one.
fn but(alloc: Global, conn: u32, conns: &[u32]) -> Result<Vec<u32>, OutOfMemory>
    ensures conns { IfOk result (λ others. others.items ≡ but conn conns.now) }
{
    let mut others = Vec::new(alloc);
    for one in conns.iter() {
        if *one != conn {
            others.push(*one)?;
        }
    }
    Ok(others)
}

/// The queue once more.
fn copied(alloc: Global, queue: &Queue) -> Result<Queue, OutOfMemory>
    ensures same { IfOk result (λ same. same.conns ≡ queue.now.conns) }
{
    let mut same = Queue::new(alloc);
    for conn in queue.all().iter() {
        same.ask(*conn)?;
    }
    Ok(same)
}

/// Who plays and who waits behind a change.
fn follow(
    alloc: Global,
    edit: Edit,
    plays: &mut Vec<u32>,
    waits: &mut Queue,
) -> Result<(), OutOfMemory>
    ensures plays { OnOk result (plays.new.items ≡ plays_by edit plays.old.items) }
    ensures waits { OnOk result (waits.new.conns ≡ queue_by edit waits.old.conns) }
{
    match edit {
        Edit::Begin { conn, .. } => *plays = but(alloc, conn, plays.as_slice())?,
        Edit::Leave { conn } => *plays = but(alloc, conn, plays.as_slice())?,
        Edit::Unask { conn } => {
            let _ = waits.leave(conn);
        }
        _ => {}
    }
    Ok(())
}

/// Who plays and who waits behind changes.
fn follow_all(
    alloc: Global,
    edits: &[Edit],
    plays: &mut Vec<u32>,
    waits: &mut Queue,
) -> Result<(), OutOfMemory>
    ensures plays { OnOk result (plays.new.items ≡ plays_after edits.now plays.old.items) }
    ensures waits { OnOk result (waits.new.conns ≡ queue_after edits.now waits.old.conns) }
{
    for edit in edits.iter() {
        follow(alloc, *edit, plays, waits)?;
    }
    Ok(())
}

/// A member ends with a code, among those that play and wait by then.
fn end_one(
    alloc: Global,
    m: &Member,
    code: u8,
    frame: u32,
    plays: &mut Vec<u32>,
    waits: &mut Queue,
    plan: &mut Plan,
) -> Result<(), OutOfMemory>
    requires { code ≤ 20 }
    ensures steps { OnOk result (plan.new.steps
        ≡ plan.old.steps ++ ending m.now code (but m.now.conn plays.old.items) waits.old.conns) }
    ensures edits { OnOk result (plan.new.edits ≡ plan.old.edits ++ left m.now.conn frame waits.old.conns) }
    ensures plays { OnOk result (plays.new.items ≡ plays_after (left m.now.conn frame waits.old.conns) plays.old.items) }
    ensures waits { OnOk result (waits.new.conns ≡ queue_after (left m.now.conn frame waits.old.conns) waits.old.conns) }
    ensures plain { IsPlain plan.old plan.new }
{
    let before = plan.edits().len();
    let others = Conns::new(but(alloc, m.conn(), plays.as_slice())?);
    end(m, code, frame, others, waits, plan)?;
    follow_all(alloc, &plan.edits()[before..], plays, waits)?;
    Ok(())
}

/// A member ends, where it has passed a limit.
fn limit_one(
    alloc: Global,
    setup: &Setup,
    frame: u32,
    m: &Member,
    plays: &mut Vec<u32>,
    waits: &mut Queue,
    plan: &mut Plan,
) -> Result<(), OutOfMemory>
    ensures limited { OnOk result (limiting_at plan.new.edits plan.new.steps plays.new.items waits.new.conns
        ≡ limited_by (limit_of setup.now frame plan.old.edits m.now) frame m.now
        (limiting_at plan.old.edits plan.old.steps plays.old.items waits.old.conns)) }
    ensures plain { IsPlain plan.old plan.new }
{
    match limit_of(setup, frame, plan.edits(), m) {
        Some(code) => end_one(alloc, m, code, frame, plays, waits, plan),
        None => Ok(()),
    }
}

/// Who has passed a limit ends, in order of arrival.
fn end_late(
    alloc: Global,
    setup: &Setup,
    frame: u32,
    members: &[Member],
    queue: &Queue,
    plan: &mut Plan,
) -> Result<(), OutOfMemory>
    ensures steps { OnOk result (plan.new.steps ≡ (limits_of setup.now frame members.now queue.now.conns plan.old).steps) }
    ensures edits { OnOk result (plan.new.edits ≡ (limits_of setup.now frame members.now queue.now.conns plan.old).edits) }
    ensures plain { IsPlain plan.old plan.new }
{
    let mut plays = playing(alloc, members)?;
    let mut waits = copied(alloc, queue)?;
    for m in members.iter() {
        limit_one(alloc, setup, frame, m, &mut plays, &mut waits, plan)?;
    }
    Ok(())
}

/// The time limits: who has passed one ends. Where nobody has, it takes no memory.
pub fn limit(
    alloc: Global,
    setup: &Setup,
    frame: u32,
    members: &[Member],
    queue: &Queue,
    plan: &mut Plan,
) -> Result<(), OutOfMemory>
    ensures steps { OnOk result (plan.new.steps ≡ (limits_of setup.now frame members.now queue.now.conns plan.old).steps) }
    ensures edits { OnOk result (plan.new.edits ≡ (limits_of setup.now frame members.now queue.now.conns plan.old).edits) }
    ensures plain { IsPlain plan.old plan.new }
{
    if is_any_late(setup, frame, members) {
        return end_late(alloc, setup, frame, members, queue, plan);
    }
    Ok(())
}
