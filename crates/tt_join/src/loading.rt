//! The next pieces of the map, for the member that downloads.
ghost use Rattle.std.specs.Prelude.{◌≡◌, ◌++◌, OnOk, MatchOption, None, Some};
ghost use Rattle.tt_log.specs.Member.{is_in};
ghost use Rattle.tt_members.specs.Planned.{IsPlain};
ghost use Rattle.tt_members.specs.Rules.{Rise};
ghost use Rattle.tt_join.specs.Ticking.{loader, loading_edits, loading_steps, pieces_for, status_for};
ghost use Rattle.tt_rules.specs.declared.status.Status.TheVariants.{Map};

use tt_frame::OutOfMemory;
use tt_members::{Edit, Member, Plan, Queue, What, place_of};
use tt_rules::Status;

/// How many bytes a piece has, but for the last one.
const PIECE: u64 = 1_400;

/// How many pieces are told in a tick.
const MOST_PIECES: u64 = 4;

/// How many pieces of these bytes are told in a tick.
fn pieces_for(left: u32) -> u32
    ensures pieces { result ≡ pieces_for left }
{
    let pieces = (u64::from(left) + PIECE - 1) / PIECE;
    pieces.min(MOST_PIECES) as u32
}

/// The status behind them: where they are the last ones the map is done.
fn status_for(left: u32, status: Status) -> Status
    ensures status { result ≡ status_for left status }
{
    if u64::from(left) > MOST_PIECES * PIECE {
        status
    } else {
        Status::DoneMap
    }
}

/// Whether a member is in MAP.
fn is_loading(m: &Member) -> bool
    ensures loading { result ≡ is_in Map m.now }
{
    let marks = m.marks();
    marks.status.place() == Status::Map.place()
}

/// The member that downloads.
fn loader<'a>(queue: &Queue, members: &'a [Member]) -> Option<&'a Member>
    requires { Rise members.now }
    ensures loader { MatchOption result (loader queue.now.conns members.now ≡ None) (λ m. loader queue.now.conns members.now ≡ Some m.now) }
{
    let conn = queue.first()?;
    let at = place_of(members, conn)?;
    let m = &members[at];
    if is_loading(m) { Some(m) } else { None }
}

/// The member that downloads is told up to four pieces, of so many bytes that it was not told yet.
pub fn tell_pieces(
    left: u32,
    queue: &Queue,
    members: &[Member],
    plan: &mut Plan,
) -> Result<(), OutOfMemory>
    requires { Rise members.now }
    ensures steps { OnOk result (plan.new.steps ≡ plan.old.steps ++ loading_steps (loader queue.now.conns members.now)) }
    ensures edits { OnOk result (plan.new.edits ≡ plan.old.edits ++ loading_edits left (loader queue.now.conns members.now)) }
    ensures plain { IsPlain plan.old plan.new }
{
    let Some(m) = loader(queue, members) else {
        return Ok(());
    };
    let marks = m.marks();
    let conn = m.conn();
    let Some(pieces) = marks.pieces.checked_add(pieces_for(left)) else {
        return Err(OutOfMemory);
    };
    plan.change(Edit::Load {
        conn,
        pieces,
        status: status_for(left, marks.status),
    })?;
    plan.tell_one(conn, What::MapPieces)
}
