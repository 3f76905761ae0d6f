//! The STUN desk: a packet at the side door shows an address, and its connection ends untold.
ghost use Rattle.std.specs.Prelude.{◌≡◌, true, false, is_some};
ghost use Rattle.tt_gc_table.specs.Table.{connection_of, server_on};
ghost use Rattle.tt_gc_table.specs.Desk.{is_at_stun, read_stun, at_desk, shows};
ghost use Rattle.tt_gc_table.specs.Ending.{goes};
ghost use Rattle.tt_gc_table.specs.Deed.{◌▹◌};
ghost use Rattle.tt_gc.specs.Changes.{IsDone};

use crate::change::Change;
use std::alloc::Global;
use tt_attempts::Stage;
use tt_coord::StunMsg;
use tt_edge::Peer;
use tt_frame::Text;
use tt_gc_table::{Parts, Seen};

/// Whether an attempt that is so far stands at STUN.
fn is_at_stun(stage: Stage) -> bool
    ensures { result ≡ is_at_stun stage }
{
    matches!(stage, Stage::AwaitingStun { .. } | Stage::TryingStun)
}

/// Plans that an address is noted, where the attempt with this token stands at STUN, and that the connection which showed it ends.
fn plan_note(parts: &Parts, conn: u32, peer: Peer, token: Text<31>, side: u8) -> Change
    requires there { is_some (connection_of parts.now conn) ≡ true }
    requires unregistered { is_some (server_on parts.now conn) ≡ false }
    ensures { IsDone (shows peer token side parts.now ▹ goes conn) parts.now result }
{
    let Some(meeting) = parts.meeting(token.bytes()) else {
        return Change::Go { conn };
    };
    if !is_at_stun(meeting.attempt.stage()) {
        return Change::Go { conn };
    }
    Change::Note {
        conn,
        token,
        side,
        peer,
    }
}

/// Plans what is done with a packet at the desk. It tells nobody anything.
pub(crate) fn plan_desk(alloc: Global, parts: &Parts, seen: &Seen, kind: u8, body: &[u8]) -> Change
    requires there { is_some (connection_of parts.now seen.now.conn) ≡ true }
    requires unregistered { is_some (server_on parts.now seen.now.conn) ≡ false }
    ensures { IsDone (at_desk seen.now (read_stun kind body.now) parts.now) parts.now result }
{
    let conn = seen.conn;
    match StunMsg::decode(alloc, kind, body) {
        Ok(StunMsg::SercliStun { token, side }) => {
            plan_note(parts, conn, seen.peer, token, side.get())
        }
        Err(_) => Change::Go { conn },
    }
}
