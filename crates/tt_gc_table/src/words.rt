//! What the words of an attempt tell its server and its client.
ghost use Rattle.std.specs.Prelude.{◌≡◌, ◌≤◌, ◌++◌, ◌∷◌, [], ℕ, OnOk};
ghost use Rattle.tt_coord.specs.declared.coord.CoordMsg.TheVariants.{GcStunConnect};
ghost use Rattle.tt_gc_table.specs.Deed.{tells};
ghost use Rattle.tt_gc_table.specs.declared.setup.GcSetup.{GcSetup};
ghost use Rattle.tt_gc_table.specs.Meetings.{shown, host_text, tells_word};
ghost use Rattle.tt_gc_table.specs.Told.{bytes_to};
ghost use Rattle.tt_gc_table.specs.Tells.{told_to};

use crate::hosts::host_text;
use crate::meetings::{End, Meeting};
use crate::parts::Parts;
use crate::tells::Tells;
use std::alloc::Global;
use tt_attempts::Told;
use tt_coord::CoordMsg;
use tt_edge::Peer;
use tt_frame::{OutOfMemory, Text, UpTo};

/// Where an end is to be reached by STUN.
fn shown(end: End) -> Peer
    ensures { result ≡ shown end }
{
    match end.noted {
        Some(peer) => peer,
        None => end.seen,
    }
}

/// A side: 0 the server, 1 the client.
fn side(number: u8) -> UpTo<1>
    requires { number ≤ 1 }
    ensures { result ≡ number }
{
    match UpTo::new(number) {
        Some(side) => side,
        None => unreachable!(),
    }
}

/// One end is told where the other one is to be reached.
fn tell_stun(
    alloc: Global,
    out: &mut Tells,
    parts: &Parts,
    token: &Text<31>,
    number: u8,
    to: u32,
    other: End,
) -> Result<(), OutOfMemory>
    requires { number ≤ 1 }
    ensures told { OnOk result ((c : ℕ) → told_to c out.new ≡ told_to c out.old ++ bytes_to c
        (tells (to ∷ []) (GcStunConnect token.now 2 number (host_text (shown other)) (shown other).port) parts.now).told) }
{
    let peer = shown(other);
    let message = CoordMsg::GcStunConnect {
        token: token.copy(),
        tracking: 2,
        side: side(number),
        host: host_text(alloc, peer)?,
        port: peer.port,
    };
    out.tell(alloc, parts, to, &message)?;
    Ok(())
}

/// Tells a word of an attempt.
pub fn tell_word(
    alloc: Global,
    out: &mut Tells,
    parts: &Parts,
    turn_host: &Text<31>,
    word: Told,
    meeting: &Meeting,
) -> Result<(), OutOfMemory>
    ensures told { OnOk result ((s : GcSetup) → s.turn_host ≡ turn_host.now → (c : ℕ)
        → told_to c out.new ≡ told_to c out.old ++ bytes_to c (tells_word s word meeting.now parts.now).told) }
{
    match word {
        Told::Nothing => Ok(()),
        Told::Direct => {
            let message = CoordMsg::GcDirectConnect {
                token: meeting.token.copy(),
                tracking: 1,
                host: host_text(alloc, meeting.server.seen)?,
                port: meeting.port,
            };
            out.tell(alloc, parts, meeting.client.conn, &message)?;
            Ok(())
        }
        Told::AskStun => {
            let message = CoordMsg::GcStunRequest {
                token: meeting.token.copy(),
            };
            out.both(
                alloc,
                parts,
                meeting.server.conn,
                meeting.client.conn,
                &message,
            )?;
            Ok(())
        }
        Told::Stun => {
            tell_stun(
                alloc,
                out,
                parts,
                &meeting.token,
                0,
                meeting.server.conn,
                meeting.client,
            )?;
            tell_stun(
                alloc,
                out,
                parts,
                &meeting.token,
                1,
                meeting.client.conn,
                meeting.server,
            )?;
            Ok(())
        }
        Told::Turn => {
            let message = CoordMsg::GcTurnConnect {
                token: meeting.token.copy(),
                tracking: 3,
                ticket: meeting.token.copy(),
                host: turn_host.copy(),
            };
            out.both(
                alloc,
                parts,
                meeting.server.conn,
                meeting.client.conn,
                &message,
            )?;
            Ok(())
        }
        Told::AllFailed => {
            let message = CoordMsg::GcConnectFailed {
                token: meeting.token.copy(),
            };
            out.tell(alloc, parts, meeting.client.conn, &message)?;
            Ok(())
        }
    }
}
