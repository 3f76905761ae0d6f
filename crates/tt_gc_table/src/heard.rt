//! What an open attempt hears: planned from the table as it stands, and then done.
ghost use Rattle.std.specs.Prelude.{◌≡◌, ◌==◌, ◌++◌, ℕ, OnOk, IfOk};
ghost use Rattle.tt_attempts.specs.Attempts.{stepped};
ghost use Rattle.tt_gc_table.specs.declared.setup.GcSetup.{GcSetup};
ghost use Rattle.tt_gc_table.specs.Meetings.{is_over, hears_it};
ghost use Rattle.tt_gc_table.specs.Told.{bytes_to};
ghost use Rattle.tt_gc_table.specs.Table.{Table};
ghost use Rattle.tt_gc_table.specs.Hearing.{Reaches};
ghost use Rattle.tt_gc_table.specs.PacketRules.{may_fail, is_side, on_failed, on_result, on_connected};
ghost use Rattle.tt_gc_table.specs.Tells.{told_to};

use crate::meetings::Meeting;
use crate::parts::Parts;
use crate::tells::Tells;
use crate::words::tell_word;
use std::alloc::Global;
use tt_attempts::{Heard, Stage};
use tt_frame::{OutOfMemory, Text};

/// Whether an attempt that is so far is over.
pub fn is_over(stage: Stage) -> bool
    ensures { result ≡ is_over stage }
{
    matches!(stage, Stage::Over)
}

/// Plans what is told where an open attempt hears something, and answers how far it is then. Nothing is changed yet.
pub fn plan_heard(
    alloc: Global,
    out: &mut Tells,
    parts: &Parts,
    turn_host: &Text<31>,
    heard: Heard,
    meeting: &Meeting,
) -> Result<Stage, OutOfMemory>
    ensures told { OnOk result ((s : GcSetup) → s.turn_host ≡ turn_host.now → (c : ℕ)
        → told_to c out.new ≡ told_to c out.old ++ bytes_to c (hears_it s heard meeting.now parts.now).told) }
    ensures stage { IfOk result (λ stage. stage ≡ (stepped meeting.now.state.ways meeting.now.state.stage heard).stage) }
{
    let (word, stage) = meeting.attempt.ahead(heard);
    tell_word(alloc, out, parts, turn_host, word, meeting)?;
    Ok(stage)
}

/// What is done where an open attempt hears something.
#[derive(Clone, Copy, Debug, PartialEq, Eq)]
pub struct Hearing {
    pub heard: Heard,
    pub stage: Stage,
}

/// Whether this connection may say that this way failed: the client, or, but for the direct way, the server.
fn may_fail(conn: u32, tracking: u8, meeting: &Meeting) -> bool
    ensures { result ≡ may_fail conn tracking meeting.now }
{
    meeting.client.conn == conn || meeting.server.conn == conn && tracking != 1
}

/// Whether this connection is the side of this number.
fn is_side(conn: u32, side: u8, meeting: &Meeting) -> bool
    ensures { result ≡ is_side conn side meeting.now }
{
    side == 0 && meeting.server.conn == conn || side == 1 && meeting.client.conn == conn
}

/// Whether this connection is the client.
fn is_client(conn: u32, meeting: &Meeting) -> bool
    ensures { result ≡ (meeting.now.client.conn == conn) }
{
    meeting.client.conn == conn
}

/// Plans the failure of a way, as a peer says it; what a stranger says, or what is said late, comes to nothing.
pub fn plan_failed(
    alloc: Global,
    out: &mut Tells,
    parts: &Parts,
    turn_host: &Text<31>,
    conn: u32,
    token: &[u8],
    tracking: u8,
) -> Result<Option<Hearing>, OutOfMemory>
    ensures told { OnOk result ((s : GcSetup) → s.turn_host ≡ turn_host.now → (c : ℕ)
        → told_to c out.new ≡ told_to c out.old ++ bytes_to c (on_failed s conn token.now tracking parts.now).told) }
    ensures done { IfOk result (λ hearing. (s : GcSetup)
        → Reaches s token.now hearing parts.now (on_failed s conn token.now tracking parts.now).table) }
{
    let Some(meeting) = parts.meeting(token) else {
        return Ok(None);
    };
    if !may_fail(conn, tracking, meeting) {
        return Ok(None);
    }
    let heard = Heard::Failed { tracking };
    let stage = plan_heard(alloc, out, parts, turn_host, heard, meeting)?;
    Ok(Some(Hearing { heard, stage }))
}

/// Plans a result of STUN, as the side that it names says it.
pub fn plan_result(
    alloc: Global,
    out: &mut Tells,
    parts: &Parts,
    turn_host: &Text<31>,
    conn: u32,
    token: &[u8],
    side: u8,
    ok: bool,
) -> Result<Option<Hearing>, OutOfMemory>
    ensures told { OnOk result ((s : GcSetup) → s.turn_host ≡ turn_host.now → (c : ℕ)
        → told_to c out.new ≡ told_to c out.old ++ bytes_to c (on_result s conn token.now side ok parts.now).told) }
    ensures done { IfOk result (λ hearing. (s : GcSetup)
        → Reaches s token.now hearing parts.now (on_result s conn token.now side ok parts.now).table) }
{
    let Some(meeting) = parts.meeting(token) else {
        return Ok(None);
    };
    if !is_side(conn, side, meeting) {
        return Ok(None);
    }
    let heard = Heard::StunResult { side, ok };
    let stage = plan_heard(alloc, out, parts, turn_host, heard, meeting)?;
    Ok(Some(Hearing { heard, stage }))
}

/// Plans that the client is connected, as it says itself.
pub fn plan_connected(
    alloc: Global,
    out: &mut Tells,
    parts: &Parts,
    turn_host: &Text<31>,
    conn: u32,
    token: &[u8],
) -> Result<Option<Hearing>, OutOfMemory>
    ensures told { OnOk result ((s : GcSetup) → s.turn_host ≡ turn_host.now → (c : ℕ)
        → told_to c out.new ≡ told_to c out.old ++ bytes_to c (on_connected s conn token.now parts.now).told) }
    ensures done { IfOk result (λ hearing. (s : GcSetup)
        → Reaches s token.now hearing parts.now (on_connected s conn token.now parts.now).table) }
{
    let Some(meeting) = parts.meeting(token) else {
        return Ok(None);
    };
    if !is_client(conn, meeting) {
        return Ok(None);
    }
    let stage = plan_heard(alloc, out, parts, turn_host, Heard::Connected, meeting)?;
    Ok(Some(Hearing {
        heard: Heard::Connected,
        stage,
    }))
}

/// Does what was planned.
pub fn hear(parts: &mut Parts, token: &[u8], hearing: Option<Hearing>)
    ensures { (s : GcSetup) (after : Table) → Reaches s token.now hearing parts.old after → parts.new ≡ after }
{
    if let Some(hearing) = hearing {
        parts.reach(token, hearing.heard, hearing.stage);
    }
}
