//! What a client asks: to be brought to a server.
ghost use Rattle.std.specs.Prelude.{◌≡◌, ℕ, List, [], ◌∷◌, ◌++◌, true, is_some, IfOk, OnOk};
ghost use Rattle.tt_coord.specs.declared.coord.CoordMsg.TheVariants.{GcConnecting};
ghost use Rattle.tt_attempts.specs.Attempts.{from_direct};
ghost use Rattle.tt_gc_table.specs.Deed.{tells};
ghost use Rattle.tt_gc_table.specs.Told.{bytes_to};
ghost use Rattle.tt_gc_table.specs.Tells.{told_to};
ghost use Rattle.tt_gc_table.specs.Table.{connection_of, server_by};
ghost use Rattle.tt_gc_table.specs.Codes.{new_token};
ghost use Rattle.tt_gc_table.specs.Meetings.{end_on, new_meeting, begins_it};
ghost use Rattle.tt_gc_table.specs.PacketRules.{connects, by_code, on_connect};
ghost use Rattle.tt_gc_table.specs.Registry.{server_at};
ghost use Rattle.tt_gc.specs.Changes.{IsPlanned, first_change};

use crate::change::Change;
use crate::rules::Rules;
use crate::servers::{no_text, plan_refusal};
use std::alloc::Global;
use tt_attempts::{Attempt, Stage, Told};
use tt_coord::CoordMsg;
use tt_frame::{OutOfMemory, Text};
use tt_gc_table::{End, GcSetup, Meeting, Parts, Seen, Served, Tells, tell_word};
use tt_world::Random;

/// At most so many attempts are open at a time.
const MOST_ATTEMPTS: usize = 4096;

/// One of the two that an attempt brings together, as it is when the attempt begins.
fn end_on(seen: &Seen) -> End
    ensures { result ≡ end_on seen.now }
{
    End {
        conn: seen.conn,
        seen: seen.peer,
        noted: None,
    }
}

/// An attempt that begins, and its first word.
fn first_word(
    setup: &GcSetup,
    token: Text<31>,
    server: &Seen,
    served: &Served,
    client: &Seen,
) -> (Told, Meeting)
    ensures told { result.0 ≡ (from_direct setup.now.ways).told }
    ensures meeting { (code : List ℕ) → result.1
        ≡ new_meeting setup.now token server.now (server_at (code, served.now)) client.now }
{
    let mut attempt = Attempt::new(setup.ways);
    let word = attempt.first();
    let meeting = Meeting {
        token,
        server: end_on(server),
        client: end_on(client),
        port: served.port,
        attempt,
    };
    (word, meeting)
}

/// Plans that an attempt begins: the client is told its token, and then the first way.
fn plan_begin(
    alloc: Global,
    out: &mut Tells,
    rules: &Rules,
    parts: &Parts,
    server: &Seen,
    served: &Served,
    client: &Seen,
    code: &Text<31>,
) -> Result<Change, OutOfMemory>
    ensures { IfOk result (λ change. IsPlanned rules.now (begins_it rules.now code.now
        (new_meeting rules.now (new_token parts.now) server.now (server_at (code.now, served.now)) client.now) parts.now)
        parts.now out.old out.new change) }
{
    // The numbers of attempts are counted in 32 bits.
    if parts.begun() == u32::MAX {
        return Err(OutOfMemory);
    }
    let (token, random) = parts.next_token(alloc)?;
    tell_connecting(alloc, out, parts, client.conn, token.copy(), code.copy())?;
    let (word, meeting) = first_word(rules.setup(), token, server, served, client);
    tell_word(alloc, out, parts, rules.turn_host(), word, &meeting)?;
    Ok(begin(random, meeting))
}

/// An attempt begins, unless it is over at once.
fn begin(random: Random, meeting: Meeting) -> Change
    ensures { result ≡ first_change random meeting.state.stage meeting }
{
    if let Stage::Over = meeting.attempt.stage() {
        Change::Pass { random }
    } else {
        Change::Begin { random, meeting }
    }
}

/// Tells a client the token of its attempt.
fn tell_connecting(
    alloc: Global,
    out: &mut Tells,
    parts: &Parts,
    conn: u32,
    token: Text<31>,
    code: Text<31>,
) -> Result<(), OutOfMemory>
    ensures told { OnOk result ((c : ℕ) → told_to c out.new
        ≡ told_to c out.old ++ bytes_to c (tells (conn ∷ []) (GcConnecting token code) parts.now).told) }
{
    let message = CoordMsg::GcConnecting { token, code };
    out.tell(alloc, parts, conn, &message)?;
    Ok(())
}

/// Plans what is done where a client wants to be brought to this server.
fn plan_server(
    alloc: Global,
    out: &mut Tells,
    rules: &Rules,
    parts: &Parts,
    client: &Seen,
    code: &Text<31>,
    served: &Served,
) -> Result<Change, OutOfMemory>
    ensures { IfOk result (λ change. IsPlanned rules.now
        (connects rules.now client.now code.now (server_at (code.now, served.now)) parts.now) parts.now out.old out.new change) }
{
    match parts.connection(served.conn) {
        Some(server) => plan_begin(alloc, out, rules, parts, &server, served, client, code),
        None => Ok(Change::Stay),
    }
}

/// Plans what is done where a client wants to be brought to the server with this code, and there is room for an attempt.
fn plan_code(
    alloc: Global,
    out: &mut Tells,
    rules: &Rules,
    parts: &Parts,
    client: &Seen,
    code: &Text<31>,
) -> Result<Change, OutOfMemory>
    requires there { is_some (connection_of parts.now client.now.conn) ≡ true }
    ensures { IfOk result (λ change. IsPlanned rules.now (by_code rules.now client.now code.now (server_by parts.now code.now) parts.now)
        parts.now out.old out.new change) }
{
    match parts.server_by(code.bytes()) {
        Some(served) => plan_server(alloc, out, rules, parts, client, code, served),
        None => plan_refusal(alloc, out, rules, parts, client.conn, 2, code.copy()),
    }
}

/// Plans what is done where a client wants to be brought to the server with this code.
pub(crate) fn plan_connect(
    alloc: Global,
    out: &mut Tells,
    rules: &Rules,
    parts: &Parts,
    client: &Seen,
    code: &Text<31>,
) -> Result<Change, OutOfMemory>
    requires there { is_some (connection_of parts.now client.now.conn) ≡ true }
    ensures { IfOk result (λ change. IsPlanned rules.now (on_connect rules.now client.now code.now parts.now)
        parts.now out.old out.new change) }
{
    if parts.attempts() >= MOST_ATTEMPTS {
        return plan_refusal(alloc, out, rules, parts, client.conn, 0, no_text());
    }
    plan_code(alloc, out, rules, parts, client, code)
}
