//! The report of a game: a line for each connection, one for each command of the journal, those of each attached client, one
//! for the server and those of its companies and signs, and one where lines were refused.
ghost use Rattle.std.specs.Prelude.{◌≡◌, ◌≢◌, ◌++◌, ℕ, true, take, length, IfOk, OnOk, option_copied};
ghost use Rattle.tt_hub.specs.Hub.{origin, taken};
ghost use Rattle.tt_log.specs.Origin.{Origin};
ghost use Rattle.tt_log.specs.Told.{sent};
ghost use Rattle.tt_playing.specs.Played.{Played};
ghost use Rattle.tt_playing.specs.Playing.{IsAt, Stands, client_at};
ghost use Rattle.tt_report.specs.Summary.{refused_if_any};
ghost use Rattle.tt_replay.specs.Report.{report_of, conn_line, conn_lines, clients_upto, lines_on, standing_line, door_text, life_text};
ghost use Rattle.tt_replay.specs.Reporting.{AreToBeTold, IsToBeTold};

use std::alloc::Global;
use tt_client::Client;
use tt_edge::{Door, drain};
use tt_frame::OutOfMemory;
use tt_hub::Hub;
use tt_lines::{put, put_bytes, put_number};
use tt_playing::{Connection, Play, client_of, next_number};
use tt_report::{put_client, put_holdings, put_journal, put_refused, put_server};

/// The report's text. What the connections were told is taken from the hub; what clients were handed of it was kept.
pub fn report_of(alloc: Global, play: &mut Play) -> Result<Vec<u8>, OutOfMemory>
    requires stands { Stands play.old }
    requires keeps { play.old.keeps ≡ true }
    ensures text { (o : Origin) (p : Played) → IsAt o play.old p → IfOk result (λ text. text.items ≡ report_of o p) }
{
    let mut text = Vec::new(alloc);
    put_connections(alloc, &mut text, &mut play.hub, &play.connections)?;
    put_journal(alloc, &mut text, play.hub.journal())?;
    put_clients(alloc, &mut text, play)?;
    put_standing(&mut text, &play.hub)?;
    put_holdings(alloc, &mut text, play.hub.world())?;
    put_refused_if_any(&mut text, play.refused)?;
    Ok(text)
}

/// Appends a line for each connection, in order.
fn put_connections(
    alloc: Global,
    text: &mut Vec<u8>,
    hub: &mut Hub,
    connections: &[Connection],
) -> Result<(), OutOfMemory>
    requires to_be_told { AreToBeTold hub.old connections.now }
    ensures text { OnOk result (text.new.items ≡ text.old.items ++ conn_lines (origin hub.old) hub.old.events (length connections.now)) }
    ensures origin { origin hub.new ≡ origin hub.old }
    ensures events { hub.new.events ≡ hub.old.events }
{
    let mut conn = 0u32;
    for connection in connections {
        conn = next_number(conn)?;
        put_connection(alloc, text, hub, conn, connection)?;
    }
    Ok(())
}

/// Appends a connection's line.
fn put_connection(
    alloc: Global,
    text: &mut Vec<u8>,
    hub: &mut Hub,
    conn: u32,
    connection: &Connection,
) -> Result<(), OutOfMemory>
    requires to_be_told { IsToBeTold hub.old conn connection.now }
    ensures text { OnOk result (text.new.items ≡ text.old.items ++ conn_line (origin hub.old) hub.old.events conn) }
    ensures origin { origin hub.new ≡ origin hub.old }
    ensures events { hub.new.events ≡ hub.old.events }
    ensures others { (other : ℕ) → other ≢ conn → taken hub.new other ≡ taken hub.old other }
{
    let live = hub.live(conn);
    let told = told_in_all(alloc, hub, conn, &connection.told)?;
    put(text, b"conn ")?;
    put_number(text, conn)?;
    put(text, b" ")?;
    put_door(text, connection.door)?;
    put(text, b" ")?;
    put_life(text, live)?;
    put(text, b" ")?;
    put_bytes(alloc, text, &told)?;
    put(text, b"\n")?;
    Ok(())
}

/// All that a connection was told: what was taken of it, and what is left.
fn told_in_all(alloc: Global, hub: &mut Hub, conn: u32, told: &[u8]) -> Result<Vec<u8>, OutOfMemory>
    requires told { told.now ≡ take (taken hub.old conn) (sent (origin hub.old) hub.old.events conn) }
    ensures whole { IfOk result (λ whole. whole.items ≡ sent (origin hub.old) hub.old.events conn) }
    ensures origin { origin hub.new ≡ origin hub.old }
    ensures events { hub.new.events ≡ hub.old.events }
    ensures others { (other : ℕ) → other ≢ conn → taken hub.new other ≡ taken hub.old other }
{
    let left = drain(alloc, hub, conn)?;
    let mut whole = Vec::from_slice(alloc, told)?;
    whole.extend_from_slice(&left)?;
    Ok(whole)
}

/// Appends whose door it is.
fn put_door(text: &mut Vec<u8>, door: Door) -> Result<(), OutOfMemory>
    ensures text { OnOk result (text.new.items ≡ text.old.items ++ door_text door) }
{
    match door {
        Door::Main => put(text, b"game"),
        Door::Side => put(text, b"admin"),
    }
}

/// Appends whether a connection is live.
fn put_life(text: &mut Vec<u8>, live: bool) -> Result<(), OutOfMemory>
    ensures text { OnOk result (text.new.items ≡ text.old.items ++ life_text live) }
{
    if live {
        put(text, b"live")
    } else {
        put(text, b"ended")
    }
}

/// Appends the lines of the attached clients, in the order of their connections.
fn put_clients(alloc: Global, text: &mut Vec<u8>, play: &Play) -> Result<(), OutOfMemory>
    ensures text { OnOk result (text.new.items ≡ text.old.items ++ clients_upto (client_at play.now) (length play.now.connections.items)) }
{
    let mut conn = 0u32;
    for _place in 0..play.connections.len() {
        conn = next_number(conn)?;
        put_attached(alloc, text, conn, client_of(play, conn))?;
    }
    Ok(())
}

/// Appends the lines of the client of a connection, where one is attached.
fn put_attached(
    alloc: Global,
    text: &mut Vec<u8>,
    conn: u32,
    client: Option<&Client>,
) -> Result<(), OutOfMemory>
    ensures text { OnOk result (text.new.items ≡ text.old.items ++ lines_on conn (option_copied client.entry)) }
{
    match client {
        None => Ok(()),
        Some(client) => put_client(alloc, text, conn, client),
    }
}

/// Appends the server's line.
fn put_standing(text: &mut Vec<u8>, hub: &Hub) -> Result<(), OutOfMemory>
    ensures text { OnOk result (text.new.items ≡ text.old.items ++ standing_line (origin hub.now) hub.now.events) }
{
    put_server(text, hub.frame(), hub.top(), hub.world())
}

/// Appends how many lines were refused, if any were.
fn put_refused_if_any(text: &mut Vec<u8>, refused: u32) -> Result<(), OutOfMemory>
    ensures text { OnOk result (text.new.items ≡ text.old.items ++ refused_if_any refused) }
{
    if refused == 0 {
        return Ok(());
    }
    put_refused(text, refused)
}
