//! The text of a client.
ghost use Rattle.std.specs.Prelude.{◌≡◌, ◌++◌, OnOk, None};
ghost use Rattle.tt_report.specs.Clients.{client_head, client_lines, lines_of_client, running_lines};

use crate::worlds::{put_holdings, put_word, put_world};
use std::alloc::Global;
use tt_client::{Client, State};
use tt_frame::OutOfMemory;
use tt_lines::{put, put_number};
use tt_world::World;

/// Appends the lines of a client, as that of this connection: how it stands; and where it runs its frame, its world, and
/// the lines of what its world holds.
pub fn put_client(
    alloc: Global,
    text: &mut Vec<u8>,
    conn: u32,
    client: &Client,
) -> Result<(), OutOfMemory>
    ensures text { OnOk result (text.new.items ≡ text.old.items ++ lines_of_client conn client.now) }
{
    match client.state() {
        State::Joining => put_standing(text, conn, b" joining\n"),
        State::Running => match (client.frame(), client.world()) {
            (Some(frame), Some(world)) => put_runner(alloc, text, conn, frame, world),
            (_, _) => Ok(()),
        },
        State::Ended(code) => put_ended(text, conn, code),
        State::Shutdown => put_standing(text, conn, b" shutdown\n"),
        State::Desync {
            frame,
            mine,
            theirs,
        } => put_desync(text, conn, frame, mine, theirs),
        State::Wrong { at } => put_wrong(text, conn, at),
    }
}

/// Appends whose line it is.
fn put_head(text: &mut Vec<u8>, conn: u32) -> Result<(), OutOfMemory>
    ensures text { OnOk result (text.new.items ≡ text.old.items ++ client_head conn) }
{
    put(text, b"client ")?;
    put_number(text, conn)?;
    Ok(())
}

/// Appends a line that says no more than how a client stands.
fn put_standing(text: &mut Vec<u8>, conn: u32, standing: &[u8]) -> Result<(), OutOfMemory>
    ensures text { OnOk result (text.new.items ≡ text.old.items ++ (client_head conn ++ standing.now)) }
{
    put_head(text, conn)?;
    put(text, standing)?;
    Ok(())
}

/// Appends the lines of a client that runs.
fn put_runner(
    alloc: Global,
    text: &mut Vec<u8>,
    conn: u32,
    frame: u32,
    world: &World,
) -> Result<(), OutOfMemory>
    ensures text { OnOk result (text.new.items ≡ text.old.items ++ running_lines conn frame world.now) }
{
    put_head(text, conn)?;
    put(text, b" running ")?;
    put_number(text, frame)?;
    put(text, b" ")?;
    put_world(text, world)?;
    put(text, b"\n")?;
    put_holdings(alloc, text, world)?;
    Ok(())
}

/// Appends the line of a client that was ended.
fn put_ended(text: &mut Vec<u8>, conn: u32, code: u8) -> Result<(), OutOfMemory>
    ensures text { OnOk result (text.new.items ≡ text.old.items ++ client_lines conn (State.Ended code) None None) }
{
    put_head(text, conn)?;
    put(text, b" ended ")?;
    put_number(text, code)?;
    put(text, b"\n")?;
    Ok(())
}

/// Appends the line of a client that is out of step.
fn put_desync(
    text: &mut Vec<u8>,
    conn: u32,
    frame: u32,
    mine: u32,
    theirs: u32,
) -> Result<(), OutOfMemory>
    ensures text { OnOk result (text.new.items ≡ text.old.items ++ client_lines conn (State.Desync frame mine theirs) None None) }
{
    put_head(text, conn)?;
    put(text, b" desync ")?;
    put_number(text, frame)?;
    put(text, b" ")?;
    put_word(text, mine)?;
    put(text, b" ")?;
    put_word(text, theirs)?;
    put(text, b"\n")?;
    Ok(())
}

/// Appends the line of a client that was told what is not permitted.
fn put_wrong(text: &mut Vec<u8>, conn: u32, at: u64) -> Result<(), OutOfMemory>
    ensures text { OnOk result (text.new.items ≡ text.old.items ++ client_lines conn (State.Wrong at) None None) }
{
    put_head(text, conn)?;
    put(text, b" wrong ")?;
    put_number(text, at)?;
    put(text, b"\n")?;
    Ok(())
}
