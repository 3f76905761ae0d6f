//! The text of the summary.
ghost use Rattle.std.specs.Prelude.{◌≡◌, ◌+◌, ◌++◌, ℕ, length, IfOk, OnOk, option_copied};
ghost use Rattle.tt_hub.specs.Hub.{origin};
ghost use Rattle.tt_edge.specs.Event.{opens};
ghost use Rattle.tt_log.specs.History.{table_of};
ghost use Rattle.tt_log.specs.Origin.{Origin};
ghost use Rattle.tt_log.specs.Told.{sent};
ghost use Rattle.tt_playing.specs.Played.{Played};
ghost use Rattle.tt_playing.specs.Playing.{IsAt, client_at};
ghost use Rattle.tt_report.specs.Summary.{count_lines};
ghost use Rattle.tt_hour_run.specs.Summed.{summary_of, game_summary, running_upto, runs_at, is_frame};

use std::alloc::Global;
use tt_client::{Client, State};
use tt_frame::OutOfMemory;
use tt_hub::Hub;
use tt_playing::{Play, client_of, next_number};
use tt_report::{
    put_connections, put_count, put_entry_count, put_frame, put_refused, put_running,
    put_words_line,
};

/// The summary of a play.
pub fn summary_of(alloc: Global, play: &Play) -> Result<Vec<u8>, OutOfMemory>
    ensures { (o : Origin) (p : Played) → IsAt o play.now p → IfOk result (λ text. text.items ≡ summary_of o p) }
{
    let mut text = Vec::new(alloc);
    let running = running_at(play, play.hub.frame(), play.hub.connections())?;
    put_game(&mut text, &play.hub)?;
    put_refused(&mut text, play.refused)?;
    put_running(&mut text, running)?;
    Ok(text)
}

/// Appends what the game comes to.
fn put_game(text: &mut Vec<u8>, hub: &Hub) -> Result<(), OutOfMemory>
    ensures { OnOk result (text.new.items ≡ text.old.items ++ game_summary (origin hub.now) hub.now.events) }
{
    put_connections(text, hub.connections())?;
    put_frame(text, hub.frame())?;
    put_entry_count(text, hub.journal().len())?;
    put_words_line(text, hub.world().random())?;
    put_counts(text, hub, hub.connections())?;
    Ok(())
}

/// Appends how many bytes each connection was told, up to a number.
fn put_counts(text: &mut Vec<u8>, hub: &Hub, last: u32) -> Result<(), OutOfMemory>
    ensures { OnOk result (text.new.items
        ≡ text.old.items ++ count_lines (λ conn. length (sent (origin hub.now) hub.now.events conn)) last) }
{
    let mut conn = 0u32;
    for _place in 0..last {
        conn = next_number(conn)?;
        put_count(text, conn, hub.sent_len(conn))?;
    }
    Ok(())
}

/// How many clients of the connections up to a number run at a frame.
fn running_at(play: &Play, frame: u32, last: u32) -> Result<u32, OutOfMemory>
    ensures { IfOk result (λ running. running ≡ running_upto frame (client_at play.now) last) }
{
    let mut conn = 0u32;
    let mut running = 0u32;
    for _place in 0..last {
        conn = next_number(conn)?;
        if runs_at(client_of(play, conn), frame) {
            running = next_number(running)?;
        }
    }
    Ok(running)
}

/// Whether there is a client that runs, and stands at a frame.
fn runs_at(client: Option<&Client>, frame: u32) -> bool
    ensures { result ≡ runs_at frame (option_copied client.entry) }
{
    match client {
        None => false,
        Some(client) => matches!(client.state(), State::Running) && is_frame(client.frame(), frame),
    }
}

/// Whether it is this frame.
fn is_frame(own: Option<u32>, frame: u32) -> bool
    ensures { result ≡ is_frame frame own }
{
    match own {
        None => false,
        Some(own) => own == frame,
    }
}
