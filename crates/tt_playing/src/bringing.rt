//! The lines that bring bytes from a connection to its client, and from the client to its connection.
//!
//! However many bytes a line asks for, no more room is taken than there are bytes.
ghost use Rattle.std.specs.Prelude.{◌≡◌, ◌≢◌, ◌+◌, ◌-◌, ◌≤◌, ◌++◌, ℕ, true, false, length, min, take, drop, is_some, IfOk, OnOk};
ghost use Rattle.tt_client.specs.Calls.{Feed, Take};
ghost use Rattle.tt_client.specs.Held.{with_call};
ghost use Rattle.tt_client.specs.Saying.{IsSaying, bytes_of};
ghost use Rattle.tt_hub.specs.Hub.{origin, taken};
ghost use Rattle.tt_log.specs.Origin.{Origin};
ghost use Rattle.tt_log.specs.Told.{sent};
ghost use Rattle.tt_playing.specs.Attached.{AreSayings, after_call, waiting_in};
ghost use Rattle.tt_playing.specs.Played.{Played, brought_down, brought_up, is_live, pumped};
ghost use Rattle.tt_playing.specs.Playing.{IsAt, Stands, client_at};

use crate::attached::{feed_client, place_with, run};
use crate::events::{feed, is_gone};
use crate::play::{Connection, Play};
use std::alloc::Global;
use tt_client::Client;
use tt_edge::Core;
use tt_frame::OutOfMemory;
use tt_hub::Hub;

/// As many as there are.
const MOST: u32 = 4_294_967_295;

/// How many bytes are moved at once.
const PIECE: usize = 1024;

/// Down and run, as far as they go; and up, where the connection is live.
pub(crate) fn pump(alloc: Global, play: &mut Play, conn: u32) -> Result<(), OutOfMemory>
    requires stands { Stands play.old }
    requires client { is_some (client_at play.old conn) ≡ true }
    ensures at { (o : Origin) (p : Played) → IsAt o play.old p → OnOk result (IsAt o play.new (pumped o conn p)) }
    ensures keeps { play.new.keeps ≡ play.old.keeps }
{
    bring_down(alloc, play, conn, MOST)?;
    run(play, conn, MOST)?;
    if is_gone(&play.hub, conn) {
        Ok(())
    } else {
        bring_up(alloc, play, conn, MOST)
    }
}

/// At most so many bytes of the connection, to its client as one piece.
pub(crate) fn bring_down(
    alloc: Global,
    play: &mut Play,
    conn: u32,
    n: u32,
) -> Result<(), OutOfMemory>
    requires client { is_some (client_at play.old conn) ≡ true }
    ensures at { (o : Origin) (p : Played) → IsAt o play.old p → OnOk result (IsAt o play.new (brought_down o conn n p)) }
    ensures keeps { play.new.keeps ≡ play.old.keeps }
{
    let place = place_with(play, conn);
    let keeps = play.keeps;
    let piece = take_sent(alloc, &mut play.hub, conn, n)?;
    hand(&mut play.connections[place], &piece, keeps)?;
    Ok(())
}

/// Hands a piece to the client of a connection, and keeps it where that is asked for.
fn hand(connection: &mut Connection, piece: &[u8], keeps: bool) -> Result<(), OutOfMemory>
    ensures client { OnOk result (connection.new.client ≡ after_call (Feed piece.now) connection.old.client) }
    ensures told { keeps ≡ true → OnOk result (connection.new.told.items ≡ connection.old.told.items ++ piece.now) }
    ensures door { connection.new.door ≡ connection.old.door }
    ensures rest { connection.new.rest.items ≡ connection.old.rest.items }
{
    keep(&mut connection.told, piece, keeps)?;
    feed_client(&mut connection.client, piece)?;
    Ok(())
}

/// Keeps a piece where that is asked for.
fn keep(told: &mut Vec<u8>, piece: &[u8], keeps: bool) -> Result<(), OutOfMemory>
    ensures told { keeps ≡ true → OnOk result (told.new.items ≡ told.old.items ++ piece.now) }
{
    if keeps {
        told.extend_from_slice(piece)?;
    }
    Ok(())
}

/// Takes at most so many of the next bytes of a connection.
fn take_sent(alloc: Global, hub: &mut Hub, conn: u32, n: u32) -> Result<Vec<u8>, OutOfMemory>
    ensures bytes { IfOk result (λ bytes. bytes.items ≡ take n (drop (taken hub.old conn) (sent (origin hub.old) hub.old.events conn))) }
    ensures taken { IfOk result (λ bytes. taken hub.new conn ≡ taken hub.old conn + length bytes.items) }
    ensures others { (other : ℕ) → other ≢ conn → taken hub.new other ≡ taken hub.old other }
    ensures origin { origin hub.new ≡ origin hub.old }
    ensures events { hub.new.events ≡ hub.old.events }
{
    let mut bytes = Vec::new(alloc);
    'pieces: while bytes.len() < n as usize {
        let room = (n as usize - bytes.len()).min(PIECE);
        let count = take_some(hub, conn, &mut bytes, room)?;
        if count == 0 {
            return Ok(bytes);
        }
    }
    Ok(bytes)
}

/// Takes the next bytes of a connection, at most as many as are moved at once, and answers how many.
fn take_some(
    hub: &mut Hub,
    conn: u32,
    bytes: &mut Vec<u8>,
    room: usize,
) -> Result<usize, OutOfMemory>
    requires room { room ≤ 1024 }
    ensures count { IfOk result (λ count. count ≡ min room (length (sent (origin hub.old) hub.old.events conn) - taken hub.old conn)) }
    ensures bytes { IfOk result (λ count. bytes.new.items
        ≡ bytes.old.items ++ take count (drop (taken hub.old conn) (sent (origin hub.old) hub.old.events conn))) }
    ensures taken { IfOk result (λ count. taken hub.new conn ≡ taken hub.old conn + count) }
    ensures others { (other : ℕ) → other ≢ conn → taken hub.new other ≡ taken hub.old other }
    ensures origin { origin hub.new ≡ origin hub.old }
    ensures events { hub.new.events ≡ hub.old.events }
{
    let mut piece = [0; PIECE];
    take_into(hub, conn, &mut piece[..room], bytes)
}

/// Takes the next bytes of a connection, as many as the buffer holds, and answers how many.
fn take_into(
    hub: &mut Hub,
    conn: u32,
    piece: &mut [u8],
    bytes: &mut Vec<u8>,
) -> Result<usize, OutOfMemory>
    ensures count { IfOk result (λ count. count
        ≡ min (length piece.old) (length (sent (origin hub.old) hub.old.events conn) - taken hub.old conn)) }
    ensures bytes { IfOk result (λ count. bytes.new.items
        ≡ bytes.old.items ++ take count (drop (taken hub.old conn) (sent (origin hub.old) hub.old.events conn))) }
    ensures taken { IfOk result (λ count. taken hub.new conn ≡ taken hub.old conn + count) }
    ensures others { (other : ℕ) → other ≢ conn → taken hub.new other ≡ taken hub.old other }
    ensures origin { origin hub.new ≡ origin hub.old }
    ensures events { hub.new.events ≡ hub.old.events }
{
    let took = hub.take(conn, piece);
    bytes.extend_from_slice(&piece[..took.count])?;
    Ok(took.count)
}

/// At most so many bytes of the client, to its connection as one piece. The connection is live.
pub(crate) fn bring_up(alloc: Global, play: &mut Play, conn: u32, n: u32) -> Result<(), OutOfMemory>
    requires stands { Stands play.old }
    requires client { is_some (client_at play.old conn) ≡ true }
    requires live { is_live (origin play.old.hub) play.old.hub.events conn ≡ true }
    ensures at { (o : Origin) (p : Played) → IsAt o play.old p → OnOk result (IsAt o play.new (brought_up o conn n p)) }
    ensures keeps { play.new.keeps ≡ play.old.keeps }
{
    let place = place_with(play, conn);
    let piece = take_said(alloc, &mut play.connections[place].client, n)?;
    feed(alloc, play, conn, &piece)
}

/// Takes at most so many of the next bytes that a client has to say, where there is one.
fn take_said(alloc: Global, client: &mut Option<Client>, n: u32) -> Result<Vec<u8>, OutOfMemory>
    requires saying { AreSayings client.old }
    ensures bytes { IfOk result (λ bytes. bytes.items ≡ waiting_in n client.old) }
    ensures client { IfOk result (λ bytes. client.new ≡ after_call (Take (length bytes.items)) client.old) }
{
    match client {
        None => Ok(Vec::new(alloc)),
        Some(client) => take_words(alloc, client, n),
    }
}

/// Takes at most so many of the next bytes that a client has to say.
fn take_words(alloc: Global, client: &mut Client, n: u32) -> Result<Vec<u8>, OutOfMemory>
    requires saying { IsSaying client.old.player.saying }
    ensures bytes { IfOk result (λ bytes. bytes.items ≡ take n (bytes_of client.old.player.saying)) }
    ensures client { IfOk result (λ bytes. client.new ≡ with_call client.old (Take (length bytes.items))) }
{
    let mut bytes = Vec::new(alloc);
    'pieces: while bytes.len() < n as usize {
        let room = (n as usize - bytes.len()).min(PIECE);
        let count = say_some(client, &mut bytes, room)?;
        if count == 0 {
            return Ok(bytes);
        }
    }
    Ok(bytes)
}

/// Takes the next bytes that a client has to say, at most as many as are moved at once, and answers how many.
fn say_some(client: &mut Client, bytes: &mut Vec<u8>, room: usize) -> Result<usize, OutOfMemory>
    requires room { room ≤ 1024 }
    ensures count { IfOk result (λ count. count ≡ min (length (bytes_of client.old.player.saying)) room) }
    ensures bytes { IfOk result (λ count. bytes.new.items ≡ bytes.old.items ++ take count (bytes_of client.old.player.saying)) }
    ensures client { IfOk result (λ count. client.new ≡ with_call client.old (Take count)) }
{
    let mut piece = [0; PIECE];
    say_into(client, &mut piece[..room], bytes)
}

/// Takes the next bytes that a client has to say, as many as the buffer holds, and answers how many.
fn say_into(
    client: &mut Client,
    piece: &mut [u8],
    bytes: &mut Vec<u8>,
) -> Result<usize, OutOfMemory>
    ensures count { IfOk result (λ count. count ≡ min (length (bytes_of client.old.player.saying)) (length piece.old)) }
    ensures bytes { IfOk result (λ count. bytes.new.items ≡ bytes.old.items ++ take count (bytes_of client.old.player.saying)) }
    ensures client { IfOk result (λ count. client.new ≡ with_call client.old (Take count)) }
{
    let count = client.take(piece);
    bytes.extend_from_slice(&piece[..count])?;
    Ok(count)
}
