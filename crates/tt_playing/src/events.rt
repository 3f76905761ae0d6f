//! The lines that are events of the game: openings, pieces of a stream, ends, ticks and the stop.
ghost use Rattle.std.specs.Prelude.{◌≡◌, ◌+◌, ◌<◌, ◌≤◌, ℕ, [], ◌∷◌, ◌++◌, true, false, length, drop, replicate};
ghost use Rattle.std.specs.Prelude.{IfOk, OnOk, OnErr};
ghost use Rattle.tt_frame.specs.Packet.{IsBytes};
ghost use Rattle.tt_frame.specs.Stream.{rest_of};
ghost use Rattle.tt_frame.specs.StreamReading.{reading};
ghost use Rattle.tt_edge.specs.Event.{opens};
ghost use Rattle.tt_hub.specs.Hub.{origin, taken};
ghost use Rattle.tt_log.specs.Events.{takes};
ghost use Rattle.tt_log.specs.History.{table_of};
ghost use Rattle.tt_log.specs.Origin.{Origin};
ghost use Rattle.tt_playing.specs.Played.{Played, reader_limit, is_gone, is_live, is_over, stream_events, until_ended, until_over};
ghost use Rattle.tt_playing.specs.Played.{nobody, opened, with_event, with_piece, with_ticks};
ghost use Rattle.tt_playing.specs.Playing.{IsAt, Stands};

use crate::play::{Connection, Play};
use std::alloc::Global;
use tt_edge::{Body, Core, CoreErr, Door, Event, Peer};
use tt_frame::{Next, OutOfMemory, first_of};
use tt_hub::Hub;

/// The largest packet that is read.
const READER_LIMIT: u16 = 32_767;

/// Where every opening of a script comes from.
const NOBODY: Peer = Peer {
    host: [0; 4],
    port: 0,
};

/// Whether the game is over, or a connection isn't live.
pub(crate) fn is_gone(hub: &Hub, conn: u32) -> bool
    ensures gone { result ≡ is_gone (origin hub.now) hub.now.events conn }
{
    hub.over() || !hub.live(conn)
}

/// An opening, of a game that is not over.
pub(crate) fn open(alloc: Global, play: &mut Play, door: Door) -> Result<(), OutOfMemory>
    requires going { is_over (origin play.old.hub) play.old.hub.events ≡ false }
    ensures at { (o : Origin) (p : Played) → IsAt o play.old p → OnOk result (IsAt o play.new (opened door p)) }
    ensures keeps { play.new.keeps ≡ play.old.keeps }
{
    put_opening(&mut play.hub, door)?;
    play.connections.push(Connection {
        door,
        rest: Vec::new(alloc),
        client: None,
        told: Vec::new(alloc),
    })?;
    Ok(())
}

/// An opening is put to the hub of a game that is not over.
pub(crate) fn put_opening(hub: &mut Hub, door: Door) -> Result<(), OutOfMemory>
    requires going { is_over (origin hub.old) hub.old.events ≡ false }
    ensures events { OnOk result (hub.new.events ≡ hub.old.events ++ Event.Open door nobody ∷ []) }
    ensures origin { origin hub.new ≡ origin hub.old }
    ensures taken { (conn : ℕ) → taken hub.new conn ≡ taken hub.old conn }
{
    put(hub, Event::Open { door, peer: NOBODY })
}

/// A connection that is live is closed.
pub(crate) fn shut(play: &mut Play, conn: u32) -> Result<(), OutOfMemory>
    requires going { is_over (origin play.old.hub) play.old.hub.events ≡ false }
    requires live { is_live (origin play.old.hub) play.old.hub.events conn ≡ true }
    ensures at { (o : Origin) (p : Played) → IsAt o play.old p → OnOk result (IsAt o play.new (with_event (Event.Shut conn) p)) }
    ensures keeps { play.new.keeps ≡ play.old.keeps }
{
    put(&mut play.hub, Event::Shut { conn })?;
    Ok(())
}

/// A game that is not over is stopped.
pub(crate) fn stop(play: &mut Play) -> Result<(), OutOfMemory>
    requires going { is_over (origin play.old.hub) play.old.hub.events ≡ false }
    ensures at { (o : Origin) (p : Played) → IsAt o play.old p → OnOk result (IsAt o play.new (with_event Event.Stop p)) }
    ensures keeps { play.new.keeps ≡ play.old.keeps }
{
    put(&mut play.hub, Event::Stop)?;
    Ok(())
}

/// So many ticks, until the game is over.
pub(crate) fn run_ticks(play: &mut Play, n: u32) -> Result<(), OutOfMemory>
    ensures at { (o : Origin) (p : Played) → IsAt o play.old p → OnOk result (IsAt o play.new (with_ticks o n p)) }
    ensures keeps { play.new.keeps ≡ play.old.keeps }
{
    put_ticks(&mut play.hub, n)?;
    Ok(())
}

/// So many ticks, until the game is over.
fn put_ticks(hub: &mut Hub, n: u32) -> Result<(), OutOfMemory>
    ensures events { OnOk result (hub.new.events ≡ until_over (origin hub.old) hub.old.events (replicate n Event.Tick)) }
    ensures origin { origin hub.new ≡ origin hub.old }
    ensures taken { (conn : ℕ) → taken hub.new conn ≡ taken hub.old conn }
{
    let mut left = n;
    'ticks: while left > 0 && !hub.over() {
        put(hub, Event::Tick)?;
        left -= 1;
    }
    Ok(())
}

/// Feeds a piece to a connection that is live.
pub(crate) fn feed(
    alloc: Global,
    play: &mut Play,
    conn: u32,
    piece: &[u8],
) -> Result<(), OutOfMemory>
    requires live { is_live (origin play.old.hub) play.old.hub.events conn ≡ true }
    requires stands { Stands play.old }
    ensures at { (o : Origin) (p : Played) → IsAt o play.old p → OnOk result (IsAt o play.new (with_piece o conn piece.now p)) }
    ensures keeps { play.new.keeps ≡ play.old.keeps }
{
    let place = place_of(&play.hub, conn);
    feed_rest(
        alloc,
        &mut play.hub,
        &mut play.connections[place].rest,
        conn,
        piece,
    )?;
    Ok(())
}

/// The place of a connection that is live, from 0 on.
fn place_of(hub: &Hub, conn: u32) -> usize
    requires live { is_live (origin hub.now) hub.now.events conn ≡ true }
    ensures place { result + 1 ≡ conn }
    ensures within { result < opens hub.now.events }
{
    (conn - 1) as usize
}

/// Feeds a piece to a connection that is live, behind the rest of its stream, which becomes the new rest. It costs what the
/// piece does: a rest that no packet ends in is not moved, and another one is a part of the piece.
fn feed_rest(
    alloc: Global,
    hub: &mut Hub,
    rest: &mut Vec<u8>,
    conn: u32,
    piece: &[u8],
) -> Result<(), OutOfMemory>
    requires live { is_live (origin hub.old) hub.old.events conn ≡ true }
    ensures events { OnOk result (hub.new.events
        ≡ until_ended (origin hub.old) conn hub.old.events (stream_events conn (rest.old.items ++ piece.now))) }
    ensures rest { OnOk result (is_live (origin hub.old) hub.new.events conn ≡ true
        → (reading reader_limit (rest.old.items ++ piece.now)).1 ≡ rest_of rest.new.items) }
    ensures kept { IsBytes rest.old.items → OnOk result (IsBytes rest.new.items) }
    ensures origin { origin hub.new ≡ origin hub.old }
    ensures taken { (conn : ℕ) → taken hub.new conn ≡ taken hub.old conn }
{
    rest.extend_from_slice(piece)?;
    let end = take_packets(alloc, hub, conn, rest)?;
    if end > 0 {
        *rest = Vec::from_slice(alloc, &rest[end..])?;
    }
    Ok(())
}

/// Hands over the packets of the bytes until the connection has ended, and answers where they end.
fn take_packets(alloc: Global, hub: &mut Hub, conn: u32, bytes: &[u8]) -> Result<usize, OutOfMemory>
    requires live { is_live (origin hub.old) hub.old.events conn ≡ true }
    ensures events { OnOk result (hub.new.events ≡ until_ended (origin hub.old) conn hub.old.events (stream_events conn bytes.now)) }
    ensures rest { IfOk result (λ end. is_live (origin hub.old) hub.new.events conn ≡ true
        → (reading reader_limit bytes.now).1 ≡ rest_of (drop end bytes.now)) }
    ensures within { IfOk result (λ end. end ≤ length bytes.now) }
    ensures origin { origin hub.new ≡ origin hub.old }
    ensures taken { (conn : ℕ) → taken hub.new conn ≡ taken hub.old conn }
{
    let mut end = 0;
    'packets: while hub.live(conn) {
        match first_of(&bytes[end..], READER_LIMIT) {
            Next::Packet { kind, body } => {
                put_packet(alloc, hub, conn, kind, body)?;
                end += body.len() + 3;
            }
            Next::Partial => return Ok(end),
            Next::BadSize(_) => {
                put_broken(hub, conn)?;
                return Ok(end);
            }
        }
    }
    Ok(end)
}

/// A packet of a connection that is live.
fn put_packet(
    alloc: Global,
    hub: &mut Hub,
    conn: u32,
    kind: u8,
    body: &[u8],
) -> Result<(), OutOfMemory>
    requires live { is_live (origin hub.old) hub.old.events conn ≡ true }
    requires length { length body.now ≤ 32764 }
    ensures events { OnOk result (hub.new.events ≡ hub.old.events ++ Event.Packet conn kind body.now ∷ []) }
    ensures origin { origin hub.new ≡ origin hub.old }
    ensures taken { (conn : ℕ) → taken hub.new conn ≡ taken hub.old conn }
{
    let body = Body::new(alloc, body)?;
    put(hub, Event::Packet { conn, kind, body })
}

/// A bad size in the stream of a connection that is live.
fn put_broken(hub: &mut Hub, conn: u32) -> Result<(), OutOfMemory>
    requires live { is_live (origin hub.old) hub.old.events conn ≡ true }
    ensures events { OnOk result (hub.new.events ≡ hub.old.events ++ Event.Broken conn ∷ []) }
    ensures origin { origin hub.new ≡ origin hub.old }
    ensures taken { (conn : ℕ) → taken hub.new conn ≡ taken hub.old conn }
    ensures ended { OnOk result (is_live (origin hub.old) hub.new.events conn ≡ false) }
{
    put(hub, Event::Broken { conn })?;
    Ok(())
}

/// One event that the hub takes now, unless memory runs out.
fn put(hub: &mut Hub, event: Event) -> Result<(), OutOfMemory>
    requires takes { takes (table_of (origin hub.old) hub.old.events) event ≡ true }
    ensures ok { OnOk result (hub.new.events ≡ hub.old.events ++ event ∷ []) }
    ensures err { OnErr result (hub.new.events ≡ hub.old.events) }
    ensures origin { origin hub.new ≡ origin hub.old }
    ensures taken { (conn : ℕ) → taken hub.new conn ≡ taken hub.old conn }
{
    match hub.event(event) {
        Ok(_) => Ok(()),
        Err(CoreErr::Memory) => Err(OutOfMemory),
        Err(CoreErr::Over | CoreErr::NoSuch) => unreachable!(),
    }
}
