//! The lines of attached clients that concern the client alone, and what is known of a connection's client.
ghost use Rattle.std.specs.Prelude.{◌≡◌, ◌+◌, ◌<◌, true, false, length, OnOk, is_some, option_copied};
ghost use Rattle.tt_client.specs.Calls.{Advance, Feed};
ghost use Rattle.tt_hub.specs.Hub.{origin};
ghost use Rattle.tt_log.specs.Lines.{IsLine};
ghost use Rattle.tt_log.specs.Origin.{Origin};
ghost use Rattle.tt_log.specs.declared.script.line.Line1.TheVariants.{Join};
ghost use Rattle.tt_playing.specs.Attached.{after_call, after_order, called, login_of, misled, ordered, runs_with};
ghost use Rattle.tt_playing.specs.Played.{Played, is_over, joined, on_client};
ghost use Rattle.tt_playing.specs.Playing.{IsAt, client_at};

use crate::events::put_opening;
use crate::play::{Connection, Play};
use std::alloc::Global;
use tt_client::{Client, Login, State, SubmitErr};
use tt_edge::Door;
use tt_frame::{Line, Name, OutOfMemory};
use tt_world::Command;

/// The version of its NewGRF files that every client of a script joins with.
const GRF: u32 = 13;

/// The client of a connection, if one is attached to it.
pub fn client_of(play: &Play, conn: u32) -> Option<&Client>
    ensures client { option_copied result ≡ client_at play.now conn }
{
    if conn == 0 || conn as usize > play.connections.len() {
        return None;
    }
    play.connections[conn as usize - 1].client.as_ref()
}

/// Whether a client is attached to a connection.
pub(crate) fn has_client(play: &Play, conn: u32) -> bool
    ensures client { result ≡ is_some (client_at play.now conn) }
{
    client_of(play, conn).is_some()
}

/// Whether a client is attached to a connection, and runs.
pub(crate) fn is_running(play: &Play, conn: u32) -> bool
    ensures running { result ≡ runs_with (client_at play.now conn) }
{
    match client_of(play, conn) {
        None => false,
        Some(client) => matches!(client.state(), State::Running),
    }
}

/// The place of a connection with a client, from 0 on.
pub(crate) fn place_with(play: &Play, conn: u32) -> usize
    requires client { is_some (client_at play.now conn) ≡ true }
    ensures place { result + 1 ≡ conn }
    ensures within { result < length play.now.connections.items }
{
    (conn - 1) as usize
}

/// A connection is opened at the main door, and a client is attached to it, of a game that is not over.
pub(crate) fn attach(
    alloc: Global,
    play: &mut Play,
    name: &Name,
    company: u8,
    password: &Line,
    own: &Line,
) -> Result<(), OutOfMemory>
    requires going { is_over (origin play.old.hub) play.old.hub.events ≡ false }
    requires line { IsLine (Join name.now company password.now own.now) }
    ensures at { (o : Origin) (p : Played) → IsAt o play.old p
        → OnOk result (IsAt o play.new (joined (login_of o.setup name.now company password.now own.now) p)) }
    ensures keeps { play.new.keeps ≡ play.old.keeps }
{
    let login = Login {
        revision: play.revision.copy(),
        grf: GRF,
        name: name.copy(),
        company,
        password: password.copy(),
        company_password: own.copy(),
    };
    let client = Client::new(alloc, &login)?;
    put_opening(&mut play.hub, Door::Main)?;
    play.connections.push(Connection {
        door: Door::Main,
        rest: Vec::new(alloc),
        client: Some(client),
        told: Vec::new(alloc),
    })?;
    Ok(())
}

/// The client may run so many frames.
pub(crate) fn run(play: &mut Play, conn: u32, n: u32) -> Result<(), OutOfMemory>
    requires client { is_some (client_at play.old conn) ≡ true }
    ensures at { (o : Origin) (p : Played) → IsAt o play.old p → OnOk result (IsAt o play.new (on_client conn (called (Advance n)) p)) }
    ensures keeps { play.new.keeps ≡ play.old.keeps }
{
    let place = place_with(play, conn);
    advance(&mut play.connections[place].client, n);
    Ok(())
}

/// A client may run so many frames.
fn advance(client: &mut Option<Client>, n: u32)
    ensures client { client.new ≡ after_call (Advance n) client.old }
{
    if let Some(client) = client {
        let _ = client.advance(n);
    }
}

/// A command of a client that runs, for its own company.
pub(crate) fn order(play: &mut Play, conn: u32, command: &Command) -> Result<(), OutOfMemory>
    requires running { runs_with (client_at play.old conn) ≡ true }
    ensures at { (o : Origin) (p : Played) → IsAt o play.old p → OnOk result (IsAt o play.new (on_client conn (ordered command.now) p)) }
    ensures keeps { play.new.keeps ≡ play.old.keeps }
{
    let place = place_with(play, conn);
    submit(&mut play.connections[place].client, command)?;
    Ok(())
}

/// A command of a client that runs, for its own company.
fn submit(client: &mut Option<Client>, command: &Command) -> Result<(), OutOfMemory>
    requires running { runs_with client.old ≡ true }
    ensures client { OnOk result (client.new ≡ after_order command.now client.old) }
{
    let Some(client) = client else {
        return Ok(());
    };
    match client.submit(client.company(), copy_of(command)) {
        Ok(()) => Ok(()),
        Err(SubmitErr::Memory) => Err(OutOfMemory),
        Err(SubmitErr::NotRunning) => unreachable!(),
    }
}

/// The same command once more.
fn copy_of(command: &Command) -> Command
    ensures same { result ≡ command.now }
{
    Command {
        code: command.code,
        number: command.number,
        to: command.to,
        text: command.text.copy(),
    }
}

/// Bytes come to the client that are not of its stream.
pub(crate) fn forge(play: &mut Play, conn: u32, bytes: &[u8]) -> Result<(), OutOfMemory>
    requires client { is_some (client_at play.old conn) ≡ true }
    ensures at { (o : Origin) (p : Played) → IsAt o play.old p → OnOk result (IsAt o play.new (on_client conn (misled bytes.now) p)) }
    ensures keeps { play.new.keeps ≡ play.old.keeps }
{
    let place = place_with(play, conn);
    feed_client(&mut play.connections[place].client, bytes)?;
    Ok(())
}

/// A piece is fed to a client.
pub(crate) fn feed_client(client: &mut Option<Client>, piece: &[u8]) -> Result<(), OutOfMemory>
    ensures client { OnOk result (client.new ≡ after_call (Feed piece.now) client.old) }
{
    match client {
        None => Ok(()),
        Some(client) => client.feed(piece),
    }
}
