//! A play: the lines of a script, done one after the other.
//!
//! Whether a line is refused is asked before it is done (`is_refused`), so the hub takes all that is put to it.
ghost use Rattle.std.specs.Prelude.{◌≡◌, ◌+◌, ◌≤◌, ℕ, Ok, [], false, fold, IfOk, OnOk};
ghost use Rattle.tt_lines.specs.Lines.{lines_of};
ghost use Rattle.tt_log.specs.Lines.{IsLine};
ghost use Rattle.tt_log.specs.Origin.{Origin};
ghost use Rattle.tt_log.specs.Saved.{IsSaved};
ghost use Rattle.tt_log.specs.Script.{line_in};
ghost use Rattle.tt_log.specs.Steps.{IsStep};
ghost use Rattle.tt_map.specs.Reading.{map_in};
ghost use Rattle.tt_world.specs.Setup.{Fits};
ghost use Rattle.tt_playing.specs.Begun.{origin_from, world_from, MayStart, IsScriptOf};
ghost use Rattle.tt_playing.specs.Played.{Played, nothing, one_refused, did, done};
ghost use Rattle.tt_playing.specs.Playing.{IsAt, PlayedTo, Stands, refused_by};

use crate::attached::{attach, forge, has_client, is_running, order, run};
use crate::bringing::{bring_down, bring_up, pump};
use crate::events::{feed, is_gone, open, run_ticks, shut, stop};
use crate::start::Start;
use std::alloc::Global;
use tt_client::Client;
use tt_edge::{Core, Door};
use tt_frame::{Name, OutOfMemory};
use tt_hub::Hub;
use tt_log::{Line1, ScriptBad, ScriptReader, Step};
use tt_map::{MapBad, decode_map};
use tt_world::{Setup, World};

/// A connection that the lines done so far have opened.
#[derive(Drop)]
pub struct Connection {
    /// Where it came in.
    pub door: Door,
    /// What of its stream is no whole packet yet.
    pub rest: Vec<u8>,
    /// The client that is attached to it, if one is.
    pub client: Option<Client>,
    /// What was handed to that client of all that the connection is sent, where that is kept.
    pub told: Vec<u8>,
}

/// What the lines done so far came to.
#[derive(Drop)]
pub struct Play {
    /// The hub, which has taken their events.
    pub hub: Hub,
    /// The revision that clients join with: that of the setup.
    pub revision: Name,
    /// The connections, in the order of their openings: that of number 1 stands first.
    pub connections: Vec<Connection>,
    /// How many lines were refused.
    pub refused: u32,
    /// Whether what was handed to clients is kept: a report has all that each connection is sent.
    pub keeps: bool,
}

/// Does the lines of a script in order, on a hub that is made for it from the script's start. They are read one after the
/// other, and none is kept.
pub fn play_script(
    alloc: Global,
    start: &Start,
    bytes: &[u8],
    keeps: bool,
) -> Result<Play, OutOfMemory>
    requires script { IsScriptOf start.now.setup start.now.saved.items (lines_of bytes.now) }
    ensures played { IfOk result (λ play. PlayedTo (lines_of bytes.now) play) }
    ensures keeps { IfOk result (λ play. play.keeps ≡ keeps) }
{
    let mut play = begun(alloc, start, keeps)?;
    let mut reader = ScriptReader::new(bytes);
    loop {
        match reader.next(alloc) {
            Ok(Some(step)) => {
                if let Err(_) = do_step(alloc, &mut play, step) {
                    return Err(OutOfMemory);
                }
            }
            Ok(None) => return Ok(play),
            Err(ScriptBad::Line(_)) => unreachable!(),
            Err(ScriptBad::Memory) => return Err(OutOfMemory),
        }
    }
}

/// A play of no lines yet.
pub fn begun(alloc: Global, start: &Start, keeps: bool) -> Result<Play, OutOfMemory>
    requires setup { Fits start.now.setup }
    requires saved { MayStart start.now.saved.items }
    ensures at { IfOk result (λ play. IsAt (origin_from start.now.setup start.now.saved.items) play nothing) }
    ensures keeps { IfOk result (λ play. play.keeps ≡ keeps) }
{
    Ok(Play {
        hub: hub_from(alloc, &start.setup, &start.saved)?,
        revision: start.setup.revision.copy(),
        connections: Vec::new(alloc),
        refused: 0,
        keeps,
    })
}

/// A hub that starts from the world that the bytes of a map tell, or, where there are none, from the setup.
fn hub_from(alloc: Global, setup: &Setup, saved: &[u8]) -> Result<Hub, OutOfMemory>
    requires setup { Fits setup.now }
    requires saved { MayStart saved.now }
    ensures start { IfOk result (λ hub. hub.start ≡ world_from setup.now saved.now) }
    ensures setup { IfOk result (λ hub. hub.setup ≡ setup.now) }
    ensures events { IfOk result (λ hub. hub.events ≡ []) }
    ensures counts { IfOk result (λ hub. hub.counts ≡ []) }
{
    if saved.is_empty() {
        return Hub::new(alloc, setup);
    }
    let world = saved_world(alloc, saved)?;
    match Hub::from_world(alloc, setup, world) {
        Ok(hub) => Ok(hub),
        Err(_) => Err(OutOfMemory),
    }
}

/// The world of a saved game.
fn saved_world(alloc: Global, saved: &[u8]) -> Result<World, OutOfMemory>
    requires { IsSaved saved.now }
    ensures world { IfOk result (λ world. map_in saved.now ≡ Ok world) }
    ensures day { IfOk result (λ world. world.day ≤ 900000000) }
{
    match decode_map(alloc, saved) {
        Ok(world) => Ok(world),
        Err(MapBad::Memory) => Err(OutOfMemory),
        Err(MapBad::Tag(_)) => unreachable!(),
        Err(MapBad::Version(_)) => unreachable!(),
        Err(MapBad::Chunk { .. }) => unreachable!(),
    }
}

/// Does one line, settings included. What a setting says and the map are in the start of the game already.
pub fn do_step(alloc: Global, play: &mut Play, step: Step) -> Result<(), OutOfMemory>
    requires stands { Stands play.old }
    requires step { IsStep step }
    ensures at { (o : Origin) (p : Played) → IsAt o play.old p → OnOk result (IsAt o play.new (fold (done o) p (line_in step))) }
    ensures keeps { play.new.keeps ≡ play.old.keeps }
{
    match step {
        Step::Set(_setting) => Ok(()),
        Step::Saved(_map) => Ok(()),
        Step::Line(line) => do_line(alloc, play, &line),
    }
}

/// Does one line, or counts it where it is refused. The line is one of the grammar. Behind want of memory nothing is known of
/// the play.
pub fn do_line(alloc: Global, play: &mut Play, line: &Line1) -> Result<(), OutOfMemory>
    requires stands { Stands play.old }
    requires line { IsLine line.now }
    ensures at { (o : Origin) (p : Played) → IsAt o play.old p → OnOk result (IsAt o play.new (done o p line.now)) }
    ensures keeps { play.new.keeps ≡ play.old.keeps }
{
    if is_refused(play, line) {
        refuse(play)
    } else {
        do_accepted(alloc, play, line)
    }
}

/// Whether a line is refused.
fn is_refused(play: &Play, line: &Line1) -> bool
    ensures refused { result ≡ refused_by play.now line.now }
{
    match line {
        Line1::Open | Line1::Side | Line1::Tick(_) | Line1::Stop => play.hub.over(),
        Line1::Join(_, _, _, _) => play.hub.over(),
        Line1::Bytes(conn, _) | Line1::Shut(conn) => is_gone(&play.hub, *conn),
        Line1::Up(conn, _) => is_gone(&play.hub, *conn) || !has_client(play, *conn),
        Line1::Down(conn, _) | Line1::Run(conn, _) => !has_client(play, *conn),
        Line1::Pump(conn) | Line1::Forge(conn, _) => !has_client(play, *conn),
        Line1::Do(conn, _) => !is_running(play, *conn),
        Line1::Expect(_) => false,
    }
}

/// Counts a line that is refused. More than can be told are answered by want of memory.
fn refuse(play: &mut Play) -> Result<(), OutOfMemory>
    ensures at { (o : Origin) (p : Played) → IsAt o play.old p → OnOk result (IsAt o play.new (one_refused p)) }
    ensures keeps { play.new.keeps ≡ play.old.keeps }
{
    play.refused = next_number(play.refused)?;
    Ok(())
}

/// The next number. More than can be counted in 32 bits are answered by want of memory.
pub fn next_number(number: u32) -> Result<u32, OutOfMemory>
    ensures next { IfOk result (λ next. next ≡ number + 1) }
{
    number.checked_add(1).ok_or(OutOfMemory)
}

/// Does a line that isn't refused.
fn do_accepted(alloc: Global, play: &mut Play, line: &Line1) -> Result<(), OutOfMemory>
    requires stands { Stands play.old }
    requires line { IsLine line.now }
    requires accepted { refused_by play.old line.now ≡ false }
    ensures at { (o : Origin) (p : Played) → IsAt o play.old p → OnOk result (IsAt o play.new (did o p line.now)) }
    ensures keeps { play.new.keeps ≡ play.old.keeps }
{
    match line {
        Line1::Open => open(alloc, play, Door::Main),
        Line1::Side => open(alloc, play, Door::Side),
        Line1::Bytes(conn, piece) => feed(alloc, play, *conn, piece.bytes()),
        Line1::Shut(conn) => shut(play, *conn),
        Line1::Tick(n) => run_ticks(play, *n),
        Line1::Stop => stop(play),
        Line1::Join(name, company, password, own) => {
            attach(alloc, play, name, *company, password, own)
        }
        Line1::Up(conn, n) => bring_up(alloc, play, *conn, *n),
        Line1::Down(conn, n) => bring_down(alloc, play, *conn, *n),
        Line1::Run(conn, n) => run(play, *conn, *n),
        Line1::Pump(conn) => pump(alloc, play, *conn),
        Line1::Do(conn, command) => order(play, *conn, command),
        Line1::Forge(conn, bytes) => forge(play, *conn, bytes.bytes()),
        Line1::Expect(_) => Ok(()),
    }
}
