//! A game of one company, as a bare world that runs it and as the bytes that a server tells of it.
use crate::fault::Reached;
use std::alloc::Global;
use tt_frame::{OutOfMemory, Short};
use tt_game::{GameMsg, MapPiece};
use tt_map::encode_map;
use tt_rules::number_of;
use tt_world::{Code, Command, Entry, Setup, World};

/// Each so many frames the company asks for a greater loan.
const LOAN_FREQ: u32 = 10;

/// Each so many frames the random word is told.
const SYNC_FREQ: u32 = 100;

/// Runs so many frames with their entries on a bare world.
pub fn bare(alloc: Global, count: u32) -> Result<Reached, OutOfMemory> {
    let mut world = World::start(alloc, &Setup::plain())?;
    for frame in 1..=count {
        run(&mut world, frame);
    }
    Ok(Reached {
        frame: count,
        word: word_of(&world),
    })
}

/// All that a server tells a client that joins at the start, up to a frame.
pub fn stream(alloc: Global, count: u32) -> Result<Vec<u8>, OutOfMemory> {
    let mut world = World::start(alloc, &Setup::plain())?;
    let mut out = Vec::new(alloc);
    put_join(alloc, &mut out, &world)?;
    for frame in 1..=count {
        put_frame(&mut out, &mut world, frame)?;
    }
    Ok(out)
}

/// All that a server tells a client that joins at the start of a game in which nobody does anything: the words of so many
/// frames, the last frame first, and only then that clients may run them. A client has to keep them all, and finds each at the
/// end of those that it keeps. And where it comes to.
pub fn words_backward(alloc: Global, count: u32) -> Result<(Vec<u8>, Reached), OutOfMemory> {
    let mut world = World::start(alloc, &Setup::plain())?;
    let mut out = Vec::new(alloc);
    put_join(alloc, &mut out, &world)?;
    let mut words = Vec::new(alloc);
    for frame in 1..=count {
        world.run_frame();
        words.push((frame, word_of(&world)))?;
    }
    for (frame, word) in words.iter().rev() {
        GameMsg::ServerSync {
            frame: *frame,
            word: *word,
        }
        .encode(&mut out)?;
    }
    GameMsg::ServerFrame {
        frame: 0,
        max: count,
        token: 0,
    }
    .encode(&mut out)?;
    let word = word_of(&world);
    Ok((out, Reached { frame: count, word }))
}

/// The first random word of a world.
pub fn word_of(world: &World) -> u32 {
    world.random().words().0
}

/// The entry of a frame: the server founds company 0, which then asks for greater loans; the last ones are refused.
fn entry_of(frame: u32) -> Option<Entry> {
    let (company, code) = if frame == 1 {
        (255, Code::NewCompany)
    } else if frame % LOAN_FREQ == 0 {
        (0, Code::IncreaseLoan)
    } else {
        return None;
    };
    let command = Command {
        code,
        number: 10_000,
        to: 0,
        text: Short::new(b"")?,
    };
    Some(Entry {
        frame,
        sender: 1,
        company,
        command,
    })
}

/// Runs a frame, with its entry before it.
fn run(world: &mut World, frame: u32) {
    if let Some(entry) = entry_of(frame) {
        world.apply(&entry);
    }
    world.run_frame();
}

/// The welcome, and the map of a world of frame 0, which is one piece.
fn put_join(alloc: Global, out: &mut Vec<u8>, world: &World) -> Result<(), OutOfMemory> {
    let map = encode_map(alloc, world)?;
    if let Some(id) = Short::new(b"tt") {
        GameMsg::ServerWelcome {
            client: 2,
            seed: 0,
            id,
        }
        .encode(out)?;
    }
    GameMsg::ServerMapBegin { frame: 0 }.encode(out)?;
    GameMsg::ServerMapSize {
        size: map.len() as u32,
    }
    .encode(out)?;
    if let Some(rest) = MapPiece::new(alloc, map.as_slice())? {
        GameMsg::ServerMapData { rest }.encode(out)?;
    }
    GameMsg::ServerMapDone.encode(out)
}

/// The entry of a frame, that clients may run it, and at some frames the word behind it.
fn put_frame(out: &mut Vec<u8>, world: &mut World, frame: u32) -> Result<(), OutOfMemory> {
    if let Some(entry) = entry_of(frame) {
        command_of(&entry).encode(out)?;
    }
    GameMsg::ServerFrame {
        frame,
        max: frame,
        token: 0,
    }
    .encode(out)?;
    run(world, frame);
    if frame % SYNC_FREQ == 0 {
        let word = word_of(world);
        GameMsg::ServerSync { frame, word }.encode(out)?;
    }
    Ok(())
}

/// An entry as clients are told it.
fn command_of(entry: &Entry) -> GameMsg {
    GameMsg::ServerCommand {
        company: entry.company,
        code: number_of(entry.command.code),
        number: entry.command.number,
        to: entry.command.to,
        text: entry.command.text.copy(),
        frame: entry.frame,
        sender: entry.sender,
    }
}
