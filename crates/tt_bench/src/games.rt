//! Whole games on a hub without a room: members that play and acknowledge what they are told, and downloads of a map.
//!
//! `party_of` makes a game in which so many members play; `behind_commands` and `with_signs` make one of four members with a past.
//! `gone_on` lets it run on: by ticks, where each member takes what it is told, so that nothing piles up, and acknowledges the
//! frame; or by clients that join one after the other, each for the map alone.
ghost use Rattle.std.specs.Prelude.{◌≤◌, length};

use std::alloc::Global;
use tt_edge::{Body, Core, CoreErr, Door, Event, Peer};
use tt_frame::OutOfMemory;
use tt_hub::Hub;
use tt_world::Setup;

/// Where all connections come from.
const PEER: Peer = Peer {
    host: [127, 0, 0, 1],
    port: 3979,
};

/// The numbers of the messages that a client says here.
const JOIN: u8 = 2;

const GET_MAP: u8 = 13;

const MAP_OK: u8 = 19;

const ACK: u8 = 23;

const COMMAND: u8 = 24;

/// The number of the message that permits frames.
const FRAME: u8 = 21;

/// What tells that a map is whole.
const MAP_DONE: [u8; 3] = [3, 0, 18];

/// In a JOIN: a company that is to be founded, and none.
const NEW_COMPANY: u8 = 254;

const NO_COMPANY: u8 = 255;

/// One is told fewer bytes between two takings.
const ROOM: usize = 16_384;

/// A map comes in fewer ticks.
const MOST_FETCHING: u32 = 64;

/// The company 0 takes a loan of 10,000; it is refused once the loan is the greatest one.
const LOAN: &[u8] = b"\0\0\0\x10\x27\0\0\0\0";

/// The company 0 places a sign on the tile 1,000.
const SIGN: &[u8] = b"\0\x03\0\xe8\x03\0\0\0The four lorries of a coal mine\0";

/// A game, room for what a member is told, and how many members play. Their connections are 1, 2, 3 and so on.
#[derive(Drop)]
pub struct Party {
    hub: Hub,
    room: Vec<u8>,
    playing: u32,
}

/// How a game goes on.
#[derive(Clone, Copy)]
pub enum Course {
    /// By so many ticks.
    Ticks(u32),
    /// By so many clients that join for the map; nobody plays.
    Downloads(u32),
}

/// Lets a game go on; answers how often a member acknowledged a frame, or how many clients got the map whole.
pub fn gone_on(alloc: Global, party: &mut Party, course: Course) -> Result<u64, CoreErr> {
    match course {
        Course::Ticks(count) => acknowledged(alloc, party, count),
        Course::Downloads(count) => downloads(alloc, party, count),
    }
}

/// A game in which so many members play. The first one has founded the company for which all of them play.
pub fn party_of(alloc: Global, members: u8) -> Result<Party, CoreErr> {
    let mut setup = Setup::plain();
    setup.max_clients = u8::MAX;
    let mut party = Party {
        hub: Hub::new(alloc, &setup)?,
        room: bytes_of_room(alloc)?,
        playing: 0,
    };
    for number in 1..=members {
        admit(alloc, &mut party, number)?;
    }
    Ok(party)
}

/// A game of four members that have given 10,000 commands.
pub fn behind_commands(alloc: Global) -> Result<Party, CoreErr> {
    let mut party = party_of(alloc, 4)?;
    ordered(alloc, &mut party, 1_250, LOAN)?;
    Ok(party)
}

/// A game of four members that have placed 1,000 signs, which is as many as there may be.
pub fn with_signs(alloc: Global) -> Result<Party, CoreErr> {
    let mut party = party_of(alloc, 4)?;
    ordered(alloc, &mut party, 125, SIGN)?;
    Ok(party)
}

/// Room for what one is told.
fn bytes_of_room(alloc: Global) -> Result<Vec<u8>, OutOfMemory> {
    Ok(vec![in alloc; 0; ROOM]?)
}

/// A further member: it joins, downloads the map and plays.
fn admit(alloc: Global, party: &mut Party, number: u8) -> Result<(), CoreErr> {
    let company = if number == 1 { NEW_COMPANY } else { 0 };
    let conn = joined(alloc, &mut party.hub, number, company)?;
    let _whole = fetched(&mut party.hub, conn, &mut party.room)?;
    say(alloc, &mut party.hub, conn, MAP_OK, &[])?;
    hear(alloc, party, conn)?;
    party.playing = conn;
    round(alloc, party)?;
    Ok(())
}

/// Each member gives a command twice in each of so many rounds; so many of one are done in a frame.
fn ordered(alloc: Global, party: &mut Party, rounds: u32, command: &[u8]) -> Result<(), CoreErr>
    requires short { length command.now ≤ 32764 }
{
    for _ in 0..rounds {
        order(alloc, party, command)?;
        round(alloc, party)?;
    }
    Ok(())
}

/// Each member gives a command twice.
fn order(alloc: Global, party: &mut Party, command: &[u8]) -> Result<(), CoreErr>
    requires short { length command.now ≤ 32764 }
{
    for conn in 1..=party.playing {
        say(alloc, &mut party.hub, conn, COMMAND, command)?;
        say(alloc, &mut party.hub, conn, COMMAND, command)?;
    }
    Ok(())
}

/// Runs a game on by so many ticks; answers how often a member acknowledged a frame.
fn acknowledged(alloc: Global, party: &mut Party, ticks: u32) -> Result<u64, CoreErr> {
    let mut count = 0u64;
    for _ in 0..ticks {
        count = count.saturating_add(round(alloc, party)?);
    }
    Ok(count)
}

/// A tick, which each member hears; answers how many acknowledged it.
fn round(alloc: Global, party: &mut Party) -> Result<u64, CoreErr> {
    party.hub.event(Event::Tick)?;
    let mut count = 0u64;
    for conn in 1..=party.playing {
        count = count.saturating_add(hear(alloc, party, conn)?);
    }
    Ok(count)
}

/// A member takes what it is told, and acknowledges the frame that it may come to; answers 1 where there is one.
fn hear(alloc: Global, party: &mut Party, conn: u32) -> Result<u64, CoreErr> {
    let took = party.hub.take(conn, &mut party.room);
    match answer_to(&party.room[..took.count]) {
        None => Ok(0),
        Some(answer) => {
            say(alloc, &mut party.hub, conn, ACK, &answer)?;
            Ok(1)
        }
    }
}

/// The acknowledgement of the last FRAME among whole packets, with the token that one of them has told.
fn answer_to(told: &[u8]) -> Option<[u8; 5]> {
    let mut rest = told;
    let mut answer = None;
    let mut open = 0;
    for _ in 0..told.len() {
        let Some((packet, behind)) = first_packet(rest) else {
            break;
        };
        if packet.len() == 12 && packet[2] == FRAME {
            open = if packet[11] == 0 { open } else { packet[11] };
            answer = Some([packet[3], packet[4], packet[5], packet[6], open]);
        }
        rest = behind;
    }
    answer
}

/// The first packet, and what stands behind it; none where there is no whole one.
fn first_packet(told: &[u8]) -> Option<(&[u8], &[u8])> {
    if told.len() < 3 {
        return None;
    }
    let size = usize::from(u16::from_le_bytes([told[0], told[1]]));
    if size < 3 || size > told.len() {
        return None;
    }
    Some(told.split_at(size))
}

/// A game with 1,000 signs that all its members have left.
pub fn left_with_signs(alloc: Global) -> Result<Party, CoreErr> {
    let mut party = with_signs(alloc)?;
    leave(&mut party)?;
    Ok(party)
}

/// All members leave.
fn leave(party: &mut Party) -> Result<(), CoreErr> {
    for conn in 1..=party.playing {
        party.hub.event(Event::Shut { conn })?;
    }
    party.playing = 0;
    Ok(())
}

/// Lets so many clients join a game in which nobody plays, one after the other, each for its map; answers how many got it whole.
fn downloads(alloc: Global, party: &mut Party, count: u32) -> Result<u64, CoreErr> {
    let mut whole = 0u64;
    for _ in 0..count {
        whole = whole.saturating_add(download(alloc, &mut party.hub, &mut party.room)?);
    }
    Ok(whole)
}

/// A client joins, downloads the map, loads it and is gone; answers 1 where the map came whole.
fn download(alloc: Global, hub: &mut Hub, room: &mut [u8]) -> Result<u64, CoreErr> {
    let conn = joined(alloc, hub, 1, NO_COMPANY)?;
    let whole = fetched(hub, conn, room)?;
    say(alloc, hub, conn, MAP_OK, &[])?;
    hub.event(Event::Shut { conn })?;
    Ok(u64::from(whole))
}

/// A client joins and asks for the map; answers its connection.
fn joined(alloc: Global, hub: &mut Hub, number: u8, company: u8) -> Result<u32, CoreErr> {
    let opening = Event::Open {
        door: Door::Main,
        peer: PEER,
    };
    let conn = hub.event(opening)?;
    say(alloc, hub, conn, JOIN, &join_of(number, company))?;
    say(alloc, hub, conn, GET_MAP, &[])?;
    Ok(conn)
}

/// Time goes on until a client was told the whole map, all of which it takes; answers whether it was.
fn fetched(hub: &mut Hub, conn: u32, room: &mut [u8]) -> Result<bool, CoreErr> {
    for _ in 0..MOST_FETCHING {
        hub.event(Event::Tick)?;
        let took = hub.take(conn, room);
        if room[..took.count].ends_with(&MAP_DONE) {
            return Ok(true);
        }
    }
    Ok(false)
}

/// The body of the JOIN of a client whose name is its number, for a company.
fn join_of(number: u8, company: u8) -> [u8; 14] {
    let hundreds = b'0' + number / 100;
    let tens = b'0' + number / 10 % 10;
    let units = b'0' + number % 10;
    [
        b'1', b'3', b'.', b'4', 0, 13, 0, 0, 0, hundreds, tens, units, 0, company,
    ]
}

/// A client says a message.
fn say(alloc: Global, hub: &mut Hub, conn: u32, kind: u8, body: &[u8]) -> Result<(), CoreErr>
    requires short { length body.now ≤ 32764 }
{
    let body = Body::new(alloc, body)?;
    hub.event(Event::Packet { conn, kind, body })?;
    Ok(())
}
