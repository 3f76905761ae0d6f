//! Each message of a game in each status of the member that says it: what it asks for is done, or the member ends with its code.
use std::alloc::Global;
use std::process::Abort;
use std::test::*;
use tt_edge::{Body, Core, CoreErr, Door, Event, Peer, drain};
use tt_frame::Line;
use tt_hub::Hub;
use tt_world::Setup;

/// Where the tests' connections come from.
const PEER: Peer = Peer {
    host: [127, 0, 0, 1],
    port: 3979,
};

/// Puts an event in, and compares the answer.
fn put<R: Abort>(rt: &R, hub: &mut Hub, event: Event, wanted: Result<u32, CoreErr>) {
    let at = hub.frame();
    let found = hub.event(event);
    assert_eq!(rt; (at, found), (at, wanted));
}

/// All that a connection was told and has not taken.
fn taken<R: Abort>(rt: &R, alloc: Global, hub: &mut Hub, conn: u32) -> Vec<u8> {
    match drain(alloc, hub, conn) {
        Ok(bytes) => bytes,
        Err(_) => panic!(rt; "memory ran out"),
    }
}

/// How far a member has come.
#[derive(Clone, Copy, Debug, PartialEq, Eq)]
enum Status {
    Inactive,
    AuthGame,
    AuthCompany,
    Authorized,
    MapWait,
    Map,
    DoneMap,
    PreActive,
    Active,
}

/// What becomes of the member that says a message.
#[derive(Clone, Copy, Debug, PartialEq, Eq)]
enum Fate {
    /// It stays.
    Stays,
    /// It ends, and is told nothing.
    Leaves,
    /// It is told ERROR with this code, and ends.
    Ends(u8),
}

const ALL: [Status; 9] = [
    Status::Inactive,
    Status::AuthGame,
    Status::AuthCompany,
    Status::Authorized,
    Status::MapWait,
    Status::Map,
    Status::DoneMap,
    Status::PreActive,
    Status::Active,
];

/// A digest of no password of these games, and the one that a company has.
const DIGEST: &[u8] = b"0123456789abcdef0123456789abcdef\0";

/// A body of each message, by its number. An acknowledgement is of the frame 1, to which a member has come that plays alone, and
/// gives no token back; a command is a spectator's.
const BODIES: &[&[u8]] = &[
    b"",
    b"",
    b"13.4\0\x0d\0\0\0Eve\0\xff",
    b"\x14",
    b"",
    b"Game\0\x09\0\0\0\x02\x01\x0f\x01",
    b"\0",
    b"",
    b"\x01\0\0\0tt\0",
    DIGEST,
    b"\x02\0\0\0tt\0",
    b"fedcba9876543210fedcba9876543210\0",
    b"\x02\0\0\0\x01\0\0\0tt\0",
    b"",
    b"\x07",
    b"\x01\x02\x03\x04",
    b"A\0\0\0",
    b"OTTN",
    b"",
    b"",
    b"\x03\0\0\0",
    b"\x05\0\0\0\x06\0\0\0\x07",
    b"\x05\0\0\0\xadh$\xfe",
    b"\x01\0\0\0\0",
    b"\xff\0\0\x10\x27\0\0\0\0",
    b"\0\x05\0\x0a\0\0\0\x02Hello\0\x08\0\0\0\x02\0\0\0",
    b"\0\0\0\0\0Hi\0",
    b"\x03\0\0\0\x01Hi\0",
    b"Bob\0",
    b"\x03\0\0\0\xffBob\0",
    DIGEST,
    b"\xff\0",
    b"\x03\0\0\0\x0e",
    b"\x01",
    b"\x03\0\0\0\x0c",
    b"",
    b"\x03\0\0\0",
    b"",
    b"",
];

/// The bodies, for a loop: a check of the loop needn't look at each.
fn bodies() -> &'static [&'static [u8]] {
    BODIES
}

/// What the rules say of a message in a status. What is not permitted, and each message of a server, ends with code 7.
fn by_the_rules(number: u8, status: Status) -> Fate {
    match (number, status) {
        (2 | 4, Status::Inactive) => Fate::Stays,
        (9, Status::AuthGame) | (11, Status::AuthCompany) => Fate::Ends(10),
        (13, Status::Authorized) | (19, Status::DoneMap) => Fate::Stays,
        (23, Status::PreActive | Status::Active) => Fate::Stays,
        (24, Status::PreActive | Status::Active) => Fate::Ends(12),
        (26 | 28 | 31, Status::Active) => Fate::Stays,
        (30, Status::Active) => Fate::Ends(11),
        (33 | 35, _) => Fate::Leaves,
        _ => Fate::Ends(7),
    }
}

/// A game whose clients have to know this password, if it is one.
fn hub_of<R: Abort>(rt: &R, alloc: Global, password: &[u8]) -> Hub {
    let mut setup = Setup::plain();
    let Some(password) = Line::new(password) else {
        panic!(rt; "no password")
    };
    setup.password = password;
    if !setup.fits() {
        panic!(rt; "a setup out of range")
    }
    match Hub::new(alloc, &setup) {
        Ok(hub) => hub,
        Err(_) => panic!(rt; "memory ran out"),
    }
}

/// A connection is opened.
fn opens<R: Abort>(rt: &R, hub: &mut Hub, conn: u32) {
    let door = Door::Main;
    put(rt, hub, Event::Open { door, peer: PEER }, Ok(conn));
}

/// A game in which the connections 1 and 2 were opened.
fn begun<R: Abort>(rt: &R, alloc: Global, password: &[u8]) -> Hub {
    let mut hub = hub_of(rt, alloc, password);
    opens(rt, &mut hub, 1);
    opens(rt, &mut hub, 2);
    hub
}

/// A packet.
fn packet<R: Abort>(rt: &R, alloc: Global, conn: u32, kind: u8, body: &[u8]) -> Event {
    if body.len() > 32_764 {
        panic!(rt; "a body too long")
    }
    match Body::new(alloc, body) {
        Ok(body) => Event::Packet { conn, kind, body },
        Err(_) => panic!(rt; "memory ran out"),
    }
}

/// A member says a message.
fn says<R: Abort>(rt: &R, alloc: Global, hub: &mut Hub, conn: u32, number: u8, body: &[u8]) {
    put(rt, hub, packet(rt, alloc, conn, number, body), Ok(conn));
}

/// Ticks.
fn ticks<R: Abort>(rt: &R, hub: &mut Hub, count: u32) {
    for _ in 0..count {
        put(rt, hub, Event::Tick, Ok(0));
    }
}

/// The join of a client, from its name on, is said on a connection, which then loads its map and plays, as far as so many
/// steps go.
fn comes<R: Abort>(rt: &R, alloc: Global, hub: &mut Hub, conn: u32, join: &[u8], steps: u8) {
    says(rt, alloc, hub, conn, 2, join);
    if steps > 1 {
        says(rt, alloc, hub, conn, 13, b"");
    }
    if steps > 2 {
        ticks(rt, hub, 1);
    }
    if steps > 3 {
        says(rt, alloc, hub, conn, 19, b"");
    }
    if steps > 4 {
        acknowledges(rt, alloc, hub, conn);
    }
}

/// A member acknowledges the frame that the game has come to, and gives no token back.
fn acknowledges<R: Abort>(rt: &R, alloc: Global, hub: &mut Hub, conn: u32) {
    let [a, b, c, d] = hub.frame().to_le_bytes();
    says(rt, alloc, hub, conn, 23, &[a, b, c, d, 0xff]);
}

/// The join of a spectator.
const ANN: &[u8] = b"13.4\0\x0d\0\0\0Ann\0\xff";

/// The joins of one who founds a company, and of one who wants the company 0.
const FOUNDER: &[u8] = b"13.4\0\x0d\0\0\0Bob\0\xfe";

const PARTNER: &[u8] = b"13.4\0\x0d\0\0\0Ann\0\0";

/// The second connection founds a company and locks it, and the first wants to join that company.
fn wants_company<R: Abort>(rt: &R, alloc: Global, hub: &mut Hub) {
    comes(rt, alloc, hub, 2, FOUNDER, 5);
    ticks(rt, hub, 3);
    says(rt, alloc, hub, 2, 30, DIGEST);
    comes(rt, alloc, hub, 1, PARTNER, 1);
}

/// The second connection asks for the map, and the first behind it.
fn waits_behind<R: Abort>(rt: &R, alloc: Global, hub: &mut Hub) {
    comes(rt, alloc, hub, 2, FOUNDER, 2);
    comes(rt, alloc, hub, 1, ANN, 2);
}

/// A game whose connection 1 has this status.
fn game_at<R: Abort>(rt: &R, alloc: Global, status: Status) -> Hub {
    let password: &[u8] = if status == Status::AuthGame {
        b"pw"
    } else {
        b""
    };
    let mut hub = begun(rt, alloc, password);
    match status {
        Status::Inactive => {}
        Status::AuthGame | Status::Authorized => comes(rt, alloc, &mut hub, 1, ANN, 1),
        Status::AuthCompany => wants_company(rt, alloc, &mut hub),
        Status::MapWait => waits_behind(rt, alloc, &mut hub),
        Status::Map => comes(rt, alloc, &mut hub, 1, ANN, 2),
        Status::DoneMap => comes(rt, alloc, &mut hub, 1, ANN, 3),
        Status::PreActive => comes(rt, alloc, &mut hub, 1, ANN, 4),
        Status::Active => comes(rt, alloc, &mut hub, 1, ANN, 5),
    }
    hub
}

/// What became of a connection that said something, by what it was told last.
fn became(hub: &Hub, conn: u32, told: &[u8]) -> Fate {
    if hub.live(conn) {
        return Fate::Stays;
    }
    match told {
        [.., 4, 0, 3, code] => Fate::Ends(*code),
        _ => Fate::Leaves,
    }
}

/// What becomes of the one on connection 1 that says a message, and whether the other is still there.
fn found<R: Abort>(rt: &R, alloc: Global, status: Status, number: u8, body: &[u8]) -> (Fate, bool) {
    let mut hub = game_at(rt, alloc, status);
    let _before = taken(rt, alloc, &mut hub, 1);
    says(rt, alloc, &mut hub, 1, number, body);
    let told = taken(rt, alloc, &mut hub, 1);
    (became(&hub, 1, told.as_slice()), hub.live(2))
}

/// One message in one status.
fn row<R: Abort>(rt: &R, alloc: Global, status: Status, number: u8, body: &[u8]) {
    let found = found(rt, alloc, status, number, body);
    let wanted = (by_the_rules(number, status), true);
    assert_eq!(rt; (status, number, found), (status, number, wanted));
}

/// Each message in one status.
fn rows<R: Abort>(rt: &R, alloc: Global, status: Status) {
    let mut number = 0_u8;
    for body in bodies() {
        row(rt, alloc, status, number, body);
        number = number.saturating_add(1);
    }
    assert_eq!(rt; (status, number), (status, 39));
}

#[test]
fn each_message_in_each_status(rt: HostRuntime) {
    for status in ALL {
        rows(&rt, rt.alloc(), status);
    }
}
