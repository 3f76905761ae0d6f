//! Servers that are registered, and clients that are brought to them. Each call of the coordinator stands in a small function that
//! compares what it answers and promises nothing, so a test is lines that call these.
use std::alloc::Global;
use std::process::Abort;
use std::test::*;
use tt_attempts::Ways;
use tt_edge::{Body, Core, CoreErr, Door, Event, Peer, drain};
use tt_frame::Line;
use tt_gc::{Coordinator, GcSetup};

/// The body by which a server is registered that has no code yet: kind 1, port 3979.
const REGISTER: &[u8] = b"\x01\x01\x8b\x0f\x00\x00";

/// The body by which that server comes back, with its code and its secret.
const REGISTER_AGAIN: &[u8] = b"\x01\x01\x8b\x0f+9ZDDVF\x00S32A5CAX5WU9Z5BUPKLCGXR9JWS22WGH\x00";

/// The packet by which the first code is told, and its secret.
const ACK: &[u8] = b"\x2d\x00\x02+9ZDDVF\x00S32A5CAX5WU9Z5BUPKLCGXR9JWS22WGH\x00\x00";

/// The body by which a client asks for the server of the first code.
const CONNECT: &[u8] = b"\x01+9ZDDVF\x00";

/// What that client is told first: the token of its attempt, and the direct way.
const DIRECT: &[u8] =
    b"\x15\x00\x07YPXYD99R1\x00+9ZDDVF\x00\x19\x00\x0bYPXYD99R1\x00\x0110.0.0.1\x00\x8b\x0f";

/// The packet that asks a peer to show itself to the desk.
const REQUEST: &[u8] = b"\x0d\x00\x0cYPXYD99R1\x00";

/// The packet that tells both peers the TURN server, with the attempt's token as their ticket.
const TURN: &[u8] = b"\x1d\x00\x10YPXYD99R1\x00\x03YPXYD99R1\x00turn\x00";

/// The packet that tells the client that no way is left.
const FAILED: &[u8] = b"\x0d\x00\x09YPXYD99R1\x00";

/// The body by which the client says that it is connected.
const CONNECTED: &[u8] = b"\x01YPXYD99R1\x00";

/// The body by which a server tells of its game, of revision 13.4.
const UPDATE: &[u8] = b"\x01Game\x0013.4\x00\x02\x0f\x01\x01\x03\x00\x00\x00";

/// What is told to one who asks for the servers of that revision: that server, and the end.
const LISTING: &[u8] =
    b"\x1f\x00\x05\x01\x00+9ZDDVF\x00Game\x0013.4\x00\x02\x0f\x01\x01\x03\x00\x00\x00\x05\x00\x05\x00\x00";

/// A coordinator with the random words 0 and 0, and with all ways.
fn made<R: Abort>(rt: &R, alloc: Global) -> Coordinator {
    let Some(turn_host) = Line::new(b"turn") else {
        panic!(rt; "no host")
    };
    if turn_host.bytes().len() > 31 {
        panic!(rt; "a long host");
    }
    let ways = Ways {
        direct: true,
        stun: true,
        turn: true,
    };
    let setup = GcSetup {
        first: 0,
        second: 0,
        ways,
        turn_host,
        cost: 1_073_741_824,
    };
    match Coordinator::new(alloc, &setup) {
        Ok(gc) => gc,
        Err(_) => panic!(rt; "memory ran out"),
    }
}

/// Puts an event in, and compares the answer.
fn put<R: Abort>(rt: &R, gc: &mut Coordinator, event: Event, wanted: Result<u32, CoreErr>) {
    let conn = gc.connections();
    assert_eq!(rt; gc.event(event), wanted, "with {conn} connections");
}

/// Opens the next connection, from a host and a port.
fn open<R: Abort>(rt: &R, gc: &mut Coordinator, door: Door, last: u8, port: u16, conn: u32) {
    let peer = Peer {
        host: [10, 0, 0, last],
        port,
    };
    put(rt, gc, Event::Open { door, peer }, Ok(conn));
}

/// A packet's body.
fn body_of<R: Abort>(rt: &R, alloc: Global, bytes: &[u8]) -> Body {
    if bytes.len() > 32_764 {
        panic!(rt; "a body too long");
    }
    match Body::new(alloc, bytes) {
        Ok(body) => body,
        Err(_) => panic!(rt; "memory ran out"),
    }
}

/// Puts a packet in, which is taken.
fn say<R: Abort>(rt: &R, alloc: Global, gc: &mut Coordinator, conn: u32, kind: u8, bytes: &[u8]) {
    let body = body_of(rt, alloc, bytes);
    put(rt, gc, Event::Packet { conn, kind, body }, Ok(conn));
}

/// Compares all that a connection was told and has not taken.
fn told<R: Abort>(rt: &R, alloc: Global, gc: &mut Coordinator, conn: u32, wanted: &[u8]) {
    match drain(alloc, gc, conn) {
        Ok(bytes) => assert_eq!(rt; bytes.as_slice(), wanted, "connection {conn}"),
        Err(_) => panic!(rt; "memory ran out"),
    }
}

/// Compares whether a connection is live, and how many bytes it was told.
fn stands<R: Abort>(rt: &R, gc: &Coordinator, conn: u32, live: bool, sent: u64) {
    assert_eq!(rt;
        (gc.live(conn), gc.sent_len(conn)),
        (live, sent),
        "connection {conn}"
    );
}

/// Compares how many codes were drawn, and what the record of events costs.
fn keeps<R: Abort>(rt: &R, gc: &Coordinator, codes: usize, cost: u64) {
    assert_eq!(rt; (gc.codes(), gc.events().cost()), (codes, cost));
}

/// A coordinator with a server, its connection 1, and a client that asked for it, its connection 2.
fn asked<R: Abort>(rt: &R, alloc: Global) -> Coordinator {
    let mut gc = made(rt, alloc);
    open(rt, &mut gc, Door::Main, 1, 6001, 1);
    open(rt, &mut gc, Door::Main, 2, 6002, 2);
    say(rt, alloc, &mut gc, 1, 1, REGISTER);
    told(rt, alloc, &mut gc, 1, ACK);
    say(rt, alloc, &mut gc, 2, 6, CONNECT);
    told(rt, alloc, &mut gc, 2, DIRECT);
    gc
}

/// That coordinator once the direct way has failed: both peers were asked to show themselves to the desk.
fn past_direct<R: Abort>(rt: &R, alloc: Global) -> Coordinator {
    let mut gc = asked(rt, alloc);
    say(rt, alloc, &mut gc, 2, 8, b"\x01YPXYD99R1\x00\x01");
    told(rt, alloc, &mut gc, 1, REQUEST);
    told(rt, alloc, &mut gc, 2, REQUEST);
    gc
}

#[test]
fn a_server_gets_a_code_and_comes_back_by_it(rt: HostRuntime) {
    let alloc = rt.alloc();
    let mut gc = made(&rt, alloc);
    open(&rt, &mut gc, Door::Main, 1, 6001, 1);
    say(&rt, alloc, &mut gc, 1, 1, REGISTER);
    told(&rt, alloc, &mut gc, 1, ACK);
    put(&rt, &mut gc, Event::Shut { conn: 1 }, Ok(1));
    stands(&rt, &gc, 1, false, 45);
    open(&rt, &mut gc, Door::Main, 1, 6001, 2);
    say(&rt, alloc, &mut gc, 2, 1, REGISTER_AGAIN);
    told(&rt, alloc, &mut gc, 2, ACK);
    stands(&rt, &gc, 2, true, 45);
    keeps(&rt, &gc, 1, 371);
}

#[test]
fn what_asks_for_no_server_or_says_nothing_ends_its_connection(rt: HostRuntime) {
    let alloc = rt.alloc();
    let mut gc = made(&rt, alloc);
    open(&rt, &mut gc, Door::Main, 2, 6002, 1);
    say(&rt, alloc, &mut gc, 1, 6, b"\x01+AAAAAA\x00");
    told(&rt, alloc, &mut gc, 1, b"\x0c\x00\x00\x02+AAAAAA\x00");
    stands(&rt, &gc, 1, false, 12);
    open(&rt, &mut gc, Door::Main, 2, 6003, 2);
    say(&rt, alloc, &mut gc, 2, 3, b"");
    told(&rt, alloc, &mut gc, 2, &[5, 0, 0, 0, 0]);
    stands(&rt, &gc, 2, false, 5);
}

#[test]
fn each_refusal_has_its_cause(rt: HostRuntime) {
    let mut gc = made(&rt, rt.alloc());
    put(
        &rt,
        &mut gc,
        Event::Broken { conn: 1 },
        Err(CoreErr::NoSuch),
    );
    open(&rt, &mut gc, Door::Main, 2, 6002, 1);
    put(&rt, &mut gc, Event::Shut { conn: 1 }, Ok(1));
    put(&rt, &mut gc, Event::Shut { conn: 1 }, Err(CoreErr::NoSuch));
    put(&rt, &mut gc, Event::Tick, Ok(0));
    assert!(rt; !gc.over());
    put(&rt, &mut gc, Event::Stop, Ok(0));
    assert!(rt; gc.over());
    put(&rt, &mut gc, Event::Tick, Err(CoreErr::Over));
}

#[test]
fn the_desk_shows_where_a_peer_is(rt: HostRuntime) {
    let alloc = rt.alloc();
    let mut gc = past_direct(&rt, alloc);
    open(&rt, &mut gc, Door::Side, 1, 7001, 3);
    say(&rt, alloc, &mut gc, 3, 0, b"\x01YPXYD99R1\x00\x00");
    stands(&rt, &gc, 3, false, 0);
    say(&rt, alloc, &mut gc, 1, 13, b"\x01YPXYD99R1\x00\x00\x01");
    say(&rt, alloc, &mut gc, 2, 13, b"\x01YPXYD99R1\x00\x01\x01");
    told(
        &rt,
        alloc,
        &mut gc,
        2,
        b"\x1a\x00\x0eYPXYD99R1\x00\x02\x0110.0.0.1\x00\x59\x1b",
    );
    told(
        &rt,
        alloc,
        &mut gc,
        1,
        b"\x1a\x00\x0eYPXYD99R1\x00\x02\x0010.0.0.2\x00\x72\x17",
    );
}

#[test]
fn the_clients_of_a_server_that_ends_are_told_so(rt: HostRuntime) {
    let alloc = rt.alloc();
    let mut gc = asked(&rt, alloc);
    open(&rt, &mut gc, Door::Main, 3, 6003, 3);
    say(&rt, alloc, &mut gc, 3, 6, CONNECT);
    say(&rt, alloc, &mut gc, 2, 6, CONNECT);
    stands(&rt, &gc, 2, true, 92);
    stands(&rt, &gc, 3, true, 46);
    put(&rt, &mut gc, Event::Shut { conn: 1 }, Ok(1));
    stands(&rt, &gc, 1, false, 45);
    stands(&rt, &gc, 2, true, 118);
    stands(&rt, &gc, 3, true, 59);
    say(&rt, alloc, &mut gc, 3, 4, b"\x0113.4\x00");
    stands(&rt, &gc, 3, true, 64);
}

#[test]
fn where_the_last_way_fails_the_client_is_told_so(rt: HostRuntime) {
    let alloc = rt.alloc();
    let mut gc = past_direct(&rt, alloc);
    say(&rt, alloc, &mut gc, 1, 13, b"\x01YPXYD99R1\x00\x00\x00");
    told(&rt, alloc, &mut gc, 1, TURN);
    told(&rt, alloc, &mut gc, 2, TURN);
    say(&rt, alloc, &mut gc, 2, 8, b"\x01YPXYD99R1\x00\x02");
    told(&rt, alloc, &mut gc, 2, b"");
    say(&rt, alloc, &mut gc, 2, 8, b"\x01YPXYD99R1\x00\x03");
    told(&rt, alloc, &mut gc, 1, b"");
    told(&rt, alloc, &mut gc, 2, FAILED);
}

#[test]
fn a_client_that_is_connected_has_no_attempt_left(rt: HostRuntime) {
    let alloc = rt.alloc();
    let mut gc = asked(&rt, alloc);
    say(&rt, alloc, &mut gc, 2, 10, CONNECTED);
    say(&rt, alloc, &mut gc, 2, 8, b"\x01YPXYD99R1\x00\x01");
    put(&rt, &mut gc, Event::Shut { conn: 1 }, Ok(1));
    told(&rt, alloc, &mut gc, 1, b"");
    told(&rt, alloc, &mut gc, 2, b"");
    stands(&rt, &gc, 2, true, 46);
}

#[test]
fn a_server_is_listed_once_it_has_told_of_its_game(rt: HostRuntime) {
    let alloc = rt.alloc();
    let mut gc = asked(&rt, alloc);
    say(&rt, alloc, &mut gc, 2, 4, b"\x0113.4\x00");
    told(&rt, alloc, &mut gc, 2, b"\x05\x00\x05\x00\x00");
    say(&rt, alloc, &mut gc, 1, 3, UPDATE);
    say(&rt, alloc, &mut gc, 2, 4, b"\x0113.4\x00");
    told(&rt, alloc, &mut gc, 2, LISTING);
    say(&rt, alloc, &mut gc, 2, 4, b"\x0113.5\x00");
    told(&rt, alloc, &mut gc, 2, b"\x05\x00\x05\x00\x00");
}
