//! Words that are addresses, and words that are none.
use std::process::Abort;
use std::test::*;
use tt_edge::Peer;
use tt_frame::Line;
use tt_words::address_of;

/// Words that are no address.
const BAD: [&[u8]; 16] = [
    b"",
    b"127.0.0.1",
    b"127.0.0.1:",
    b"127.0.0.1:65536",
    b"127.0.0.1:03979",
    b"127.0.0.1: 3979",
    b"127.0.0.1:+1",
    b"127.0.0.1:1 ",
    b"127.0.0.1.1:1",
    b"127.0.0:1",
    b"127.0.0.:1",
    b"127.0.0.256:1",
    b"127.0.0.01:1",
    b".0.0.1:1",
    b"localhost:3979",
    b"[::1]:3979",
];

/// A word as a line.
fn line_of<R: Abort>(rt: &R, word: &[u8]) -> Line {
    let Some(line) = Line::new(word) else {
        panic!(rt; "no line")
    };
    line
}

/// Compares the address that a word spells.
fn spells<R: Abort>(rt: &R, word: &[u8], host: [u8; 4], port: u16) {
    assert!(rt; address_of(&line_of(rt, word)) == Some(Peer { host, port }));
}

#[test]
fn addresses_are_read(rt: HostRuntime) {
    spells(&rt, b"127.0.0.1:3979", [127, 0, 0, 1], 3979);
    spells(&rt, b"0.0.0.0:0", [0, 0, 0, 0], 0);
    spells(&rt, b"255.255.255.255:65535", [255, 255, 255, 255], 65_535);
    for word in &BAD {
        assert!(rt; address_of(&line_of(&rt, word)).is_none());
    }
}
