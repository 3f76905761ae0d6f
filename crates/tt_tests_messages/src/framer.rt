//! A stream that comes in pieces.
use std::alloc::Global;
use std::process::Abort;
use std::test::*;
use tt_frame::{Framer, Next, first_of};

/// What is done with a framer, and what it answers.
#[derive(Drop)]
enum Step {
    /// It is fed this piece, of which it takes so many bytes.
    Feed(&'static [u8], usize),
    /// It gives this.
    Next(Next<'static>),
    /// It forgets all.
    Clear,
}

/// An answer to be compared: its word, the number or the size, how long the body is, and its first bytes.
type Told = (&'static str, u16, usize, [u8; 3]);

fn told(answer: Next<'_>) -> Told {
    match answer {
        Next::Partial => ("partial", 0, 0, [0; 3]),
        Next::BadSize(size) => ("bad size", size, 0, [0; 3]),
        Next::Packet { kind, body } => ("packet", u16::from(kind), body.len(), front(body)),
    }
}

/// The first three bytes, with zeros behind where there are fewer.
fn front(body: &[u8]) -> [u8; 3] {
    let mut bytes = [0; 3];
    for (to, from) in bytes.iter_mut().zip(body) {
        *to = *from;
    }
    bytes
}

fn gives<R: Abort>(rt: &R, framer: &mut Framer, wanted: Next<'_>) {
    assert_eq!(rt; told(framer.next()), told(wanted));
}

fn feed<R: Abort>(rt: &R, framer: &mut Framer, piece: &[u8], taken: usize) {
    assert_eq!(rt; framer.feed(piece), taken, "of {piece:?}");
}

fn follow<R: Abort>(rt: &R, alloc: Global, steps: &[Step]) -> Result<(), Fail> {
    let mut framer = Framer::new(alloc, 6)?;
    for step in steps {
        match step {
            Step::Feed(piece, taken) => feed(rt, &mut framer, piece, *taken),
            Step::Next(wanted) => gives(rt, &mut framer, *wanted),
            Step::Clear => framer.clear(),
        }
    }
    Ok(())
}

#[test]
fn a_stream_in_pieces(rt: HostRuntime) -> Result<(), Fail> {
    let steps = [
        Step::Feed(&[5], 1),
        Step::Next(Next::Partial),
        Step::Feed(&[0, 42, 1, 2, 7, 0], 5),
        Step::Next(Next::Packet {
            kind: 42,
            body: &[1, 2],
        }),
        Step::Next(Next::Partial),
    ];
    follow(&rt, rt.alloc(), &steps)
}

#[test]
fn a_bad_size_stays(rt: HostRuntime) -> Result<(), Fail> {
    let steps = [
        Step::Feed(&[7], 1),
        Step::Next(Next::Partial),
        Step::Feed(&[0], 1),
        Step::Next(Next::BadSize(7)),
        Step::Next(Next::BadSize(7)),
        Step::Feed(&[5, 0], 2),
        Step::Next(Next::BadSize(7)),
    ];
    follow(&rt, rt.alloc(), &steps)
}

#[test]
fn a_cleared_framer_is_new(rt: HostRuntime) -> Result<(), Fail> {
    let steps = [
        Step::Feed(&[7, 0], 2),
        Step::Next(Next::BadSize(7)),
        Step::Clear,
        Step::Next(Next::Partial),
        Step::Feed(&[3, 0, 37, 4, 0, 1, 2], 6),
        Step::Next(Next::Packet {
            kind: 37,
            body: &[],
        }),
    ];
    follow(&rt, rt.alloc(), &steps)
}

fn stands_first<R: Abort>(rt: &R, bytes: &[u8], wanted: Next<'_>) {
    assert_eq!(rt; told(first_of(bytes, 32767)), told(wanted), "of {bytes:?}");
}

#[test]
fn a_first_packet_is_told_with_what_stands_behind_it(rt: HostRuntime) {
    let packet = Next::Packet {
        kind: 9,
        body: &[7],
    };
    stands_first(&rt, &[4, 0, 9, 7, 5], packet);
    stands_first(&rt, &[4, 0, 9], Next::Partial);
    stands_first(&rt, &[2, 0, 9], Next::BadSize(2));
}
