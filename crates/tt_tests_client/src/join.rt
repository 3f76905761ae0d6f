//! A login, a join fed whole, byte by byte and in each two pieces, and the ways in which a client that plays ends.
use crate::players::{JOIN, ann, command, joined, login};
use std::alloc::Global;
use std::test::Fail;
use tt_client::{Client, State, SubmitErr};

/// The join of Ann, who wants no company; that she asks for the map; that she has it; and, at frame 1, the token 5 given back.
const SAID: [u8; 31] = [
    17, 0, 2, 0x31, 0x33, 0x2e, 0x34, 0, 13, 0, 0, 0, 0x41, 0x6e, 0x6e, 0, 255, 3, 0, 13, 3, 0, 19,
    8, 0, 23, 1, 0, 0, 0, 5,
];

/// The word of frame 1; and that the server is at frame 1, and clients may run to frame 3.
const BEHIND: [u8; 23] = [
    11, 0, 22, 1, 0, 0, 0, 0xad, 0x68, 0x24, 0xfe, 12, 0, 21, 1, 0, 0, 0, 3, 0, 0, 0, 0,
];

/// A word of frame 1 that is not that of the world.
const FORGED: [u8; 11] = [11, 0, 22, 1, 0, 0, 0, 0, 0, 0, 0];

/// Feeds bytes one by one.
fn feed_each(client: &mut Client, bytes: &[u8]) -> Result<(), Fail> {
    for byte in bytes {
        client.feed(&[*byte])?;
    }
    Ok(())
}

/// A client that was fed its join and what comes behind, each whole, and has run a frame between.
fn played_whole(alloc: Global) -> Result<Client, Fail> {
    let mut client = joined(alloc)?;
    client.advance(9);
    client.feed(&BEHIND)?;
    client.advance(9);
    Ok(client)
}

/// The same, but that each byte was fed alone.
fn played_byte_by_byte(alloc: Global) -> Result<Client, Fail> {
    let mut client = ann(alloc)?;
    feed_each(&mut client, &JOIN)?;
    client.advance(9);
    feed_each(&mut client, &BEHIND)?;
    client.advance(9);
    Ok(client)
}

/// Whether a join that comes in two pieces, of which the first has so many bytes, leads where the whole one does.
fn is_one_cut_at(alloc: Global, count: usize) -> Result<bool, Fail> {
    let mut client = ann(alloc)?;
    client.feed(JOIN.get(..count).ok_or("a piece")?)?;
    client.feed(JOIN.get(count..).ok_or("a piece")?)?;
    let ran = client.advance(9);
    Ok(client.state() == State::Running && ran == 1 && said(&mut client) == (SAID, 31))
}

/// The words of its world.
fn words(client: &Client) -> Option<(u32, u32)> {
    let world = client.world()?;
    Some(world.random().words())
}

/// What it has to say, and how many bytes that are.
fn said(client: &mut Client) -> ([u8; 31], usize) {
    let mut out = [0; 31];
    let count = client.take(&mut out);
    (out, count)
}

#[test]
fn a_login_is_copied_whole(rt: HostRuntime) {
    let login = login();
    assert!(rt; login.copy() == login);
}

#[test]
fn a_client_without_a_map_has_no_world(rt: HostRuntime) -> Result<(), Fail> {
    let mut client = ann(rt.alloc())?;
    assert!(rt; client.state() == State::Joining);
    assert!(rt; client.frame().is_none());
    assert!(rt; client.permitted().is_none());
    assert!(rt; client.world().is_none());
    assert!(rt; client.company() == 255);
    assert!(rt; client.submit(255, command()?) == Err(SubmitErr::NotRunning));
    Ok(())
}

#[test]
fn a_join_is_one_however_it_is_cut(rt: HostRuntime) -> Result<(), Fail> {
    let mut whole = played_whole(rt.alloc())?;
    let mut single = played_byte_by_byte(rt.alloc())?;
    assert!(rt; whole.state() == State::Running);
    assert!(rt; single.state() == State::Running);
    assert!(rt; whole.frame() == Some(3));
    assert!(rt; single.frame() == Some(3));
    assert!(rt; words(&whole) == words(&single));
    assert!(rt; said(&mut whole) == (SAID, 31));
    assert!(rt; said(&mut single) == (SAID, 31));
    Ok(())
}

#[test]
fn a_join_is_one_in_each_two_pieces(rt: HostRuntime) -> Result<(), Fail> {
    for count in 0..=JOIN.len() {
        assert!(rt; is_one_cut_at(rt.alloc(), count)?);
    }
    Ok(())
}

#[test]
fn a_forged_word_ends_it(rt: HostRuntime) -> Result<(), Fail> {
    let mut client = joined(rt.alloc())?;
    client.advance(1);
    client.feed(&FORGED)?;
    assert_eq!(rt;
        client.state(),
        State::Desync {
            frame: 1,
            mine: 0xfe24_68ad,
            theirs: 0
        }
    );
    Ok(())
}

#[test]
fn a_bad_size_is_wrong_at_its_place(rt: HostRuntime) -> Result<(), Fail> {
    let mut client = joined(rt.alloc())?;
    client.feed(&[2, 0])?;
    assert_eq!(rt; client.state(), State::Wrong { at: 111 });
    Ok(())
}

#[test]
fn frames_are_run_as_far_as_is_permitted(rt: HostRuntime) -> Result<(), Fail> {
    let mut client = joined(rt.alloc())?;
    assert_eq!(rt; client.permitted(), Some(1));
    assert_eq!(rt; client.advance(9), 1);
    assert_eq!(rt; client.advance(9), 0);
    Ok(())
}

#[test]
fn a_command_is_said_once(rt: HostRuntime) -> Result<(), Fail> {
    let mut client = joined(rt.alloc())?;
    let _ = said(&mut client);
    assert!(rt; client.submit(255, command()?).is_ok());
    let mut sent = [0; 12];
    assert_eq!(rt; client.take(&mut sent), 12);
    assert_eq!(rt; sent, [12, 0, 24, 255, 8, 0, 0, 0, 0, 0, 0, 0]);
    assert_eq!(rt; client.take(&mut sent), 0);
    Ok(())
}
