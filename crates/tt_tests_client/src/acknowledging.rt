//! Acknowledgements: where a later one takes the place of one that waits, and which of them gives a token back.
use crate::players::{command, joined};
use std::alloc::Global;
use std::test::Fail;
use tt_client::Client;

/// That clients may run to frame 300.
const FAR: [u8; 12] = [12, 0, 21, 0, 0, 0, 0, 44, 1, 0, 0, 0];

/// Frame 1 and the token 5; frame 101, with that token and with none.
const FIRST: [u8; 8] = [8, 0, 23, 1, 0, 0, 0, 5];

const LATER: [u8; 8] = [8, 0, 23, 101, 0, 0, 0, 5];

const LATER_WITHOUT: [u8; 8] = [8, 0, 23, 101, 0, 0, 0, 0];

/// A command that founds a company.
const COMMAND: [u8; 12] = [12, 0, 24, 255, 8, 0, 0, 0, 0, 0, 0, 0];

/// A client that has run frame 1, of which the acknowledgement waits alone, and that may run to frame 300.
fn at_frame_1(alloc: Global) -> Result<Client, Fail> {
    let mut client = joined(alloc)?;
    client.take(&mut [0; 23]);
    client.advance(1);
    client.feed(&FAR)?;
    Ok(client)
}

#[test]
fn a_later_one_takes_the_place_of_one_that_waits_whole(rt: HostRuntime) -> Result<(), Fail> {
    let mut client = at_frame_1(rt.alloc())?;
    client.advance(100);
    let mut out = [0; 8];
    assert_eq!(rt; client.take(&mut out), 8);
    assert_eq!(rt; out, LATER);
    assert_eq!(rt; client.take(&mut out), 0);
    Ok(())
}

#[test]
fn one_that_is_half_taken_stays(rt: HostRuntime) -> Result<(), Fail> {
    let mut client = at_frame_1(rt.alloc())?;
    let mut half = [0; 4];
    client.take(&mut half);
    client.advance(100);
    let mut rest = [0; 4];
    client.take(&mut rest);
    assert_eq!(rt; (half, rest), ([8, 0, 23, 1], [0, 0, 0, 5]));
    let mut out = [0; 8];
    assert_eq!(rt; client.take(&mut out), 8);
    assert_eq!(rt; out, LATER_WITHOUT);
    Ok(())
}

#[test]
fn it_keeps_its_place_among_other_bytes(rt: HostRuntime) -> Result<(), Fail> {
    let mut client = at_frame_1(rt.alloc())?;
    assert!(rt; client.submit(255, command()?).is_ok());
    client.advance(100);
    let mut out = [0; 8];
    client.take(&mut out);
    assert_eq!(rt; out, LATER);
    let mut behind = [0; 12];
    client.take(&mut behind);
    assert_eq!(rt; behind, COMMAND);
    Ok(())
}

#[test]
fn it_stands_behind_bytes_that_wait(rt: HostRuntime) -> Result<(), Fail> {
    let mut client = joined(rt.alloc())?;
    client.take(&mut [0; 23]);
    assert!(rt; client.submit(255, command()?).is_ok());
    client.advance(1);
    let mut before = [0; 12];
    client.take(&mut before);
    assert_eq!(rt; before, COMMAND);
    let mut out = [0; 8];
    client.take(&mut out);
    assert_eq!(rt; out, FIRST);
    Ok(())
}

#[test]
fn a_token_is_given_back_once(rt: HostRuntime) -> Result<(), Fail> {
    let mut client = at_frame_1(rt.alloc())?;
    let mut out = [0; 8];
    client.take(&mut out);
    assert_eq!(rt; out, FIRST);
    client.advance(100);
    client.take(&mut out);
    assert_eq!(rt; out, LATER_WITHOUT);
    Ok(())
}
