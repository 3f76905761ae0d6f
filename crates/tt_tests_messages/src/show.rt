//! Each message of a game once, lines that have no packet, and inputs that are no list.
mod families;

use std::alloc::Global;
use std::process::Abort;
use std::test::*;
use tt_frame::Bad;
use tt_show::{Family, ShowError, show, show_bytes, show_packet};

/// Lists of packets, and the text of each.
type Row = (&'static [u8], &'static [u8]);

/// The list has this text.
fn shows<R: Abort>(rt: &R, alloc: Global, row: &Row) {
    let (input, wanted) = *row;
    match show(alloc, input) {
        Ok(text) => assert_eq!(rt; text.as_slice(), wanted, "of {input:?}"),
        Err(error) => panic!(rt; "{error} in {input:?}"),
    }
}

/// A line for each message, and its text.
const ROWS: &[Row] = &[
    (b"game 030000", b"SERVER_FULL\n"),
    (b"game 030001", b"SERVER_BANNED\n"),
    (
        b"game 11000231332e34000d000000416e6e00ff",
        b"CLIENT_JOIN 31332e34 13 416e6e 255\n",
    ),
    (b"game 04000308", b"SERVER_ERROR 8\n"),
    (b"game 030004", b"CLIENT_GAME_INFO\n"),
    (
        b"game 0c000500ffffffff02010f01",
        b"SERVER_GAME_INFO - 4294967295 2 1 15 1\n",
    ),
    (
        b"game 2c00060207000000000102030405060708090a0b0c0d0e0f08000000f0f1f2f3f4f5f6f7f8f9fafbfcfdfeff",
        b"SERVER_CHECK_NEWGRFS 2 7 000102030405060708090a0b0c0d0e0f 8 f0f1f2f3f4f5f6f7f8f9fafbfcfdfeff\n",
    ),
    (b"game 030007", b"CLIENT_NEWGRFS_CHECKED\n"),
    (
        b"game 0a000801000000747400",
        b"SERVER_NEED_GAME_PASSWORD 1 7474\n",
    ),
    (
        b"game 240009303132333435363738396162636465663031323334353637383961626364656600",
        b"CLIENT_GAME_PASSWORD 3031323334353637383961626364656630313233343536373839616263646566\n",
    ),
    (
        b"game 0a000a02000000747400",
        b"SERVER_NEED_COMPANY_PASSWORD 2 7474\n",
    ),
    (
        b"game 24000b303132333435363738396162636465663031323334353637383961626364656600",
        b"CLIENT_COMPANY_PASSWORD 3031323334353637383961626364656630313233343536373839616263646566\n",
    ),
    (
        b"game 0e000c0200000001000000747400",
        b"SERVER_WELCOME 2 1 7474\n",
    ),
    (b"game 03000d", b"CLIENT_GETMAP\n"),
    (b"game 04000e07", b"SERVER_WAIT 7\n"),
    (b"game 07000f01020304", b"SERVER_MAP_BEGIN 67305985\n"),
    (b"game 07001041000000", b"SERVER_MAP_SIZE 65\n"),
    (b"game 05001100ff", b"SERVER_MAP_DATA 00ff\n"),
    (b"game 030012", b"SERVER_MAP_DONE\n"),
    (b"game 030013", b"CLIENT_MAP_OK\n"),
    (b"game 07001403000000", b"SERVER_JOIN 3\n"),
    (b"game 0c0015050000000600000007", b"SERVER_FRAME 5 6 7\n"),
    (b"game 0b0016050000000a000000", b"SERVER_SYNC 5 10\n"),
    (b"game 08001701000000ff", b"CLIENT_ACK 1 255\n"),
    (
        b"game 0e00180005010a00000002486900",
        b"CLIENT_COMMAND 0 261 10 2 4869\n",
    ),
    (
        b"game 1400190005000a00000002000800000002000000",
        b"SERVER_COMMAND 0 5 10 2 - 8 2\n",
    ),
    (b"game 0b001a0203000000486900", b"CLIENT_CHAT 2 3 4869\n"),
    (b"game 0b001b0300000001486900", b"SERVER_CHAT 3 1 4869\n"),
    (b"game 07001c426f6200", b"CLIENT_SET_NAME 426f62\n"),
    (
        b"game 0c001d03000000ff426f6200",
        b"SERVER_CLIENT_INFO 3 255 426f62\n",
    ),
    (b"game 04001e00", b"CLIENT_SET_PASSWORD -\n"),
    (
        b"game 25001f03303132333435363738396162636465663031323334353637383961626364656600",
        b"CLIENT_MOVE 3 3031323334353637383961626364656630313233343536373839616263646566\n",
    ),
    (b"game 080020030000000e", b"SERVER_MOVE 3 14\n"),
    (b"game 04002114", b"CLIENT_ERROR 20\n"),
    (b"game 080022030000000c", b"SERVER_ERROR_QUIT 3 12\n"),
    (b"game 030023", b"CLIENT_QUIT\n"),
    (b"game 07002403000000", b"SERVER_QUIT 3\n"),
    (b"game 030025", b"SERVER_SHUTDOWN\n"),
    (b"game 030026", b"SERVER_NEWGAME\n"),
];

/// The rows, for a loop: a check of the loop needn't look at each.
fn rows() -> &'static [Row] {
    ROWS
}

#[test]
fn each_message_has_its_line(rt: HostRuntime) {
    for row in rows().iter() {
        shows(&rt, rt.alloc(), row);
    }
}

/// Lists, and their texts.
const LISTS: &[Row] = &[
    (b"", b""),
    (b"game 04000600", b"SERVER_CHECK_NEWGRFS 0\n"),
    (b"game 04000308\n", b"SERVER_ERROR 8\n"),
    (b"game 03000404000315", b"CLIENT_GAME_INFO\nbad at 3\n"),
    (b"game 0200", b"bad at 0\n"),
    (b"game 0300230080ff", b"CLIENT_QUIT\nbad at 3\n"),
    (b"game 0b0015", b"partial 3\n"),
    (b"game 030023ff", b"CLIENT_QUIT\npartial 1\n"),
    (b"game 030027030023", b"bad at 0\n"),
    (b"game 050017abcd", b"bad at 0\n"),
    (
        b"game 030023\ngame 04000a05\ngame 03",
        b"CLIENT_QUIT\nbad at 0\npartial 1\n",
    ),
    (
        b"game 030023030013\ngame 030025\n",
        b"CLIENT_QUIT\nCLIENT_MAP_OK\nSERVER_SHUTDOWN\n",
    ),
];

fn lists() -> &'static [Row] {
    LISTS
}

#[test]
fn each_list_has_its_text(rt: HostRuntime) {
    for row in lists().iter() {
        shows(&rt, rt.alloc(), row);
    }
}

/// Inputs that are no list, and their first bad lines.
const BAD: &[(&[u8], u32)] = &[
    (b"\n", 1),
    (b"game", 1),
    (b"game ", 1),
    (b"game 0", 1),
    (b"game 0g", 1),
    (b"game 0A", 1),
    (b"game  03", 1),
    (b" game 03", 1),
    (b"game 03 ", 1),
    (b"games 03", 1),
    (b"game 03\n\n", 2),
    (b"game 03\ngame 0\nx", 2),
    (b"game 030023\ngame 03\nnone 03", 3),
];

fn bad() -> &'static [(&'static [u8], u32)] {
    BAD
}

/// The input is no list, and this is its first bad line.
fn is_bad<R: Abort>(rt: &R, alloc: Global, input: &[u8], line: u32) {
    let found = show(alloc, input).err();
    assert_eq!(rt; found, Some(ShowError::Line(line)), "of {input:?}");
}

#[test]
fn the_first_bad_line_is_told(rt: HostRuntime) {
    for (input, line) in bad().iter() {
        is_bad(&rt, rt.alloc(), input, *line);
    }
}

/// Appends two texts, with a packet between them that has none.
fn append(alloc: Global, text: &mut Vec<u8>) -> Result<(), Bad> {
    show_packet(alloc, text, Family::Game, 32, &[3, 0, 0, 0, 14])?;
    if show_packet(alloc, text, Family::Game, 32, &[3, 0, 0, 0]).is_ok() {
        return Ok(());
    }
    match show_bytes(alloc, text, Family::Game, &[3, 0, 35, 9]) {
        Ok(()) => Ok(()),
        Err(_) => Err(Bad::Memory),
    }
}

#[test]
fn lines_are_appended(rt: HostRuntime) -> Result<(), Fail> {
    let mut text = Vec::from_slice(rt.alloc(), b"> ")?;
    append(rt.alloc(), &mut text)?;
    let wanted = b"> SERVER_MOVE 3 14\nCLIENT_QUIT\npartial 1\n";
    assert_eq!(rt; text.as_slice(), wanted.as_slice());
    Ok(())
}
