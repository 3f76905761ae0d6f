//! Each message of admins, of the coordinator, of its STUN desk and of its TURN server once, and packets that spell none.
//!
//! One row stands for one message, and its packet is the one that the tests of the crates that decode these messages have.
use super::{Row, shows};
use std::test::*;

/// A line for each message, and its text.
const ROWS: &[Row] = &[
    (b"admin 0b00007077007474003100", b"JOIN 7077 7474 31\n"),
    (b"admin 030001", b"QUIT\n"),
    (b"admin 07000200000400", b"UPDATE_FREQUENCY 0 4\n"),
    (b"admin 08000302ffffffff", b"POLL 2 4294967295\n"),
    (b"admin 0b00040203000000486900", b"CHAT 2 3 4869\n"),
    (b"admin 0b0005636c69656e747300", b"RCON 636c69656e7473\n"),
    (b"admin 060006486900", b"GAMESCRIPT 4869\n"),
    (b"admin 07000778563412", b"PING 305419896\n"),
    (
        b"admin 100008697263000700416e6e00486900",
        b"EXTERNAL_CHAT 697263 7 416e6e 4869\n",
    ),
    (b"admin 030064", b"FULL\n"),
    (b"admin 030065", b"BANNED\n"),
    (b"admin 04006614", b"ERROR 20\n"),
    (
        b"admin 0f0067030100003f00010100410000",
        b"PROTOCOL 3 0 63 1 65\n",
    ),
    (
        b"admin 1c006847616d650031332e3400010001000000000200000000010002",
        b"WELCOME 47616d65 31332e34 1 - 1 0 2 256 512\n",
    ),
    (b"admin 030069", b"NEWGAME\n"),
    (b"admin 03006a", b"SHUTDOWN\n"),
    (b"admin 07006b07000000", b"DATE 7\n"),
    (b"admin 07006c03000000", b"CLIENT_JOIN 3\n"),
    (
        b"admin 0c006d03000000426f6200ff",
        b"CLIENT_INFO 3 426f62 255\n",
    ),
    (
        b"admin 0c006e03000000416e6e000e",
        b"CLIENT_UPDATE 3 416e6e 14\n",
    ),
    (b"admin 07006f03000000", b"CLIENT_QUIT 3\n"),
    (b"admin 0800700300000014", b"CLIENT_ERROR 3 20\n"),
    (b"admin 04007102", b"COMPANY_NEW 2\n"),
    (
        b"admin 0e00720141636d6500416e6e0001",
        b"COMPANY_INFO 1 41636d65 416e6e 1\n",
    ),
    (
        b"admin 0e00730141636d6500426f620000",
        b"COMPANY_UPDATE 1 41636d65 426f62 0\n",
    ),
    (b"admin 0500740102", b"COMPANY_REMOVE 1 2\n"),
    (
        b"admin 10007501ffffffffffffffffa0860100",
        b"COMPANY_ECONOMY 1 18446744073709551615 100000\n",
    ),
    (b"admin 060076010200", b"COMPANY_STATS 1 2\n"),
    (b"admin 0b00770203000000486900", b"CHAT 2 3 4869\n"),
    (b"admin 08007805006f6b00", b"RCON 5 6f6b\n"),
    (
        b"admin 11007961646d696e00636c69656e747300",
        b"CONSOLE 61646d696e 636c69656e7473\n",
    ),
    (
        b"admin 1d007a010000496e6372656173654c6f616e0001070050617573650000",
        b"CMD_NAMES 0 496e6372656173654c6f616e 7 5061757365\n",
    ),
    (b"admin 03007b", b"CMD_LOGGING_OLD\n"),
    (b"admin 06007c486900", b"GAMESCRIPT 4869\n"),
    (
        b"admin 0b007d636c69656e747300",
        b"RCON_END 636c69656e7473\n",
    ),
    (b"admin 07007e78563412", b"PONG 305419896\n"),
    (
        b"admin 0e007f0200000001070009000000",
        b"CMD_LOGGING 2 1 7 9\n",
    ),
    (
        b"coord 0c0000022b41414141414100",
        b"GC_ERROR 2 2b414141414141\n",
    ),
    (
        b"coord 09000101018b0f0000",
        b"SERVER_REGISTER 1 1 3979 - -\n",
    ),
    (
        b"coord 1300022b395a44445646007365637265740004",
        b"GC_REGISTER_ACK 2b395a44445646 736563726574 4\n",
    ),
    (
        b"coord 1600030147616d650031332e3400020f010109000000",
        b"SERVER_UPDATE 1 47616d65 31332e34 2 15 1 1 9\n",
    ),
    (b"coord 0900040131332e3400", b"CLIENT_LISTING 1 31332e34\n"),
    (
        b"coord 31000502002b395a444456460047616d650031332e3400020f0101090000002b4141414141410000000000000000000000",
        b"GC_LISTING 2 2b395a44445646 47616d65 31332e34 2 15 1 1 9 2b414141414141 - - 0 0 0 0 0\n",
    ),
    (
        b"coord 0c0006012b395a4444564600",
        b"CLIENT_CONNECT 1 2b395a44445646\n",
    ),
    (
        b"coord 100007746f6b31002b395a4444564600",
        b"GC_CONNECTING 746f6b31 2b395a44445646\n",
    ),
    (
        b"coord 0a000801746f6b310002",
        b"SERCLI_CONNECT_FAILED 1 746f6b31 2\n",
    ),
    (b"coord 080009746f6b3100", b"GC_CONNECT_FAILED 746f6b31\n"),
    (
        b"coord 09000a01746f6b3100",
        b"CLIENT_CONNECTED 1 746f6b31\n",
    ),
    (
        b"coord 15000b746f6b3100013132372e302e302e31008b0f",
        b"GC_DIRECT_CONNECT 746f6b31 1 3132372e302e302e31 3979\n",
    ),
    (b"coord 08000c746f6b3100", b"GC_STUN_REQUEST 746f6b31\n"),
    (
        b"coord 0b000d01746f6b31000101",
        b"SERCLI_STUN_RESULT 1 746f6b31 1 1\n",
    ),
    (
        b"coord 16000e746f6b310002003132372e302e302e31008b0f",
        b"GC_STUN_CONNECT 746f6b31 2 0 3132372e302e302e31 3979\n",
    ),
    (
        b"coord 21000f0107000000080000003031323334353637383961626364656666696c6500",
        b"GC_NEWGRF_LOOKUP 1 7 8 30313233343536373839616263646566 66696c65\n",
    ),
    (
        b"coord 180010746f6b310003746f6b31003132372e302e302e3100",
        b"GC_TURN_CONNECT 746f6b31 3 746f6b31 3132372e302e302e31\n",
    ),
    (b"stun 0a000001746f6b310001", b"SERCLI_STUN 1 746f6b31 1\n"),
    (b"turn 030000", b"TURN_ERROR\n"),
    (b"turn 09000101746f6b3100", b"SERCLI_CONNECT 1 746f6b31\n"),
    (
        b"turn 0d00023132372e302e302e3100",
        b"TURN_CONNECTED 3132372e302e302e31\n",
    ),
];

/// The rows, for a loop: a check of the loop needn't look at each.
fn rows() -> &'static [Row] {
    ROWS
}

#[test]
fn each_message_of_the_other_families_has_its_line(rt: HostRuntime) {
    for row in rows().iter() {
        shows(&rt, rt.alloc(), row);
    }
}

/// Lists of several families, bodies that no message has, and their texts.
const LISTS: &[Row] = &[
    (b"coord 0500050000", b"GC_LISTING 0\n"),
    (b"coord 0500050001", b"bad at 0\n"),
    (b"coord 04000f00", b"GC_NEWGRF_LOOKUP 0\n"),
    (b"coord 04000f3f", b"bad at 0\n"),
    (b"admin 0500670300", b"PROTOCOL 3\n"),
    (b"admin 0a0067030200003f0000", b"bad at 0\n"),
    (b"admin 04007a00", b"CMD_NAMES\n"),
    (b"admin 0c007a010700506175736500", b"bad at 0\n"),
    (b"coord 0900040231332e3400", b"bad at 0\n"),
    (b"stun 07000000410000", b"bad at 0\n"),
    (b"stun 07000001410002", b"bad at 0\n"),
    (b"turn 0500014100", b"bad at 0\n"),
    (b"admin 030009", b"bad at 0\n"),
    (b"admin 030080", b"bad at 0\n"),
    (b"stun 030001", b"bad at 0\n"),
    (b"turn 030003", b"bad at 0\n"),
    (b"coord 030011", b"bad at 0\n"),
    (
        b"admin 030001\nturn 030000\ngame 030004\nadmin 03",
        b"QUIT\nTURN_ERROR\nCLIENT_GAME_INFO\npartial 1\n",
    ),
];

fn lists() -> &'static [Row] {
    LISTS
}

#[test]
fn each_list_of_the_other_families_has_its_text(rt: HostRuntime) {
    for row in lists().iter() {
        shows(&rt, rt.alloc(), row);
    }
}
