//! The messages of the coordinator, of its STUN desk and of its TURN server, built by name: each field has a value of its own.
//! Lists of servers and of files.
use crate::message::{add, same, spells, text, told, up_to};
use std::alloc::Global;
use std::process::Abort;
use std::test::*;
use tt_coord::{CoordMsg, Info, Listed, LookupFile, LookupFiles, Servers, StunMsg, TurnMsg};
use tt_frame::OutOfMemory;

fn game<R: Abort>(rt: &R, companies: u8, frame: u32) -> Info {
    Info {
        name: text(rt, b"Game"),
        revision: text(rt, b"13.4"),
        clients: 2,
        max: 15,
        companies,
        password: true,
        frame,
    }
}

fn one_server<R: Abort>(rt: &R, alloc: Global) -> Result<Servers, OutOfMemory> {
    let mut items = Servers::new(alloc);
    let code = text(rt, b"+9ZDDVF");
    let info = game(rt, 1, 9);
    add(&mut items, Listed { code, info })?;
    Ok(items)
}

#[test]
fn a_listing_is_a_list_of_servers(rt: HostRuntime) -> Result<(), Fail> {
    let items = one_server(&rt, rt.alloc())?;
    let server = items.as_slice().first().ok_or("a server")?;
    same(&rt, 5, server.code.bytes(), b"+9ZDDVF");
    assert!(rt; server.info == game(&rt, 1, 9));
    assert_eq!(rt; items.len(), 1);
    let listing = CoordMsg::GcListing { items };
    let packet = b"\x1f\0\x05\x01\0+9ZDDVF\0Game\013.4\0\x02\x0f\x01\x01\x09\0\0\0";
    spells(&rt, rt.alloc(), &listing, 5, &packet[3..]);
    same(&rt, 5, &told(&rt, rt.alloc(), &listing), packet);
    Ok(())
}

#[test]
fn an_empty_listing_ends_the_list(rt: HostRuntime) {
    let items = Servers::new(rt.alloc());
    let listing = CoordMsg::GcListing { items };
    spells(&rt, rt.alloc(), &listing, 5, b"\0\0");
    same(&rt, 5, &told(&rt, rt.alloc(), &listing), b"\x05\0\x05\0\0");
}

#[test]
fn an_update_tells_the_game(rt: HostRuntime) {
    let update = CoordMsg::ServerUpdate {
        info: game(&rt, 1, 9),
    };
    let body = b"\x01Game\013.4\0\x02\x0f\x01\x01\x09\0\0\0";
    spells(&rt, rt.alloc(), &update, 3, body);
    let update = CoordMsg::ServerUpdate {
        info: game(&rt, 3, 4),
    };
    let body = b"\x01Game\013.4\0\x02\x0f\x03\x01\x04\0\0\0";
    spells(&rt, rt.alloc(), &update, 3, body);
}

fn one_file<R: Abort>(rt: &R, alloc: Global) -> Result<LookupFiles, OutOfMemory> {
    let mut items = LookupFiles::new(alloc);
    let file = LookupFile {
        index: 7,
        id: 8,
        sum: *b"0123456789abcdef",
        name: text(rt, b"file"),
    };
    add(&mut items, file)?;
    Ok(items)
}

#[test]
fn a_lookup_is_a_list_of_files(rt: HostRuntime) -> Result<(), Fail> {
    let items = one_file(&rt, rt.alloc())?;
    let file = items.as_slice().first().ok_or("a file")?;
    assert_eq!(rt; (items.len(), file.index, file.id), (1, 7, 8));
    same(&rt, 15, &file.sum, b"0123456789abcdef");
    same(&rt, 15, file.name.bytes(), b"file");
    let body = b"\x01\x07\0\0\0\x08\0\0\x000123456789abcdeffile\0";
    spells(
        &rt,
        rt.alloc(),
        &CoordMsg::GcNewgrfLookup { items },
        15,
        body,
    );
    Ok(())
}

#[test]
fn a_registration_names_code_and_secret(rt: HostRuntime) {
    let asked = CoordMsg::ServerRegister {
        kind: 1,
        port: 0x0302,
        code: text(&rt, b"+A"),
        secret: text(&rt, b"s"),
    };
    spells(&rt, rt.alloc(), &asked, 1, b"\x01\x01\x02\x03+A\0s\0");
    let told = CoordMsg::GcRegisterAck {
        code: text(&rt, b"+A"),
        secret: text(&rt, b"s"),
        way: up_to(&rt, 4),
    };
    spells(&rt, rt.alloc(), &told, 2, b"+A\0s\0\x04");
}

#[test]
fn an_attempt_and_its_ways_name_their_texts(rt: HostRuntime) {
    let connecting = CoordMsg::GcConnecting {
        token: text(&rt, b"7"),
        code: text(&rt, b"+A"),
    };
    spells(&rt, rt.alloc(), &connecting, 7, b"7\0+A\0");
    let direct = CoordMsg::GcDirectConnect {
        token: text(&rt, b"7"),
        tracking: 1,
        host: text(&rt, b"h"),
        port: 0x0302,
    };
    spells(&rt, rt.alloc(), &direct, 11, b"7\0\x01h\0\x02\x03");
}

#[test]
fn the_other_ways_name_their_texts(rt: HostRuntime) {
    let stun = CoordMsg::GcStunConnect {
        token: text(&rt, b"7"),
        tracking: 2,
        side: up_to(&rt, 1),
        host: text(&rt, b"h"),
        port: 0x0302,
    };
    spells(&rt, rt.alloc(), &stun, 14, b"7\0\x02\x01h\0\x02\x03");
    let turn = CoordMsg::GcTurnConnect {
        token: text(&rt, b"7"),
        tracking: 3,
        ticket: text(&rt, b"t"),
        host: text(&rt, b"h"),
    };
    spells(&rt, rt.alloc(), &turn, 16, b"7\0\x03t\0h\0");
}

#[test]
fn the_stun_desk_is_told_a_token_and_a_side(rt: HostRuntime) {
    let token = text(&rt, b"tok1");
    let side = up_to(&rt, 1);
    let message = StunMsg::SercliStun { token, side };
    spells(&rt, rt.alloc(), &message, 0, b"\x01tok1\0\x01");
    same(
        &rt,
        0,
        &told(&rt, rt.alloc(), &message),
        b"\x0a\0\0\x01tok1\0\x01",
    );
}

#[test]
fn the_turn_server_is_told_a_ticket(rt: HostRuntime) {
    let ticket = text(&rt, b"tok1");
    let message = TurnMsg::SercliConnect { ticket };
    spells(&rt, rt.alloc(), &message, 1, b"\x01tok1\0");
    same(
        &rt,
        1,
        &told(&rt, rt.alloc(), &message),
        b"\x09\0\x01\x01tok1\0",
    );
}
