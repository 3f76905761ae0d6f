//! The messages of an admin, built by name: each field has a value of its own. The greeting of an admin, and lists.
use crate::message::{add, long_text, same, spells, text, told, up_to};
use std::alloc::Global;
use std::process::Abort;
use std::test::*;
use tt_admin::{AdminMsg, CommandName, CommandNames, UpdateType, UpdateTypes};
use tt_frame::OutOfMemory;

#[test]
fn what_an_admin_says_has_its_fields(rt: HostRuntime) {
    let alloc = rt.alloc();
    let join = AdminMsg::AdminJoin {
        password: text(&rt, b"pw"),
        application: text(&rt, b"cli"),
        version: text(&rt, b"1"),
    };
    spells(&rt, alloc, &join, 0, b"pw\0cli\01\0");
    let asked = AdminMsg::AdminUpdateFrequency { kind: 3, bits: 64 };
    spells(&rt, alloc, &asked, 2, b"\x03\0\x40\0");
    let chat = AdminMsg::AdminExternalChat {
        source: text(&rt, b"web"),
        colour: 0x0201,
        user: text(&rt, b"Ann"),
        text: long_text(&rt, alloc, b"Hi"),
    };
    spells(&rt, alloc, &chat, 8, b"web\0\x01\x02Ann\0Hi\0");
}

#[test]
fn a_line_of_the_console_names_origin_and_text(rt: HostRuntime) {
    let line = AdminMsg::ServerConsole {
        origin: text(&rt, b"net"),
        text: long_text(&rt, rt.alloc(), b"up"),
    };
    spells(&rt, rt.alloc(), &line, 121, b"net\0up\0");
}

#[test]
fn a_welcome_names_its_texts_numbers_and_sides(rt: HostRuntime) {
    let welcome = AdminMsg::ServerWelcome {
        name: text(&rt, b"Game"),
        revision: text(&rt, b"13.4"),
        dedicated: true,
        map: text(&rt, b"Map"),
        seed: 1,
        landscape: 2,
        day: 3,
        width: 256,
        height: 512,
    };
    let body = b"Game\013.4\0\x01Map\0\x01\0\0\0\x02\x03\0\0\0\0\x01\0\x02";
    spells(&rt, rt.alloc(), &welcome, 104, body);
}

#[test]
fn a_company_names_itself_and_its_president(rt: HostRuntime) {
    let told = AdminMsg::ServerCompanyInfo {
        company: 1,
        name: text(&rt, b"Rails"),
        president: text(&rt, b"Ann"),
        password: true,
    };
    spells(&rt, rt.alloc(), &told, 114, b"\x01Rails\0Ann\0\x01");
    let changed = AdminMsg::ServerCompanyUpdate {
        company: 1,
        name: text(&rt, b"Rails"),
        president: text(&rt, b"Bob"),
        password: false,
    };
    spells(&rt, rt.alloc(), &changed, 115, b"\x01Rails\0Bob\0\0");
    let removed = AdminMsg::ServerCompanyRemove { id: 4, reason: 2 };
    spells(&rt, rt.alloc(), &removed, 116, b"\x04\x02");
}

#[test]
fn a_logged_command_names_its_client_and_its_frame(rt: HostRuntime) {
    let logged = AdminMsg::ServerCmdLogging {
        client: 1,
        company: 2,
        code: 3,
        frame: 4,
    };
    spells(
        &rt,
        rt.alloc(),
        &logged,
        127,
        b"\x01\0\0\0\x02\x03\0\x04\0\0\0",
    );
}

/// The greeting's first packet: version 3, and the ten types of which an admin may ask.
const PROTOCOL: &[u8] =
    b"\x37\0\x67\x03\x01\0\0\x3f\0\x01\x01\0\x41\0\x01\x02\0\x41\0\x01\x03\0\x3d\0\x01\x04\0\x3d\0\x01\x05\0\x40\0\
    \x01\x06\0\x40\0\x01\x07\0\x01\0\x01\x08\0\x40\0\x01\x09\0\x40\0\0";

fn ten_types(alloc: Global) -> Result<UpdateTypes, OutOfMemory> {
    let mut items = UpdateTypes::new(alloc);
    let mut kind = 0;
    for bits in [63, 65, 65, 61, 61, 64, 64, 1, 64, 64_u16] {
        add(&mut items, UpdateType { kind, bits })?;
        kind = kind.saturating_add(1);
    }
    Ok(items)
}

#[test]
fn the_protocol_packet_is_the_ten_types(rt: HostRuntime) -> Result<(), Fail> {
    let items = ten_types(rt.alloc())?;
    let last = items.as_slice().last().ok_or("a type")?;
    assert_eq!(rt; (items.len(), last.kind, last.bits), (10, 9, 64));
    let protocol = AdminMsg::ServerProtocol { version: 3, items };
    spells(
        &rt,
        rt.alloc(),
        &protocol,
        0x67,
        PROTOCOL.get(3..).unwrap_or(b""),
    );
    same(&rt, 0x67, &told(&rt, rt.alloc(), &protocol), PROTOCOL);
    Ok(())
}

/// The greeting's second packet.
const WELCOME: &[u8] = b"\x1c\0\x68Game\013.4\0\x01\0\0\0\0\0\0\0\0\0\0\0\x01\0\x01";

#[test]
fn the_welcome_packet_tells_the_game(rt: HostRuntime) {
    let welcome = AdminMsg::ServerWelcome {
        name: text(&rt, b"Game"),
        revision: text(&rt, b"13.4"),
        dedicated: true,
        map: text(&rt, b""),
        seed: 0,
        landscape: 0,
        day: 0,
        width: 256,
        height: 256,
    };
    spells(
        &rt,
        rt.alloc(),
        &welcome,
        0x68,
        WELCOME.get(3..).unwrap_or(b""),
    );
    same(&rt, 0x68, &told(&rt, rt.alloc(), &welcome), WELCOME);
}

fn two_commands<R: Abort>(rt: &R, alloc: Global) -> Result<CommandNames, OutOfMemory> {
    let mut items = CommandNames::new(alloc);
    let name = text(rt, b"IncreaseLoan");
    add(&mut items, CommandName { code: 0, name })?;
    let name = text(rt, b"Pause");
    add(&mut items, CommandName { code: 7, name })?;
    Ok(items)
}

#[test]
fn the_commands_of_a_game_have_names(rt: HostRuntime) -> Result<(), Fail> {
    let items = two_commands(&rt, rt.alloc())?;
    let last = items.as_slice().last().ok_or("a command")?;
    assert_eq!(rt; (items.len(), last.code), (2, 7));
    same(&rt, 122, last.name.bytes(), b"Pause");
    let message = AdminMsg::ServerCmdNames { items };
    let packet = b"\x1d\0\x7a\x01\0\0IncreaseLoan\0\x01\x07\0Pause\0\0";
    spells(&rt, rt.alloc(), &message, 122, &packet[3..]);
    same(&rt, 122, &told(&rt, rt.alloc(), &message), packet);
    Ok(())
}

/// Three messages, one behind the other.
fn three<R: Abort>(rt: &R, out: &mut Vec<u8>) -> Result<(), OutOfMemory> {
    AdminMsg::ServerError {
        code: up_to(rt, 10),
    }
    .encode(out)?;
    AdminMsg::ServerPong { id: 0x1234_5678 }.encode(out)?;
    AdminMsg::ServerShutdown.encode(out)
}

#[test]
fn packets_are_appended(rt: HostRuntime) -> Result<(), Fail> {
    let mut out = Vec::new(rt.alloc());
    three(&rt, &mut out)?;
    same(
        &rt,
        102,
        &out,
        b"\x04\0\x66\x0a\x07\0\x7e\x78\x56\x34\x12\x03\0\x6a",
    );
    Ok(())
}
