//! Each message at each place of the dialogue, against the state to which it leads.
use crate::players::{JOIN, ann, joined};
use std::alloc::Global;
use std::test::Fail;
use tt_client::State;

/// How many bytes of the join were fed: before the welcome; behind it; behind the beginning of the map, and behind its size;
/// behind its bytes, before it is told to be whole; and in the game.
const PLACES: [usize; 6] = [0, 14, 21, 28, 96, 111];

/// Packets that are permitted at this place alone, and the state to which they lead there. Anywhere else they are wrong.
struct Group {
    place: usize,
    then: State,
    packets: &'static [&'static [u8]],
}

/// One packet of each message at least, but for an error and the end of the game, which may come at any place.
const GROUPS: [Group; 9] = [
    Group {
        place: 0,
        then: State::Ended(14),
        packets: &[b"\x03\0\0"],
    },
    Group {
        place: 0,
        then: State::Ended(12),
        packets: &[b"\x03\0\x01"],
    },
    Group {
        place: 0,
        then: State::Joining,
        packets: &[
            b"\x0c\0\x05\0\xff\xff\xff\xff\x02\x01\x0f\x01",
            b"\x04\0\x06\0",
            b"\x0a\0\x08\x01\0\0\0tt\0",
            b"\x0a\0\x0a\x01\0\0\0tt\0",
            b"\x0e\0\x0c\x02\0\0\0\0\0\0\0tt\0",
        ],
    },
    Group {
        place: 14,
        then: State::Joining,
        packets: &[b"\x04\0\x0e\x01", b"\x07\0\x0f\0\0\0\0"],
    },
    Group {
        place: 21,
        then: State::Joining,
        packets: &[b"\x07\0\x10\x41\0\0\0", b"\x07\0\x10\0\0\x01\0"],
    },
    Group {
        place: 28,
        then: State::Joining,
        packets: &[b"\x04\0\x11\0"],
    },
    Group {
        place: 96,
        then: State::Running,
        packets: &[b"\x03\0\x12"],
    },
    Group {
        place: 111,
        then: State::Running,
        packets: &[
            b"\x07\0\x14\x02\0\0\0",
            b"\x0c\0\x15\0\0\0\0\x01\0\0\0\0",
            b"\x0b\0\x16\x01\0\0\0\x01\0\0\0",
            b"\x14\0\x19\xff\x08\0\0\0\0\0\0\0\x02\0\0\0\x01\0\0\0",
            b"\x09\0\x1b\x02\0\0\0\0\0",
            b"\x09\0\x1d\x02\0\0\0\xff\0",
            b"\x08\0\x20\x02\0\0\0\xff",
            b"\x08\0\x22\x02\0\0\0\0",
            b"\x07\0\x24\x02\0\0\0",
        ],
    },
    Group {
        place: JOIN.len() + 1,
        then: State::Joining,
        packets: &NEVER,
    },
];

/// Packets that no client is permitted to hear: what clients say; what is never sent; files, a password without an id, a map
/// past 65,536 bytes, a frame past the greatest permitted one, a fall of that one, and commands that are late or unknown; what
/// spells no message; and bad sizes.
const NEVER: [&[u8]; 29] = [
    b"\x0a\0\x02\0\x0d\0\0\0\0\xff",
    b"\x03\0\x04",
    b"\x03\0\x07",
    b"\x24\0\x090123456789abcdef0123456789abcdef\0",
    b"\x24\0\x0b0123456789abcdef0123456789abcdef\0",
    b"\x03\0\x0d",
    b"\x03\0\x13",
    b"\x08\0\x17\0\0\0\0\0",
    b"\x0c\0\x18\xff\x08\0\0\0\0\0\0\0",
    b"\x09\0\x1a\0\0\0\0\0\0",
    b"\x04\0\x1c\0",
    b"\x04\0\x1e\0",
    b"\x05\0\x1f\xff\0",
    b"\x04\0\x21\0",
    b"\x03\0\x23",
    b"\x03\0\x26",
    b"\x18\0\x06\x01\x07\0\0\0\0\x01\x02\x03\x04\x05\x06\x07\x08\x09\x0a\x0b\x0c\x0d\x0e\x0f",
    b"\x08\0\x08\x01\0\0\0\0",
    b"\x07\0\x10\x01\0\x01\0",
    b"\x0c\0\x15\x02\0\0\0\x01\0\0\0\0",
    b"\x0c\0\x15\0\0\0\0\0\0\0\0\0",
    b"\x14\0\x19\xff\x08\0\0\0\0\0\0\0\x01\0\0\0\x01\0\0\0",
    b"\x14\0\x19\xff\x09\0\0\0\0\0\0\0\x02\0\0\0\x01\0\0\0",
    b"\x03\0\x11",
    b"\x03\0\x27",
    b"\x04\0\0\0",
    b"\x04\0\x03\x15",
    b"\x02\0",
    b"\xff\xff",
];

/// The error 7, and that the game is over.
const ERROR: [u8; 4] = [4, 0, 3, 7];

const SHUTDOWN: [u8; 3] = [3, 0, 37];

/// How a client stands that was fed so many bytes of its join, and then a packet.
fn state_behind(alloc: Global, place: usize, packet: &[u8]) -> Result<State, Fail> {
    let mut client = ann(alloc)?;
    client.feed(JOIN.get(..place).ok_or("a place")?)?;
    client.feed(packet)?;
    Ok(client.state())
}

/// Whether a packet of a group leads where it should, at each place.
fn is_as_said(alloc: Global, group: &Group, packet: &[u8]) -> Result<bool, Fail> {
    for place in PLACES {
        let wrong = State::Wrong { at: place as u64 };
        let wanted = if place == group.place {
            group.then
        } else {
            wrong
        };
        if state_behind(alloc, place, packet)? != wanted {
            return Ok(false);
        }
    }
    Ok(true)
}

/// The first packet of a group that does not.
fn first_astray(alloc: Global, group: &Group) -> Result<Option<&'static [u8]>, Fail> {
    for packet in group.packets {
        if !is_as_said(alloc, group, packet)? {
            return Ok(Some(packet));
        }
    }
    Ok(None)
}

#[test]
fn each_message_is_permitted_at_its_place_alone(rt: HostRuntime) -> Result<(), Fail> {
    for group in &GROUPS {
        assert_eq!(rt; first_astray(rt.alloc(), group)?, None);
    }
    Ok(())
}

#[test]
fn an_error_ends_it_at_each_place(rt: HostRuntime) -> Result<(), Fail> {
    for place in PLACES {
        assert_eq!(rt; state_behind(rt.alloc(), place, &ERROR)?, State::Ended(7));
    }
    Ok(())
}

#[test]
fn the_end_of_the_game_ends_it_at_each_place(rt: HostRuntime) -> Result<(), Fail> {
    for place in PLACES {
        assert_eq!(rt;
            state_behind(rt.alloc(), place, &SHUTDOWN)?,
            State::Shutdown
        );
    }
    Ok(())
}

#[test]
fn behind_its_end_it_forgets_what_it_is_fed(rt: HostRuntime) -> Result<(), Fail> {
    let mut client = joined(rt.alloc())?;
    client.feed(&ERROR)?;
    for packet in NEVER {
        client.feed(packet)?;
        assert_eq!(rt; client.state(), State::Ended(7));
    }
    assert_eq!(rt; client.advance(9), 0);
    Ok(())
}
