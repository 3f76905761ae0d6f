//! The line of one packet.
ghost use Rattle.std.specs.Prelude.{◌≡◌, ℕ, OnOk, OnErr, Err, None};
ghost use Rattle.tt_frame.specs.Packet.{Packet};
ghost use Rattle.tt_frame.specs.declared.bad.Bad.TheVariants.{Malformed};
ghost use Rattle.tt_show.specs.Packets.{packet_text, PacketStops, Appends};

use crate::family::Family;
use crate::shown::put_line;
use crate::words::Line;
use std::alloc::Global;
use tt_admin::AdminMsg;
use tt_coord::{CoordMsg, StunMsg, TurnMsg};
use tt_frame::Bad;
use tt_game::GameMsg;
use tt_lines::put;

/// Appends the line of a packet of that family, or a part of it where memory runs out.
fn put_packet(
    alloc: Global,
    line: &mut Line,
    family: Family,
    kind: u8,
    body: &[u8],
) -> Result<(), Bad>
    ensures shown { OnOk result (Appends (packet_text family (record { kind = kind; body = body.now }))
        line.old.text.items line.new.text.items) }
    ensures nothing { (at : ℕ) → result ≡ Err (Malformed at) → packet_text family (record { kind = kind; body = body.now }) ≡ None }
    ensures place { (at : ℕ) → result ≡ Err (Malformed at) → PacketStops family (record { kind = kind; body = body.now }) at }
{
    match family {
        Family::Game => put_line::<GameMsg>(alloc, line, kind, body),
        Family::Admin => put_line::<AdminMsg>(alloc, line, kind, body),
        Family::Coord => put_line::<CoordMsg>(alloc, line, kind, body),
        Family::Stun => put_line::<StunMsg>(alloc, line, kind, body),
        Family::Turn => put_line::<TurnMsg>(alloc, line, kind, body),
    }
}

/// Appends the line of a packet: the message's name and a word for each of its values. Nothing is appended where the
/// packet spells no message of the family, or where memory runs out.
pub fn show_packet(
    alloc: Global,
    text: &mut Vec<u8>,
    family: Family,
    kind: u8,
    body: &[u8],
) -> Result<(), Bad>
    ensures shown { OnOk result (Appends (packet_text family (record { kind = kind; body = body.now })) text.old.items text.new.items) }
    ensures nothing { (at : ℕ) → result ≡ Err (Malformed at) → packet_text family (record { kind = kind; body = body.now }) ≡ None }
    // The place is that of the first field that isn't there, or of the first byte behind the last one.
    ensures place { (at : ℕ) → result ≡ Err (Malformed at) → PacketStops family (record { kind = kind; body = body.now }) at }
    ensures same { OnErr result (text.new.items ≡ text.old.items) }
{
    let mut line = Line {
        text: Vec::new(alloc),
        alloc,
    };
    if let Err(e) = put_packet(alloc, &mut line, family, kind, body) {
        return Err(e);
    }
    match put(text, &line.text) {
        Ok(()) => Ok(()),
        Err(_) => Err(Bad::Memory),
    }
}
