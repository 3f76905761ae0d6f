//! The text of the packets of some bytes.
ghost use Rattle.std.specs.Prelude.{◌≡◌, ◌++◌, ◌<◌, ◌≤◌, ◌-◌, length, drop, OnOk, OnErr};
ghost use Rattle.std.specs.Fmt.{decimal};
ghost use Rattle.tt_show.specs.Streams.{bad_text, partial_text, bytes_shown};

use crate::family::Family;
use crate::packet::show_packet;
use std::alloc::Global;
use tt_frame::{Bad, LARGEST_PACKET, Next, OutOfMemory, first_of};
use tt_lines::{put, put_number};

/// Appends that what stands at that place is no packet, or one that spells nothing.
fn put_bad(text: &mut Vec<u8>, place: usize) -> Result<(), OutOfMemory>
    ensures text { OnOk result (text.new.items ≡ text.old.items ++ bad_text place) }
{
    put(text, b"bad at ")?;
    put_number(text, place)?;
    put(text, b"\n")?;
    Ok(())
}

/// Appends how many bytes of a packet that has more stand at the end.
fn put_partial(text: &mut Vec<u8>, rest: &[u8]) -> Result<(), OutOfMemory>
    ensures text { OnOk result (text.new.items ≡ text.old.items ++ partial_text rest.now) }
{
    if rest.is_empty() {
        return Ok(());
    }
    put(text, b"partial ")?;
    put_number(text, rest.len())?;
    put(text, b"\n")?;
    Ok(())
}

/// Appends the lines of the packets, up to the first that is bad.
fn put_packets(
    alloc: Global,
    text: &mut Vec<u8>,
    family: Family,
    bytes: &[u8],
) -> Result<(), OutOfMemory>
    ensures text { OnOk result (text.new.items ≡ text.old.items ++ bytes_shown family bytes.now) }
{
    let mut place = 0;
    'packets: while place < bytes.len() {
        let rest = &bytes[place..];
        match first_of(rest, LARGEST_PACKET) {
            Next::Packet { kind, body } => {
                match show_packet(alloc, text, family, kind, body) {
                    Ok(()) => {}
                    Err(Bad::Malformed { .. }) => return put_bad(text, place),
                    Err(Bad::Memory) => return Err(OutOfMemory),
                }
                place += body.len() + 3;
            }
            Next::Partial => return put_partial(text, rest),
            Next::BadSize(_) => return put_bad(text, place),
        }
    }
    Ok(())
}

/// Appends the text of some bytes of a stream: a line for each packet; `bad at P` where none stands at the place `P`, or
/// one that spells no message of the family, which ends the text; and `partial N` for N bytes of a packet that has more.
/// Nothing is appended where memory runs out.
pub fn show_bytes(
    alloc: Global,
    text: &mut Vec<u8>,
    family: Family,
    bytes: &[u8],
) -> Result<(), OutOfMemory>
    ensures text { OnOk result (text.new.items ≡ text.old.items ++ bytes_shown family bytes.now) }
    ensures same { OnErr result (text.new.items ≡ text.old.items) }
{
    let mut shown = Vec::new(alloc);
    put_packets(alloc, &mut shown, family, bytes)?;
    put(text, &shown)
}
