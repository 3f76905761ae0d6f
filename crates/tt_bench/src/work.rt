//! The work that is measured.
ghost use Rattle.std.specs.Prelude.{◌<◌, ◌≤◌, ◌≡◌, length};

use std::alloc::Global;
use tt_edge::{Core, Event};
use tt_frame::{Framer, Next, OutOfMemory};
use tt_game::GameMsg;
use tt_hub::Hub;
use tt_world::Setup;

/// The largest packet that is read.
const READER_LIMIT: u16 = 32_767;

/// The join packet of a client named Ann.
const JOIN: &[u8] = b"\x11\0\x0213.4\0\x0d\0\0\0Ann\0\xff";

/// A stream of so many join packets.
pub fn joins(alloc: Global, count: u32) -> Result<Vec<u8>, OutOfMemory> {
    let mut stream = Vec::new(alloc);
    for _ in 0..count {
        stream.extend_from_slice(JOIN)?;
    }
    Ok(stream)
}

/// Packets with every kind of field, as a game tells and hears them: a join, an acknowledgement, a frame, a word, a
/// command, a chat, a member, a digest and a piece of a map.
const MIXED: [&[u8]; 9] = [
    JOIN,
    b"\x08\0\x17\x4a\0\0\0\0",
    b"\x0c\0\x15\x01\0\0\0\x01\0\0\0\xff",
    b"\x0b\0\x16\x64\0\0\0\x38\xd4\xbf\x7a",
    b"\x14\0\x19\0\0\0\x10\x27\0\0\0\0\x08\0\0\0\x02\0\0\0",
    b"\x0e\0\x1b\x03\0\0\0\0Hello\0",
    b"\x0c\0\x1d\x03\0\0\0\xffBob\0",
    b"\x24\0\x090123456789abcdef0123456789abcdef\0",
    b"\x0b\0\x11OTTN\0\x01\0\0",
];

/// A stream of so many packets of all these kinds in turn.
pub fn mixed(alloc: Global, count: u32) -> Result<Vec<u8>, OutOfMemory> {
    let mut stream = Vec::new(alloc);
    for number in 0..count as usize {
        stream.extend_from_slice(MIXED[number % MIXED.len()])?;
    }
    Ok(stream)
}

/// Goes over a stream in a plain loop; answers how many of its bytes aren't 0.
pub fn gone_over(stream: &[u8]) -> u64 {
    let mut count = 0u64;
    for byte in stream {
        if *byte != 0 {
            count = count.saturating_add(1);
        }
    }
    count
}

/// Cuts a stream that comes in pieces of this size, and decodes and encodes each packet; answers how many there were.
pub fn messages(alloc: Global, stream: &[u8], size: usize) -> Result<u64, OutOfMemory>
    requires { 0 < size }
{
    let mut framer = Framer::new(alloc, READER_LIMIT)?;
    let mut out = Vec::new(alloc);
    let mut count = 0u64;
    for piece in stream.chunks(size) {
        framer.feed(piece);
        for _ in 0..piece.len() {
            match framer.next() {
                Next::Packet { kind, body } => {
                    count = count.saturating_add(again(alloc, kind, body, &mut out)?);
                }
                Next::Partial | Next::BadSize(_) => break,
            }
        }
    }
    Ok(count)
}

/// Decodes a packet and encodes its message; answers 1 for a message.
fn again(alloc: Global, kind: u8, body: &[u8], out: &mut Vec<u8>) -> Result<u64, OutOfMemory> {
    match GameMsg::decode(alloc, kind, body) {
        Ok(message) => {
            out.clear();
            message.encode(out)?;
            Ok(1)
        }
        Err(_) => Ok(0),
    }
}

/// Runs so many frames of a game; answers how many were run.
pub fn frames(alloc: Global, count: u32) -> Result<u64, OutOfMemory> {
    let mut hub = Hub::new(alloc, &Setup::plain())?;
    for _ in 0..count {
        if hub.event(Event::Tick).is_err() {
            break;
        }
    }
    Ok(u64::from(hub.frame()))
}
