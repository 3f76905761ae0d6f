//! The packets of a stream, cut and decoded and nothing else: what a client of that stream can't do without.
ghost use Rattle.std.specs.Prelude.{◌<◌};

use std::alloc::Global;
use tt_frame::{Framer, LARGEST_PACKET, Next, OutOfMemory};
use tt_game::GameMsg;

/// Cuts a stream that comes in pieces of this size, and decodes each packet; answers how many messages there were.
pub fn decoded(alloc: Global, stream: &[u8], size: usize) -> Result<u64, OutOfMemory>
    requires { 0 < size }
{
    let mut framer = Framer::new(alloc, LARGEST_PACKET)?;
    let mut count = 0u64;
    for piece in stream.chunks(size) {
        framer.feed(piece);
        for _ in 0..piece.len() {
            match framer.next() {
                Next::Packet { kind, body } => {
                    count = count.saturating_add(messages_in(alloc, kind, body));
                }
                Next::Partial | Next::BadSize(_) => break,
            }
        }
    }
    Ok(count)
}

/// How many messages a packet spells: one, or none.
fn messages_in(alloc: Global, kind: u8, body: &[u8]) -> u64 {
    match GameMsg::decode(alloc, kind, body) {
        Ok(_) => 1,
        Err(_) => 0,
    }
}
