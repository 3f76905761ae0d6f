//! What is told to many connections: once for all of them, and once for each.
ghost use Rattle.std.specs.Prelude.{◌≡◌, ◌<◌, ◌≤◌, ◌+◌, ◌*◌, ℕ, IfOk, length, slice_index_or};
ghost use Rattle.tt_outgoing.specs.Waiting.{opened};

use std::alloc::Global;
use tt_frame::OutOfMemory;
use tt_outgoing::Outs;

/// So many connections are told each packet, as many as a game may have clients.
const CONNS: u32 = 255;

/// A chat of client 2 for all, of 100 bytes.
const CHAT: [u8; 100] =
    *b"\x64\0\x1b\x02\0\0\0\0Four lorries wait at the coal mine, as the train that should come stands before a red light\0";

/// What is told before it is taken has at most so many bytes: a packet for each connection.
const MOST_BYTES: usize = 25_500;

/// Tells a packet so many times to all connections at once, which take it each time; answers how many bytes they took.
pub fn shared(alloc: Global, count: u32) -> Result<u64, OutOfMemory> {
    let (mut outs, conns) = all_opened(alloc)?;
    let mut taken = 0u64;
    for _ in 0..count {
        outs.reserve(CHAT.len(), conns.len())?;
        outs.share(conns.as_slice(), &CHAT);
        taken = taken.saturating_add(take_all(&mut outs));
    }
    Ok(taken)
}

/// Tells a packet so many times to each connection alone, which take it each time; answers how many bytes they took.
pub fn owned(alloc: Global, count: u32) -> Result<u64, OutOfMemory> {
    let (mut outs, conns) = all_opened(alloc)?;
    let mut taken = 0u64;
    for _ in 0..count {
        outs.reserve(MOST_BYTES, conns.len())?;
        own_all(&mut outs);
        taken = taken.saturating_add(take_all(&mut outs));
    }
    Ok(taken)
}

/// All connections, opened, and their numbers.
fn all_opened(alloc: Global) -> Result<(Outs, Vec<u32>), OutOfMemory>
    ensures opened { IfOk result (λ made. opened made.0 ≡ 255) }
    ensures count { IfOk result (λ made. length made.1.items ≡ 255) }
    ensures numbers { IfOk result (λ made. (i : ℕ) → i < 255 → slice_index_or made.1.items i 0 ≡ i + 1) }
{
    let mut outs = Outs::new(alloc);
    let mut conns = Vec::new(alloc);
    for _ in 0..CONNS {
        conns.push(outs.add()?)?;
    }
    Ok((outs, conns))
}

/// Tells the packet to each connection.
fn own_all(outs: &mut Outs)
    requires opened { opened outs.old ≡ 255 }
    requires bytes { 25500 ≤ outs.old.bytes }
    requires parts { 255 ≤ outs.old.parts }
    ensures opened { opened outs.new ≡ 255 }
{
    for conn in 1..=CONNS {
        outs.own(conn, &CHAT);
    }
}

/// Takes what waits for each connection; answers how many bytes that were.
fn take_all(outs: &mut Outs) -> u64
    requires opened { opened outs.old ≡ 255 }
    ensures opened { opened outs.new ≡ 255 }
{
    let mut room = [0; CHAT.len()];
    let mut taken = 0u64;
    for conn in 1..=CONNS {
        taken = taken.saturating_add(outs.take(conn, &mut room) as u64);
    }
    taken
}
