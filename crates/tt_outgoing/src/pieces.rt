//! Pieces of a map, as messages.
ghost use Rattle.std.specs.Prelude.{◌≡◌, ℕ, ◌≤◌, List, IfOk, length, map, take, nat_lt};
ghost use Rattle.tt_log.specs.Tick.{pieces_of};
ghost use Rattle.tt_game.specs.declared.message.GameMsg.TheVariants.{ServerMapData};
ghost use Rattle.tt_log.specs.Tellings.{piece_messages};
ghost use Rattle.tt_outgoing.specs.Sources.{four_pieces};

use std::alloc::Global;
use tt_frame::OutOfMemory;
use tt_game::{GameMsg, MapPiece};

/// How many bytes of a map a message brings at most.
const LONGEST: usize = 1_400;

/// How many messages a tick tells at most.
const FOUR: usize = 4;

/// The bytes that a tick tells as messages of 1,400 at most, and behind the last byte of the map that it is done.
pub(crate) fn piece_messages(
    alloc: Global,
    next: &[u8],
    more: bool,
) -> Result<Vec<GameMsg>, OutOfMemory>
    ensures pieces { IfOk result (λ messages. (left : List ℕ) → next.now ≡ take four_pieces left
        → more ≡ nat_lt four_pieces (length left) → messages.items ≡ piece_messages left) }
{
    let mut messages = data_messages(alloc, next)?;
    if more {
        return Ok(messages);
    }
    messages.push(GameMsg::ServerMapDone)?;
    Ok(messages)
}

/// The first four pieces of bytes, as messages.
fn data_messages(alloc: Global, bytes: &[u8]) -> Result<Vec<GameMsg>, OutOfMemory>
    ensures pieces { IfOk result (λ messages. messages.items ≡ map ServerMapData (pieces_of 4 bytes.now)) }
{
    let mut messages = Vec::new(alloc);
    let mut rest = bytes;
    for i in 0..FOUR {
        if rest.is_empty() {
            return Ok(messages);
        }
        let size = rest.len().min(LONGEST);
        let (piece, others) = rest.split_at(size);
        messages.push(piece_of(alloc, piece)?)?;
        rest = others;
    }
    Ok(messages)
}

/// One piece, as a message.
fn piece_of(alloc: Global, bytes: &[u8]) -> Result<GameMsg, OutOfMemory>
    requires size { (1 ≤ length bytes.now) × (length bytes.now ≤ 1400) }
    ensures piece { IfOk result (λ message. message ≡ ServerMapData bytes.now) }
{
    match MapPiece::new(alloc, bytes)? {
        Some(rest) => Ok(GameMsg::ServerMapData { rest }),
        None => unreachable!(),
    }
}
