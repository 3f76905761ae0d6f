//! A stream cut into what begins in it: packets with their messages, and a bad size.
ghost use Rattle.std.specs.Prelude.{◌≡◌, ◌≤◌, ℕ, [], length, drop, IfOk, IsTrue};
ghost use Rattle.tt_log.specs.Events.{read_msg};
ghost use Rattle.tt_client.specs.Cutting.{cut_at};

use std::alloc::Global;
use std::marker::Model;
use tt_frame::{Bad, LARGEST_PACKET, Next, OutOfMemory, first_of};
use tt_game::GameMsg;

/// What begins at a byte of a stream.
#[derive(Drop)]
pub struct Item {
    /// The place of that byte, the first one being 0. A place that 64 bits can't hold is told as the last one that they can.
    pub at: u64,
    /// The message that the packet spells. None where it spells none, or where a bad size begins there.
    pub msg: Option<GameMsg>,
}

impl Model for Item {
    ghost use Rattle.std.specs.Prelude.{◌<◌, ◌^◌};
    ghost use Rattle.tt_log.specs.Shown.{Item};

    ghost Value = { Item };

    ghost view = { λ i. record { at = i.at; msg = i.msg } };

    ghost invariant = { λ i. i.at < 2 ^ 64 };
}

/// How far bytes were read.
#[derive(Clone, Copy, Debug, PartialEq, Eq)]
pub struct Read {
    /// So many of the bytes were read.
    pub end: usize,
    /// The place of the stream at which the unread ones begin.
    pub at: u64,
}

/// Bytes that were cut.
#[derive(Drop)]
pub struct Pieces {
    /// What begins in them, one behind the other.
    pub(crate) items: Vec<Item>,
    /// So many of the bytes were read.
    pub(crate) end: usize,
    /// The place at which the unread ones begin.
    pub(crate) at: u64,
}

/// Whether nothing is whole in these bytes: no packet, and no bad size.
pub(crate) fn is_partial(bytes: &[u8]) -> bool
    ensures none { IsTrue result → (at : ℕ) → record { items = []; rest = bytes.now; at = at } ≡ cut_at at bytes.now }
{
    matches!(first_of(bytes, LARGEST_PACKET), Next::Partial)
}

/// The message that a packet spells.
pub(crate) fn message_of(
    alloc: Global,
    kind: u8,
    body: &[u8],
) -> Result<Option<GameMsg>, OutOfMemory>
    ensures message { IfOk result (λ msg. msg ≡ read_msg kind body.now) }
{
    match GameMsg::decode(alloc, kind, body) {
        Ok(msg) => Ok(Some(msg)),
        Err(Bad::Malformed { .. }) => Ok(None),
        Err(Bad::Memory) => Err(OutOfMemory),
    }
}

/// Cuts bytes of which the first stands at a place of their stream. Behind a bad size nothing is left unread.
pub(crate) fn cut(alloc: Global, bytes: &[u8], at: u64) -> Result<Pieces, OutOfMemory>
    ensures cut { IfOk result (λ p. record { items = p.items.items; rest = drop p.end bytes.now; at = p.at } ≡ cut_at at bytes.now) }
    ensures within { IfOk result (λ p. p.end ≤ length bytes.now) }
{
    let mut items = Vec::new(alloc);
    let mut end = 0;
    let mut place = at;
    'packets: while end < bytes.len() {
        match first_of(&bytes[end..], LARGEST_PACKET) {
            Next::Packet { kind, body } => {
                let msg = message_of(alloc, kind, body)?;
                items.push(Item { at: place, msg })?;
                place = place.saturating_add(body.len() as u64 + 3);
                end += body.len() + 3;
            }
            Next::Partial => {
                return Ok(Pieces {
                    items,
                    end,
                    at: place,
                });
            }
            Next::BadSize(_) => {
                items.push(Item {
                    at: place,
                    msg: None,
                })?;
                return Ok(Pieces {
                    items,
                    end: bytes.len(),
                    at: place,
                });
            }
        }
    }
    Ok(Pieces {
        items,
        end,
        at: place,
    })
}
