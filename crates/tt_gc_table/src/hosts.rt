//! Hosts: four decimal numbers with dots.
ghost use Rattle.std.specs.Prelude.{◌≡◌, [], ◌∷◌, IfOk};
ghost use Rattle.tt_gc_table.specs.Meetings.{dotted, host_text};

use std::alloc::Global;
use tt_edge::Peer;
use tt_frame::{OutOfMemory, Text};
use tt_lines::{put, put_number};

/// The host of an address.
pub fn host_text(alloc: Global, peer: Peer) -> Result<Text<31>, OutOfMemory>
    ensures { IfOk result (λ text. text ≡ host_text peer) }
{
    let [first, second, third, fourth] = peer.host;
    dotted(alloc, first, second, third, fourth)
}

/// Four numbers with dots.
fn dotted(
    alloc: Global,
    first: u8,
    second: u8,
    third: u8,
    fourth: u8,
) -> Result<Text<31>, OutOfMemory>
    ensures { IfOk result (λ text. text ≡ dotted (first ∷ second ∷ third ∷ fourth ∷ [])) }
{
    let mut bytes = Vec::new(alloc);
    put_number(&mut bytes, first)?;
    put(&mut bytes, b".")?;
    put_number(&mut bytes, second)?;
    put(&mut bytes, b".")?;
    put_number(&mut bytes, third)?;
    put(&mut bytes, b".")?;
    put_number(&mut bytes, fourth)?;
    match Text::new(bytes.as_slice()) {
        Some(text) => Ok(text),
        None => unreachable!(),
    }
}
