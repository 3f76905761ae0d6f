//! Bytes as pairs of hexadecimal digits, as the words of a line are read.
ghost use Rattle.tt_log.specs.Rows.{hex_in, BytesRead};

use crate::script::bad::NoLine;
use crate::script::bytes::Bytes;
use std::alloc::Global;
use tt_lines::piece_of;

/// The bytes that a word spells.
pub fn hex_of(alloc: Global, word: &[u8]) -> Result<Bytes, NoLine>
    ensures read { BytesRead result (hex_in word.now) }
{
    match piece_of(alloc, word)? {
        Some(piece) => Ok(Bytes::new(piece)),
        None => Err(NoLine::Bad),
    }
}
