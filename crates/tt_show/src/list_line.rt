//! One line of a list.
ghost use Rattle.std.specs.Prelude.{◌≡◌, ◌≢◌, ℕ, IfOk, IfSome, IfNone};
ghost use Rattle.tt_show.specs.declared.family.Family.{Family};
ghost use Rattle.tt_show.specs.ListLines.{ListLine};
ghost use Rattle.tt_show.specs.Packets.{family_word};
ghost use Rattle.tt_show.specs.Lists.{line_text, IsLine};

use crate::family::Family;
use std::alloc::Global;
use tt_frame::OutOfMemory;
use tt_lines::{first_word, piece_of};

/// The family whose word this is, if there is one.
fn family_of(word: &[u8]) -> Option<Family>
    ensures found { IfSome result (λ family. word.now ≡ family_word family) }
    ensures none { IfNone result ((family : Family) → word.now ≢ family_word family) }
{
    match word {
        b"game" => Some(Family::Game),
        b"admin" => Some(Family::Admin),
        b"coord" => Some(Family::Coord),
        b"stun" => Some(Family::Stun),
        b"turn" => Some(Family::Turn),
        _ => None,
    }
}

/// The family and the bytes that a line without line feed spells, if it spells any.
pub fn line_of(alloc: Global, text: &[u8]) -> Result<Option<(Family, Vec<u8>)>, OutOfMemory>
    ensures found { IfOk result (λ found. IfSome found (λ line. IsLine (record { family = line.0; bytes = line.1.items })
        × (text.now ≡ line_text (record { family = line.0; bytes = line.1.items })))) }
    ensures none { IfOk result (λ found. IfNone found ((line : ListLine) → IsLine line → text.now ≢ line_text line)) }
{
    let Some((word, digits)) = first_word(text) else {
        return Ok(None);
    };
    let Some(family) = family_of(word) else {
        return Ok(None);
    };
    let Some(bytes) = piece_of(alloc, digits)? else {
        return Ok(None);
    };
    Ok(Some((family, bytes)))
}
