//! Bytes in hexadecimal digits.
ghost use Rattle.std.specs.Prelude.{◌≡◌, ◌≢◌, ℕ, List, IfOk, IfSome, IfNone};
ghost use Rattle.hex.specs.Hex.{encode_lower};
ghost use Rattle.tt_lines.specs.Digits.{IsPiece};

use hex::FromHexError;
use std::alloc::Global;
use tt_frame::{OutOfMemory, are_hex_digits};

/// The bytes, at least one, that pairs of lower-case digits spell. None exactly where they spell none.
pub fn piece_of(alloc: Global, digits: &[u8]) -> Result<Option<Vec<u8>>, OutOfMemory>
    ensures found { IfOk result (λ found. IfSome found (λ piece. IsPiece piece.items × (digits.now ≡ encode_lower piece.items))) }
    ensures none { IfOk result (λ found. IfNone found ((piece : List ℕ) → IsPiece piece → digits.now ≢ encode_lower piece)) }
{
    if digits.is_empty() {
        return Ok(None);
    }
    if !are_hex_digits(digits) {
        return Ok(None);
    }
    match hex::decode(alloc, digits) {
        Ok(piece) => Ok(Some(piece)),
        Err(FromHexError::OutOfMemory) => Err(OutOfMemory),
        Err(FromHexError::OddLength) => Ok(None),
        Err(FromHexError::InvalidStringLength) => Ok(None),
        Err(FromHexError::InvalidHexCharacter { .. }) => Ok(None),
    }
}
