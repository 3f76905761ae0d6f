//! A piece of a map, as SERVER_MAP_DATA brings it.
ghost use Rattle.std.specs.Prelude.{◌≡◌, ℕ, ◌≤◌, ◌↔◌, List, length, IsSome, IfSome, IfOk, nat_eq};
ghost use Rattle.std.specs.Cmp.{partial_equiv_from_equiv};
ghost use Rattle.std.specs.Cmp.Lexicographic.{nat_list_eq_equiv, pointwise};

use std::alloc::Global;
use std::marker::Model;
use tt_frame::OutOfMemory;

/// The most bytes of a piece.
const LONGEST: usize = 1400;

/// 1 to 1,400 bytes of a map, behind an allocation.
///
/// Contracts see it as the list of them.
#[derive(Debug, Drop)]
pub struct MapPiece {
    content: Vec<u8>,
}

impl Model for MapPiece {
    ghost use Rattle.std.specs.Prelude.{ℕ, ◌≤◌, List, length};

    ghost Value = { List ℕ };

    ghost view = { λ piece. piece.content.items };

    ghost invariant = { λ piece. (1 ≤ length piece.content.items) × (length piece.content.items ≤ 1400) };
}

impl PartialEq for MapPiece {
    ghost eq = { pointwise nat_eq };

    ghost laws = { partial_equiv_from_equiv nat_list_eq_equiv };

    fn eq(&self, other: &MapPiece) -> bool {
        self.content.as_slice() == other.content.as_slice()
    }
}

impl Eq for MapPiece {
    ghost laws = { nat_list_eq_equiv };
}

impl MapPiece {
    /// The bytes as a piece; None where they are not 1 to 1,400.
    pub fn new(alloc: Global, bytes: &[u8]) -> Result<Option<MapPiece>, OutOfMemory>
        ensures size { IfOk result (λ made. IsSome made ↔ ((1 ≤ length bytes.now) × (length bytes.now ≤ 1400))) }
        ensures same { IfOk result (λ made. IfSome made (λ piece. piece ≡ bytes.now)) }
    {
        if bytes.is_empty() {
            return Ok(None);
        }
        if bytes.len() > LONGEST {
            return Ok(None);
        }
        let mut content = Vec::new(alloc);
        content.extend_from_slice(bytes)?;
        Ok(Some(MapPiece { content }))
    }

    /// Its bytes.
    pub fn bytes(&self) -> &[u8]
        ensures same { result.now ≡ self.now }
        ensures size { (1 ≤ length self.now) × (length self.now ≤ 1400) }
    {
        self.content.as_slice()
    }
}
