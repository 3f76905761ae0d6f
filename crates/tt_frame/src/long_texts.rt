//! Long texts, behind an allocation: what a message may say at length without every message growing to that size.
//!
//! A long text is made by `LongText::new(alloc, bytes)`, or read as a field by `long_text(alloc, f)`; it takes just the memory
//! of its bytes, and is never tested again.
ghost use Rattle.std.specs.Prelude.{◌≡◌, ℕ, ◌≤◌, ◌↔◌, List, length, true, false, Ok, Err, Some, IfOk, OnErr, IsSome, IfSome, MatchOption};
ghost use Rattle.std.specs.Prelude.{nat_eq};
ghost use Rattle.std.specs.Cmp.{partial_equiv_from_equiv};
ghost use Rattle.std.specs.Cmp.Lexicographic.{nat_list_eq_equiv, pointwise};
ghost use Rattle.tt_frame.specs.Text.{IsText, is_text};
ghost use Rattle.tt_frame.specs.Reading.{FieldReadOrMemory, text_at};

use crate::bad::Bad;
use crate::fields::Fields;
use crate::memory::OutOfMemory;
use crate::texts::is_text_bytes;
use std::alloc::Global;
use std::marker::Model;

/// A text of at most `N` bytes, behind an allocation: valid UTF-8 with no byte below 32.
///
/// Contracts see it as the list of its bytes.
#[derive(Debug, Drop)]
pub struct LongText<const N: usize> {
    content: Vec<u8>,
}

impl<const N: usize> Model for LongText<N> {
    ghost use Rattle.std.specs.Prelude.{◌≡◌, ℕ, List, true};
    ghost use Rattle.tt_frame.specs.Text.{is_text};

    ghost Value = { List ℕ };

    ghost view = { λ text. text.content.items };

    ghost invariant = { λ text. is_text N text.content.items ≡ true };
}

impl<const N: usize> PartialEq for LongText<N> {
    ghost eq = { pointwise nat_eq };

    ghost laws = { partial_equiv_from_equiv nat_list_eq_equiv };

    fn eq(&self, other: &LongText<N>) -> bool {
        self.content.as_slice() == other.content.as_slice()
    }
}

impl<const N: usize> Eq for LongText<N> {
    ghost laws = { nat_list_eq_equiv };
}

impl<const N: usize> LongText<N> {
    /// The bytes as a long text, where they are a text and have at most `N` bytes; None where they are none.
    pub fn new(alloc: Global, bytes: &[u8]) -> Result<Option<LongText<N>>, OutOfMemory>
        ensures text { IfOk result (λ made. IsSome made ↔ (IsText bytes.now × (length bytes.now ≤ N))) }
        ensures same { IfOk result (λ made. IfSome made (λ text. text ≡ bytes.now)) }
        // The same as `text`, by the test that definitions branch on.
        ensures test { IfOk result (λ made. MatchOption made (is_text N bytes.now ≡ false) (λ _. is_text N bytes.now ≡ true)) }
    {
        if !is_text_bytes(bytes, N) {
            return Ok(None);
        }
        Ok(Some(kept(alloc, bytes)?))
    }

    /// Its bytes.
    pub fn bytes(&self) -> &[u8]
        ensures same { result.now ≡ self.now }
        ensures text { IsText result.now }
        ensures test { is_text N self.now ≡ true }
        ensures length { length result.now ≤ N }
    {
        self.content.as_slice()
    }
}

/// A text that was tested, with memory of its own.
fn kept<const N: usize>(alloc: Global, bytes: &[u8]) -> Result<LongText<N>, OutOfMemory>
    requires { is_text N bytes.now ≡ true }
    ensures { IfOk result (λ text. text ≡ bytes.now) }
{
    let mut content = Vec::new(alloc);
    content.extend_from_slice(bytes)?;
    Ok(LongText { content })
}

/// A text of at most `N` bytes, where it stands next.
pub fn long_text<const N: usize>(alloc: Global, f: &mut Fields) -> Result<LongText<N>, Bad>
    ensures { FieldReadOrMemory (λ t. t) result f.new (text_at N f.old) }
{
    let Some(bytes) = f.text(N) else {
        return Err(Bad::Malformed { at: f.at() });
    };
    match kept(alloc, bytes) {
        Ok(text) => Ok(text),
        Err(_) => Err(Bad::Memory),
    }
}
