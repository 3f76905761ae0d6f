//! Small numbers in a range.
ghost use Rattle.std.specs.Prelude.{◌≡◌, ℕ, ◌≤◌, ◌↔◌, IsSome, IfSome};

use std::marker::Model;

/// A number from 0 to `M`.
///
/// Contracts see it as the number.
#[derive(Clone, Copy, Debug, PartialEq, Eq, PartialOrd, Ord, Hash)]
pub struct UpTo<const M: u8> {
    value: u8,
}

impl<const M: u8> Model for UpTo<M> {
    ghost Value = { ℕ };

    ghost view = { λ number. number.value };

    ghost invariant = { λ number. number.value ≤ M };

    ghost inverse = { λ value. record { value = value } };
}

impl<const M: u8> UpTo<M> {
    /// The number, where it is not above `M`.
    pub fn new(v: u8) -> Option<UpTo<M>>
        ensures within { IsSome result ↔ (v ≤ M) }
        ensures same { IfSome result (λ number. number ≡ v) }
    {
        if v <= M {
            Some(UpTo { value: v })
        } else {
            None
        }
    }

    /// The number.
    pub fn get(&self) -> u8
        ensures same { result ≡ self.now }
        ensures within { self.now ≤ M }
    {
        self.value
    }
}
