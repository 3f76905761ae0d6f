//! Password digests, as they stand in messages.
//!
//! A digest is made by one tested constructor, `Digest::new(bytes)`, and is never tested again. It takes no memory.
ghost use Rattle.std.specs.Prelude.{◌≡◌, ℕ, ◌≤◌, List, length, true, false, IfSome, MatchOption};
ghost use Rattle.std.specs.List.{list_all};
ghost use Rattle.tt_frame.specs.Text.{IsText, is_digest, is_hex_digit};
ghost use Rattle.tt_frame.specs.FieldForms.{optional_bytes, IsOptionalDigest};

use std::marker::Model;

/// 32 lower-case hexadecimal digits.
///
/// Contracts see it as the list of their bytes.
#[derive(Clone, Copy, Debug, PartialEq, Eq, PartialOrd, Ord, Hash)]
pub struct Digest {
    digits: [u8; 32],
}

impl Model for Digest {
    ghost Value = { List ℕ };

    ghost view = { λ digest. digest.digits };

    ghost invariant = { λ digest. is_digest digest.digits ≡ true };

    ghost inverse = { λ bytes. record { digits = bytes } };
}

/// Whether each byte is a digit or a lower-case letter from a to f.
pub fn are_hex_digits(bytes: &[u8]) -> bool
    ensures { result ≡ list_all is_hex_digit bytes.now }
{
    bytes.iter().all(|byte| (*byte >= 48 && *byte <= 57) || (*byte >= 97 && *byte <= 102))
}

impl Digest {
    /// The bytes as a digest, where they are 32 lower-case hexadecimal digits.
    #[tactic(auto, unfolding(crate::specs::Text::is_digest))]
    pub fn new(bytes: &[u8]) -> Option<Digest>
        ensures digest { MatchOption result (is_digest bytes.now ≡ false) (λ _. is_digest bytes.now ≡ true) }
        ensures same { IfSome result (λ digest. digest ≡ bytes.now) }
    {
        if bytes.len() != 32 {
            return None;
        }
        if !are_hex_digits(bytes) {
            return None;
        }
        let mut digits = [0; 32];
        digits.copy_from_slice(bytes);
        Some(Digest { digits })
    }

    /// Its digits.
    pub fn bytes(&self) -> &[u8]
        ensures same { result.now ≡ self.now }
        ensures digest { is_digest self.now ≡ true }
        ensures text { IsText result.now }
        ensures length { length result.now ≡ 32 }
    {
        &self.digits
    }
}

/// The digits, or nothing where there is no digest: the text that a message has in its place.
pub fn digits_or_none(digest: &Option<Digest>) -> &[u8]
    ensures same { result.now ≡ optional_bytes digest.now }
    ensures digest { IsOptionalDigest digest.now }
    ensures text { IsText result.now }
    ensures length { length result.now ≤ 32 }
{
    match digest {
        Some(digest) => digest.bytes(),
        None => &[],
    }
}
