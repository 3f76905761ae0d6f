//! A reader of the fields of a body, from the front.
//!
//! Each call reads one field. Where the field isn't there the answer is `None`, and the reader stands where it stood, so
//! `at` is then the place of the field. What the contracts cite (`number_at`, `text_at`) reads lists of bytes; that it
//! gives a value exactly where that value's spelling stands there is the law `one_field`.
ghost use Rattle.std.specs.Prelude.{◌≡◌, ◌+◌, ◌<◌, ◌≤◌, ◌^◌, ◌↔◌, length, take, MatchOption, IsTrue, Some, None, IfSome, true};
ghost use Rattle.std.specs.Int.{w8, w16, w32, w64};
ghost use Rattle.tt_frame.specs.Text.{is_text};
ghost use Rattle.tt_frame.specs.Unread.{Unread, whole, skip};
ghost use Rattle.tt_frame.specs.Reading.{FieldTaken, number_at, truth_at, text_at, digest_at, optional_digest_at, raw_at, before_zero};

use crate::digests::Digest;
use crate::texts::is_text_bytes;
use std::marker::Model;

/// The fields of a body that were not read yet.
///
/// Contracts see the place in the body and the bytes from there on.
#[derive(Debug, Drop)]
pub struct Fields<'a> {
    rest: &'a [u8],
    at: usize,
}

impl<'a> Model for Fields<'a> {
    ghost use Rattle.std.specs.Prelude.{◌+◌, ◌<◌, ◌^◌, length};
    ghost use Rattle.tt_frame.specs.Unread.{Unread, unread_code};

    ghost Value = { Unread };

    ghost coded = { unread_code };

    ghost view = { λ f. record { at = f.at; rest = f.rest.now } };

    ghost invariant = { λ f. f.at + length f.rest.now < 2 ^ 64 };
}

/// The place of the first zero, where it is among the first `max + 1` bytes.
fn zero_place(bytes: &[u8], max: usize) -> Option<usize>
    ensures { MatchOption result (before_zero max bytes.now ≡ None) (λ i. (before_zero max bytes.now ≡ Some (take i bytes.now))
        × (i < length bytes.now)) }
{
    for (i, byte) in bytes.iter().enumerate() {
        if *byte == 0 {
            return Some(i);
        }
        if i == max {
            return None;
        }
    }
    None
}

impl<'a> Fields<'a> {
    /// A reader of the whole payload.
    pub fn new(payload: &'a [u8]) -> Fields<'a>
        ensures { result ≡ whole payload.now }
    {
        Fields {
            rest: payload,
            at: 0,
        }
    }

    /// How many bytes were read: the place of the next field.
    pub fn at(&self) -> usize
        ensures { result ≡ self.now.at }
    {
        self.at
    }

    /// Whether nothing is left.
    pub fn done(&self) -> bool
        ensures { IsTrue result ↔ (length self.now.rest ≡ 0) }
    {
        self.rest.is_empty()
    }

    /// A number of one byte.
    #[tactic(auto, unfolding(crate::specs::Reading::number_at))]
    pub fn u8(&mut self) -> Option<u8>
        ensures { FieldTaken (λ n. n) result self.old self.new (number_at w8 self.old) }
    {
        if self.rest.len() < 1 {
            return None;
        }
        let (front, rest) = self.rest.split_at(1);
        self.rest = rest;
        self.at += 1;
        Some(u8::from_le_bytes([front[0]]))
    }

    /// A number of two bytes, the low one first.
    #[tactic(auto, unfolding(crate::specs::Reading::number_at))]
    pub fn u16(&mut self) -> Option<u16>
        ensures { FieldTaken (λ n. n) result self.old self.new (number_at w16 self.old) }
    {
        if self.rest.len() < 2 {
            return None;
        }
        let (front, rest) = self.rest.split_at(2);
        self.rest = rest;
        self.at += 2;
        Some(u16::from_le_bytes([front[0], front[1]]))
    }

    /// A number of four bytes, the low one first.
    #[tactic(auto, unfolding(crate::specs::Reading::number_at))]
    pub fn u32(&mut self) -> Option<u32>
        ensures { FieldTaken (λ n. n) result self.old self.new (number_at w32 self.old) }
    {
        if self.rest.len() < 4 {
            return None;
        }
        let (front, rest) = self.rest.split_at(4);
        self.rest = rest;
        self.at += 4;
        Some(u32::from_le_bytes([front[0], front[1], front[2], front[3]]))
    }

    /// A number of eight bytes, the low one first.
    #[tactic(auto, unfolding(crate::specs::Reading::number_at))]
    pub fn u64(&mut self) -> Option<u64>
        ensures { FieldTaken (λ n. n) result self.old self.new (number_at w64 self.old) }
    {
        if self.rest.len() < 8 {
            return None;
        }
        let (front, rest) = self.rest.split_at(8);
        self.rest = rest;
        self.at += 8;
        Some(u64::from_le_bytes([
            front[0], front[1], front[2], front[3], front[4], front[5], front[6], front[7],
        ]))
    }

    /// A byte that is 0 for false or 1 for true.
    #[tactic(auto, unfolding(crate::specs::Reading::truth_at, crate::specs::Reading::within_at))]
    pub fn bool(&mut self) -> Option<bool>
        ensures { FieldTaken (λ b. b) result self.old self.new (truth_at self.old) }
    {
        let mut ahead = Fields {
            rest: self.rest,
            at: self.at,
        };
        let Some(byte) = ahead.u8() else {
            return None;
        };
        if byte > 1 {
            return None;
        }
        self.rest = ahead.rest;
        self.at = ahead.at;
        Some(byte == 1)
    }

    /// The next `n` bytes, as they are.
    #[tactic(auto, unfolding(crate::specs::Reading::raw_at))]
    pub fn raw(&mut self, n: usize) -> Option<&'a [u8]>
        ensures read { FieldTaken (λ bytes. bytes.now) result self.old self.new (raw_at n self.old) }
        ensures length { IfSome result (λ bytes. length bytes.now ≡ n) }
    {
        if self.rest.len() < n {
            return None;
        }
        let (front, rest) = self.rest.split_at(n);
        self.rest = rest;
        self.at += n;
        Some(front)
    }

    /// All bytes that are left.
    pub fn rest(&mut self) -> &'a [u8]
        ensures read { result.now ≡ self.old.rest }
        ensures after { self.new ≡ skip (length self.old.rest) self.old }
    {
        let bytes = self.rest;
        self.pass(bytes.len());
        bytes
    }

    /// A text of at most `max` bytes, with a zero byte behind it. What is handed out is a slice of the payload, without
    /// the zero.
    #[tactic(auto, unfolding(crate::specs::Reading::text_at))]
    pub fn text(&mut self, max: usize) -> Option<&'a [u8]>
        ensures read { FieldTaken (λ text. text.now) result self.old self.new (text_at max self.old) }
        ensures text { IfSome result (λ text. is_text max text.now ≡ true) }
    {
        let Some(bytes) = self.ahead(max) else {
            return None;
        };
        if !is_text_bytes(bytes, max) {
            return None;
        }
        self.pass(bytes.len() + 1);
        Some(bytes)
    }

    /// A digest, with a zero byte behind it.
    #[tactic(auto, unfolding(crate::specs::Reading::digest_at))]
    pub(crate) fn digest(&mut self) -> Option<Digest>
        ensures { FieldTaken (λ digest. digest) result self.old self.new (digest_at self.old) }
    {
        let Some(bytes) = self.ahead(32) else {
            return None;
        };
        let Some(digest) = Digest::new(bytes) else {
            return None;
        };
        self.pass(bytes.len() + 1);
        Some(digest)
    }

    /// A digest or the empty text, with a zero byte behind it.
    #[tactic(auto, unfolding(crate::specs::Reading::optional_digest_at))]
    pub(crate) fn optional_digest(&mut self) -> Option<Option<Digest>>
        ensures { FieldTaken (λ digest. digest) result self.old self.new (optional_digest_at self.old) }
    {
        let Some(bytes) = self.ahead(32) else {
            return None;
        };
        if bytes.is_empty() {
            self.pass(1);
            return Some(None);
        }
        let Some(digest) = Digest::new(bytes) else {
            return None;
        };
        self.pass(bytes.len() + 1);
        Some(Some(digest))
    }

    /// The bytes before a zero, where it is among the next `max + 1` bytes; nothing is taken.
    pub(crate) fn ahead(&self, max: usize) -> Option<&'a [u8]>
        ensures { MatchOption result (before_zero max self.now.rest ≡ None) (λ s. (before_zero max self.now.rest ≡ Some s.now)
            × (length s.now < length self.now.rest)) }
    {
        match zero_place(self.rest, max) {
            Some(i) => Some(&self.rest[..i]),
            None => None,
        }
    }

    /// Goes over the next `n` bytes.
    pub(crate) fn pass(&mut self, n: usize)
        requires { n ≤ length self.old.rest }
        ensures { self.new ≡ skip n self.old }
    {
        self.rest = &self.rest[n..];
        self.at += n;
    }
}
