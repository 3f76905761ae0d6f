//! Addresses as words.
ghost use Rattle.std.specs.Prelude.{◌≡◌, ◌≢◌, ◌<◌, ◌^◌, ◌++◌, ◌∷◌, ℕ, List, IfSome, IfNone};
ghost use Rattle.std.specs.Fmt.{decimal};
ghost use Rattle.tt_lines.specs.Lines.{HasNo};
ghost use Rattle.tt_words.specs.Values.{Finds};
ghost use Rattle.tt_words.specs.Addresses.{IsAddress, IsNoDigit};

use tt_edge::Peer;
use tt_frame::Line;
use tt_lines::number_of;

/// The address that the word spells: `HOST:PORT`, the host as four numbers from 0 to 255 with dots, and the port as a
/// number up to 65,535, each without leading zeros. None exactly where it spells none.
pub fn address_of(word: &Line) -> Option<Peer>
    ensures { Finds (IsAddress word.now) result }
{
    let (first, rest) = byte_before(word.bytes(), b'.')?;
    let (second, rest) = byte_before(rest, b'.')?;
    let (third, rest) = byte_before(rest, b'.')?;
    let (fourth, rest) = byte_before(rest, b':')?;
    let port = port_of(rest)?;
    let host = [first, second, third, fourth];
    Some(Peer { host, port })
}

/// The number from 0 to 255 in front of the first mark, and what stands behind the mark.
fn byte_before(text: &[u8], mark: u8) -> Option<(u8, &[u8])>
    requires mark { IsNoDigit mark }
    ensures found { IfSome result (λ parts. text.now ≡ decimal parts.0 ++ mark ∷ parts.1.now) }
    ensures only { IfSome result (λ parts. (n : ℕ) (rest : List ℕ) → n < 2 ^ 8 → text.now ≡ decimal n ++ mark ∷ rest → rest ≡ parts.1.now) }
    ensures none { IfNone result ((n : ℕ) (rest : List ℕ) → n < 2 ^ 8 → text.now ≢ decimal n ++ mark ∷ rest) }
{
    let (digits, rest) = cut(text, mark)?;
    let number = byte_of(digits)?;
    Some((number, rest))
}

/// What stands before the first mark, and what stands behind it. None exactly where there is no mark.
fn cut(text: &[u8], mark: u8) -> Option<(&[u8], &[u8])>
    ensures word { IfSome result (λ parts. text.now ≡ parts.0.now ++ mark ∷ parts.1.now) }
    ensures one { IfSome result (λ parts. HasNo mark parts.0.now) }
    ensures none { IfNone result (HasNo mark text.now) }
{
    for (i, byte) in text.iter().enumerate() {
        if *byte == mark {
            return Some((&text[..i], &text[i + 1..]));
        }
    }
    None
}

/// The number from 0 to 255 that the digits spell.
fn byte_of(digits: &[u8]) -> Option<u8>
    ensures found { IfSome result (λ n. digits.now ≡ decimal n) }
    ensures none { IfNone result ((n : ℕ) → n < 2 ^ 8 → digits.now ≢ decimal n) }
{
    let number = number_of(digits)?;
    if number > 255 {
        return None;
    }
    Some(number as u8)
}

/// The port that the digits spell.
fn port_of(digits: &[u8]) -> Option<u16>
    ensures found { IfSome result (λ n. digits.now ≡ decimal n) }
    ensures none { IfNone result ((n : ℕ) → n < 2 ^ 16 → digits.now ≢ decimal n) }
{
    let number = number_of(digits)?;
    if number > 65_535 {
        return None;
    }
    Some(number as u16)
}
