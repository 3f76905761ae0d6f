//! Codes in counting order, and codes as texts.
ghost use Rattle.std.specs.Prelude.{◌≡◌, ◌<◌, ◌^◌, ℕ, length, reverse, is_some, false};
ghost use Rattle.tt_gc_table.specs.Codes.{follower, counted_on, next_code, undrawn};
ghost use Rattle.tt_gc_table.specs.Table.{drawn_by};

use crate::parts::Parts;
use tt_attempts::InviteCode;
use tt_frame::Text;

/// The characters of a code, in the order in which codes are counted.
const ALPHABET: [u8; 32] = *b"ABCDEFGHJKLMNPQRSTUVWXYZ23456789";

/// The character after this one in an alphabet; none after the last one.
fn follower(alphabet: &[u8], byte: u8) -> Option<u8>
    ensures { result ≡ follower alphabet.now byte }
{
    match alphabet {
        [] => None,
        [_] => None,
        [first, second, ..] => {
            if *first == byte {
                Some(*second)
            } else {
                follower(&alphabet[1..], byte)
            }
        }
    }
}

/// Counts on by one, the last character first; where that was the last one of the alphabet it becomes the first one.
fn count_on(text: &mut [u8])
    ensures { text.new ≡ reverse (counted_on (reverse text.old)) }
{
    let Some((last, front)) = text.split_last_mut() else {
        return;
    };
    match follower(&ALPHABET, *last) {
        Some(next) => *last = next,
        None => {
            *last = b'A';
            count_on(front);
        }
    }
}

/// The next code in counting order.
fn next_code(code: &InviteCode) -> InviteCode
    ensures { result ≡ next_code code.now }
{
    let mut text = *code.text();
    count_on(&mut text[1..]);
    match InviteCode::parse(&text) {
        Some(code) => code,
        None => unreachable!(),
    }
}

/// The code, or else the first one after it that was not drawn before; as many steps as codes were drawn are made for it.
pub fn undrawn(parts: &Parts, code: InviteCode) -> InviteCode
    ensures { result ≡ undrawn (length parts.now.drawn) parts.now code }
{
    let mut code = code;
    let mut left = parts.drawn_count();
    while parts.is_drawn(&code) {
        if left == 0 {
            return code;
        }
        code = next_code(&code);
        left -= 1;
    }
    code
}

/// A code as a text.
pub fn code_text(code: &InviteCode) -> Text<31>
    ensures { result ≡ code.now }
{
    let bytes = code.text();
    match Text::new(bytes.as_slice()) {
        Some(text) => text,
        None => unreachable!(),
    }
}
