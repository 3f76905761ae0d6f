//! Invite codes, by which a server is found.
ghost use Rattle.std.specs.Prelude.{◌≡◌, ℕ, ◌↔◌, List, length, true, IsSome, IfSome};
ghost use Rattle.std.specs.List.{list_all};
ghost use Rattle.tt_world.specs.Random.{next_random};
ghost use Rattle.tt_attempts.specs.Codes.{IsCode, is_character, words_behind, drawn_character, drawn_characters, drawn_code};

use std::marker::Model;
use tt_world::Random;

/// The characters of a code, in the order in which codes are counted.
const ALPHABET: [u8; 32] = *b"ABCDEFGHJKLMNPQRSTUVWXYZ23456789";

/// A plus sign and six characters of the alphabet, which has no letter or digit that is easily taken for another.
///
/// Contracts see it as the list of its bytes.
#[derive(Clone, Copy, Debug, PartialEq, Eq, PartialOrd, Ord, Hash)]
pub struct InviteCode {
    text: [u8; 7],
}

impl Model for InviteCode {
    ghost Value = { List ℕ };

    ghost view = { λ code. code.text };

    ghost invariant = { λ code. IsCode code.text };

    ghost inverse = { λ bytes. record { text = bytes } };
}

/// Whether the byte is a character of the alphabet.
fn is_in_alphabet(byte: u8) -> bool
    ensures { result ≡ is_character byte }
{
    ALPHABET.contains(&byte)
}

/// Whether each byte is a character of the alphabet.
fn are_in_alphabet(bytes: &[u8]) -> bool
    ensures { result ≡ list_all is_character bytes.now }
{
    bytes.iter().all(|byte| is_in_alphabet(*byte))
}

/// The next drawn character.
fn draw_character(random: &mut Random) -> u8
    ensures words { random.new ≡ next_random random.old }
    ensures drawn { result ≡ drawn_character random.old }
    ensures character { is_character result ≡ true }
{
    let place = random.next_below(32) as usize;
    ALPHABET[place]
}

/// Draws a character of the alphabet into each place, one after another.
pub fn draw_characters(random: &mut Random, to: &mut [u8])
    ensures words { random.new ≡ words_behind (length to.old) random.old }
    ensures drawn { to.new ≡ drawn_characters (length to.old) random.old }
    ensures characters { list_all is_character to.new ≡ true }
{
    let mut at = 0;
    while at < to.len() {
        to[at] = draw_character(random);
        at += 1;
    }
}

impl InviteCode {
    /// The bytes as a code, where they are one.
    pub fn parse(bytes: &[u8]) -> Option<InviteCode>
        ensures code { IsSome result ↔ IsCode bytes.now }
        ensures same { IfSome result (λ code. code ≡ bytes.now) }
    {
        if bytes.len() != 7 {
            return None;
        }
        if bytes[0] != b'+' {
            return None;
        }
        if !are_in_alphabet(&bytes[1..]) {
            return None;
        }
        let mut text = [0; 7];
        text.copy_from_slice(bytes);
        Some(InviteCode { text })
    }

    /// Draws a code: six characters, one after another.
    pub fn draw(random: &mut Random) -> InviteCode
        ensures words { random.new ≡ words_behind 6 random.old }
        ensures drawn { result ≡ drawn_code random.old }
    {
        let first = draw_character(random);
        let second = draw_character(random);
        let third = draw_character(random);
        let fourth = draw_character(random);
        let fifth = draw_character(random);
        let sixth = draw_character(random);
        InviteCode {
            text: [b'+', first, second, third, fourth, fifth, sixth],
        }
    }

    /// Its bytes.
    pub fn text(&self) -> &[u8; 7]
        ensures same { result.now ≡ self.now }
        ensures code { IsCode self.now }
    {
        &self.text
    }
}
