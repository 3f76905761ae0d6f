//! A reader of the words of a line, from the front.
//!
//! Words are parted by one blank. So what is left of a line is nothing, or a blank and the words behind it.
ghost use Rattle.std.specs.Prelude.{◌≡◌, ◌<◌, ◌∷◌, ◌+◌, [], length, take, drop, MatchOption, Some, None};
ghost use Rattle.tt_log.specs.Rows.{word_at, rest_at, front_word, behind_word, ended_at, LineRead};

use crate::script::bad::NoLine;
use std::marker::Model;

/// The words of a line that were not read yet.
///
/// Contracts see them as bytes: each word behind its blank.
#[derive(Debug, Drop)]
pub struct Words<'a> {
    rest: &'a [u8],
    ended: bool,
}

impl<'a> Model for Words<'a> {
    ghost use Rattle.std.specs.Prelude.{List, ℕ, [], ◌∷◌, cond};

    ghost Value = { List ℕ };

    ghost view = { λ w. cond w.ended [] (32 ∷ w.rest.now) };
}

impl<'a> Words<'a> {
    /// All words of a line.
    pub fn new(line: &'a [u8]) -> Words<'a>
        ensures words { result ≡ 32 ∷ line.now }
    {
        Words {
            rest: line,
            ended: false,
        }
    }

    /// The next word.
    #[tactic(auto, unfolding(crate::specs::Rows::word_at))]
    pub fn word(&mut self) -> Option<&'a [u8]>
        ensures cases { MatchOption result (word_at self.old ≡ None) (λ w. word_at self.old ≡ Some (w.now, self.new)) }
    {
        if self.ended {
            return None;
        }
        let text = self.rest;
        match first_blank(text) {
            Some(i) => {
                self.rest = &text[i + 1..];
                Some(&text[..i])
            }
            None => {
                self.ended = true;
                Some(text)
            }
        }
    }

    /// All that is left behind the next blank.
    #[tactic(auto, unfolding(crate::specs::Rows::rest_at))]
    pub fn rest(&self) -> Option<&'a [u8]>
        ensures cases { MatchOption result (rest_at self.now ≡ None) (λ rest. rest_at self.now ≡ Some rest.now) }
    {
        if self.ended { None } else { Some(self.rest) }
    }

    /// The value of a line, where nothing is left of it.
    pub fn ended<M: Drop>(&self, value: M) -> Result<M, NoLine>
        ensures { LineRead result (ended_at value self.now) }
    {
        if self.ended {
            Ok(value)
        } else {
            Err(NoLine::Bad)
        }
    }
}

/// The place of the first blank.
fn first_blank(text: &[u8]) -> Option<usize>
    ensures within { MatchOption result (Unit {0}) (λ i. i < length text.now) }
    ensures front { MatchOption result (front_word text.now ≡ text.now) (λ i. front_word text.now ≡ take i text.now) }
    ensures behind { MatchOption result (behind_word text.now ≡ []) (λ i. behind_word text.now ≡ 32 ∷ drop (i + 1) text.now) }
{
    for (i, byte) in text.iter().enumerate() {
        if *byte == b' ' {
            return Some(i);
        }
    }
    None
}
