//! The random generator of a game: two words, of which each draw makes the next two.
//!
//! Every end of a game draws the same words from the same seed, so a word is what two worlds are compared by.
ghost use Rattle.std.specs.Prelude.{◌≡◌};
ghost use Rattle.tt_world.specs.Random.{next_random, below};

use std::marker::Model;

/// A generator, seen by contracts as its two words.
#[derive(Clone, Copy, Debug, PartialEq, Eq)]
pub struct Random {
    first: u32,
    second: u32,
}

impl Model for Random {
    ghost use Rattle.std.specs.Prelude.{ℕ};

    ghost Value = { ℕ × ℕ };

    ghost view = { λ r. (r.first, r.second) };

    ghost inverse = { λ words. record { first = words.0; second = words.1 } };
}

impl Random {
    /// The generator that a seed starts: both words are the seed.
    pub fn seeded(seed: u32) -> Random
        ensures words { result ≡ (seed, seed) }
    {
        Random::of(seed, seed)
    }

    /// The generator with these words.
    pub fn of(first: u32, second: u32) -> Random
        ensures words { result ≡ (first, second) }
    {
        Random { first, second }
    }

    /// The two words, the first one first.
    pub fn words(&self) -> (u32, u32)
        ensures words { result ≡ self.now }
    {
        (self.first, self.second)
    }

    /// Draws a word, which is the new second one.
    pub fn next(&mut self) -> u32
        ensures words { self.new ≡ next_random self.old }
        ensures drawn { result ≡ self.new.1 }
    {
        let first = self.first;
        let turned = (self.second ^ 0x1234_567F).rotate_right(7);
        self.first = first.wrapping_add(turned).wrapping_add(1);
        self.second = first.rotate_right(3).wrapping_sub(1);
        self.second
    }

    /// Draws a word, and answers the number below the limit that it stands for: the upper half of the product of
    /// word and limit, so that each number is as likely as another. Below 0 there is none: the answer is 0.
    pub fn next_below(&mut self, limit: u32) -> u32
        ensures words { self.new ≡ next_random self.old }
        ensures drawn { result ≡ below self.new limit }
    {
        let word = self.next();
        (u64::from(word) * u64::from(limit) >> 32) as u32
    }
}
