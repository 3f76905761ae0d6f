//! Bytes on their way to a link.
ghost use Rattle.std.specs.Prelude.{◌≡◌, ◌≤◌, ℕ, List, [], ◌++◌, drop, length};
ghost use Rattle.tt_rounds.specs.Links.{link_now};
ghost use Rattle.tt_rounds.specs.Saying.{Flushes};

use crate::saying::Say;
use std::marker::Model;
use tt_edge::{Link, LinkWrote};

/// How many bytes wait at most.
const PIECE: usize = 4096;

/// Bytes that were given to be said and are not written yet. Contracts see them as a list.
#[derive(Drop)]
pub struct Outbox {
    bytes: [u8; PIECE],
    /// The bytes from `start` up to `end` wait.
    start: usize,
    end: usize,
}

impl Model for Outbox {
    ghost use Rattle.std.specs.Prelude.{◌≤◌, slice_range, List, ℕ};

    ghost Value = { List ℕ };

    ghost view = { λ o. slice_range o.bytes o.start o.end };

    ghost invariant = { λ o. (o.start ≤ o.end) × (o.end ≤ 4096) };
}

/// What writing came to.
#[derive(Clone, Copy, Debug, PartialEq, Eq)]
pub enum Said {
    /// All is written.
    All,
    /// The link takes nothing now.
    Held,
    /// The link failed.
    Failed,
}

impl Outbox {
    /// Nothing waits.
    pub fn new() -> Outbox
        ensures { result ≡ [] }
    {
        Outbox {
            bytes: [0; PIECE],
            start: 0,
            end: 0,
        }
    }

    /// The bytes that wait.
    pub fn rest(&self) -> &[u8]
        ensures { result.now ≡ self.now }
    {
        &self.bytes[self.start..self.end]
    }

    /// So many of them were written.
    fn wrote(&mut self, count: usize)
        requires { count ≤ length self.old }
        ensures { self.new ≡ drop count self.old }
    {
        self.start += count;
    }

    /// Takes the next bytes that are to be said. None may wait. It answers how many they are: none where nothing is to be said.
    pub fn fill<P: Say>(&mut self, speaker: &mut P) -> usize
        requires { self.old ≡ [] }
        ensures said { P.says speaker.old self.new speaker.new }
        ensures due { P.due speaker.old ≡ self.new ++ P.due speaker.new }
        ensures count { result ≡ length self.new }
        ensures none { result ≡ 0 → P.due speaker.new ≡ [] }
    {
        let count = speaker.say(&mut self.bytes);
        self.start = 0;
        self.end = count;
        count
    }

    /// Writes what waits, as far as the link takes it.
    pub fn flush<L: Link>(&mut self, link: &mut L) -> Said
        ensures { Flushes self.old self.new (link_now L.counts L.left L.was_read L.held link.old)
            (link_now L.counts L.left L.was_read L.held link.new) result }
    {
        'writing: while !self.rest().is_empty() {
            match link.write(self.rest()) {
                LinkWrote::Count(n) => self.wrote(n),
                LinkWrote::Nothing => return Said::Held,
                LinkWrote::Failed => return Said::Failed,
            }
        }
        Said::All
    }
}
