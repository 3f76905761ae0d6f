//! The half of a round that says.
ghost use Rattle.std.specs.Prelude.{◌≡◌, ◌++◌, List, ℕ, length, min, take, drop};
ghost use Rattle.tt_rounds.specs.Links.{link_now};
ghost use Rattle.tt_rounds.specs.Saying.{SaysRound};

use crate::outbox::{Outbox, Said};
use tt_edge::Link;

/// What has bytes to say.
pub trait Say {
    /// The bytes that are due now, in order.
    ghost due: { Self → List ℕ };

    /// What giving bytes makes of it: before, the bytes, behind.
    ghost says: { Self → List ℕ → Self → Type 0 };

    /// Gives the next bytes that are due, as many as fit or are there, and answers how many.
    fn say(&mut self, out: &mut [u8]) -> usize
        ensures count { result ≡ min (length (due self.old)) (length out.old) }
        ensures bytes { out.new ≡ take result (due self.old) ++ drop result out.old }
        ensures rest { due self.new ≡ drop result (due self.old) }
        ensures said { says self.old (take result (due self.old)) self.new };
}

/// Writes what waits and what is due, until nothing is left or a write answers Nothing or fails.
pub fn say_round<L: Link, P: Say>(link: &mut L, outbox: &mut Outbox, speaker: &mut P) -> Said
    ensures { SaysRound P.due P.says speaker.old speaker.new outbox.old outbox.new
        (link_now L.counts L.left L.was_read L.held link.old) (link_now L.counts L.left L.was_read L.held link.new) result }
{
    'saying: loop {
        match outbox.flush(link) {
            Said::All => {
                if outbox.fill(speaker) == 0 {
                    return Said::All;
                }
            }
            Said::Held => return Said::Held,
            Said::Failed => return Said::Failed,
        }
    }
}
