//! The half of a round that hears.
ghost use Rattle.std.specs.Prelude.{◌≡◌, List, ℕ, OnOk, OnErr};
ghost use Rattle.tt_rounds.specs.Links.{link_now};
ghost use Rattle.tt_rounds.specs.Hearing.{HearsRound};

use tt_edge::{Link, LinkGot};
use tt_frame::OutOfMemory;

/// How many bytes one read asks for at most.
const PIECE: usize = 4096;

/// How many reads a round has at most.
const MOST_READS: u32 = 64;

/// What hears the pieces of a stream.
pub trait Hear {
    /// What a piece makes of it: before, the piece, behind.
    ghost hears: { Self → List ℕ → Self → Type 0 };

    /// Hears a piece. Where memory runs out nothing has changed.
    fn hear(&mut self, piece: &[u8]) -> Result<(), OutOfMemory>
        ensures heard { OnOk result (hears self.old piece.now self.new) }
        ensures same { OnErr result (self.new ≡ self.old) };
}

/// What the reads of a round came to.
#[derive(Clone, Copy, Debug, PartialEq, Eq)]
pub enum Heard {
    /// The link told that nothing more came, or it was read often enough for one round.
    Going,
    /// The link told its end.
    End,
    /// The link failed.
    Failed,
    /// Memory ran out, and the last piece was not heard.
    Memory,
}

/// Reads the link until that answers Nothing, End or Failed, or 64 times, and lets each piece be heard as it comes.
pub fn hear_round<L: Link, H: Hear>(link: &mut L, hearer: &mut H) -> Heard
    ensures { HearsRound H.hears hearer.old hearer.new (link_now L.counts L.left L.was_read L.held link.old)
        (link_now L.counts L.left L.was_read L.held link.new) result }
{
    let mut piece = [0; PIECE];
    'hearing: for _reads in 0..MOST_READS {
        match link.read(&mut piece) {
            LinkGot::Bytes(n) => match hearer.hear(&piece[..n]) {
                Ok(()) => {}
                Err(_) => return Heard::Memory,
            },
            LinkGot::Nothing => return Heard::Going,
            LinkGot::End => return Heard::End,
            LinkGot::Failed => return Heard::Failed,
        }
    }
    Heard::Going
}
