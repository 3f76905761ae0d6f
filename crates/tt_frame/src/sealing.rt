//! The end of a packet that is written part by part: its size.
//!
//! A message tells its head and its parts to a vector (`Part::Head` stands for two bytes of size and the number), and then
//! `finish(out, start, written)` ends the packet, where `start` is the length that `out` had before the head and `written` is
//! what the parts answered: the packet stands whole, or nothing of it stands.
ghost use Rattle.std.specs.Prelude.{◌≡◌, ℕ, List, ◌≤◌, ◌+◌, [], ◌∷◌, ◌++◌, length, take, vec_len, OnOk, OnErr};
ghost use Rattle.tt_frame.specs.Packet.{packet, largest_packet};
ghost use Rattle.tt_frame.specs.Parts.{sealed};

use crate::memory::OutOfMemory;

/// Writes the size of the packet that begins at `start` over its first two bytes.
#[tactic(auto, unfolding(crate::specs::Parts::sealed))]
fn seal(out: &mut Vec<u8>, start: usize)
    requires header { start + 3 ≤ vec_len out.old }
    requires size { vec_len out.old ≤ start + largest_packet }
    ensures { out.new.items ≡ sealed start out.old.items }
{
    let size = (out.len() - start) as u16;
    let bytes = size.to_le_bytes();
    out[start] = bytes[0];
    out[start + 1] = bytes[1];
}

/// Ends the packet that begins at `start`: where all of it was written its size is, and where memory was refused on the
/// way everything from `start` on is taken away.
pub fn finish(
    out: &mut Vec<u8>,
    start: usize,
    written: Result<(), OutOfMemory>,
) -> Result<(), OutOfMemory>
    requires header { OnOk written (start + 3 ≤ vec_len out.old) }
    requires size { OnOk written (vec_len out.old ≤ start + largest_packet) }
    ensures same { result ≡ written }
    // What stood from `start` on, behind two bytes for the size, is a packet now.
    ensures ok { OnOk result ((before body : List ℕ) (kind : ℕ) → length before ≡ start
        → out.old.items ≡ before ++ 0 ∷ 0 ∷ kind ∷ body → out.new.items ≡ before ++ packet kind body) }
    // All of this in one: the size stands there.
    ensures exact { OnOk result (out.new.items ≡ sealed start out.old.items) }
    ensures err { OnErr result (out.new.items ≡ take start out.old.items) }
{
    match written {
        Ok(()) => {
            seal(out, start);
            Ok(())
        }
        Err(e) => {
            out.truncate(start);
            Err(e)
        }
    }
}
