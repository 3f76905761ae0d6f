//! What is noted of the words that were told of frames to come, found by frame.
//!
//! A client keeps these words in the order in which they came. To look through all of them at each frame would cost the square of
//! what a forged stream tells. So beside them stands what each such frame was told: one word, or words that differ. They are looked
//! through only at a frame that was told another word than the client's own, and behind that frame it runs no more.
ghost use Rattle.std.specs.Prelude.{◌≡◌, ◌<◌, ℕ, suc, length, true, [], ◌∷◌, Some, IsTrue, OnOk};
ghost use Rattle.tt_lockstep.specs.Runner.{syncs_above};
ghost use Rattle.tt_client.specs.Frames.{first_other};
ghost use Rattle.tt_client.specs.Notes.{AreNoted, KeepsNotes, Notes, is_alone, is_among};

use crate::running::Sync;
use std::collections::{BTreeMap, VecDeque};
use tt_frame::OutOfMemory;

/// What was told of a frame.
#[derive(Clone, Copy, Debug, PartialEq, Eq)]
pub enum Noted {
    /// This word, and no other.
    One { word: u32 },
    /// Words that may differ.
    Several,
}

/// What is noted of a frame behind one more word.
fn told_with(old: Option<Noted>, word: u32) -> Noted
    ensures among { is_among (Some result) word ≡ true }
    ensures kept { (w : ℕ) → is_among old w ≡ true → is_among (Some result) w ≡ true }
{
    match old {
        None => Noted::One { word },
        Some(Noted::One { word: first }) if first == word => Noted::One { word },
        Some(_) => Noted::Several,
    }
}

/// Whether no other word than this was told of a frame.
fn is_alone(told: Option<Noted>, mine: u32) -> bool
    ensures alone { result ≡ is_alone told mine }
{
    match told {
        None => true,
        Some(Noted::One { word }) => word == mine,
        Some(Noted::Several) => false,
    }
}

/// Notes a word.
fn note(noted: &mut BTreeMap<u32, Noted>, sync: Sync) -> Result<(), OutOfMemory>
    ensures kept { KeepsNotes noted.old noted.new }
    ensures noted { OnOk result (AreNoted 0 noted.new (sync ∷ [])) }
{
    let old = noted.get(&sync.frame).copied();
    noted.insert(sync.frame, told_with(old, sync.word))?;
    Ok(())
}

/// Notes words, one behind the other.
pub(crate) fn note_all(
    noted: &mut BTreeMap<u32, Noted>,
    syncs: &VecDeque<Sync>,
) -> Result<(), OutOfMemory>
    ensures kept { KeepsNotes noted.old noted.new }
    ensures noted { OnOk result (AreNoted 0 noted.new syncs.now.items) }
{
    for i in 0..syncs.len() {
        note(noted, syncs[i])?;
    }
    Ok(())
}

/// The first of some words that names a frame with another word.
fn first_other(syncs: &VecDeque<Sync>, frame: u32, mine: u32) -> Option<u32>
    ensures other { result ≡ first_other frame mine syncs.now.items }
{
    for i in 0..syncs.len() {
        let sync = syncs[i];
        if sync.frame == frame && sync.word != mine {
            return Some(sync.word);
        }
    }
    None
}

/// The first word that was told of a frame and is another than one's own. What was noted of the frame is let go.
pub(crate) fn other_word(
    noted: &mut BTreeMap<u32, Noted>,
    syncs: &VecDeque<Sync>,
    frame: u32,
    mine: u32,
) -> Option<u32>
    requires noted { AreNoted frame noted.old syncs.now.items }
    ensures other { result ≡ first_other frame mine syncs.now.items }
    ensures noted { AreNoted (suc frame) noted.new syncs.now.items }
{
    if syncs.is_empty() {
        return None;
    }
    let told = noted.remove(&frame);
    if is_alone(told, mine) {
        return None;
    }
    first_other(syncs, frame, mine)
}

/// Takes away the first word, where it was told of a frame of at most this one. Whether it did.
fn pop_run(syncs: &mut VecDeque<Sync>, frame: u32) -> bool
    ensures above { syncs_above frame syncs.new.items ≡ syncs_above frame syncs.old.items }
    ensures noted { (start : ℕ) (noted : Notes) → AreNoted start noted syncs.old.items → AreNoted start noted syncs.new.items }
    ensures fewer { IsTrue result → length syncs.new.items < length syncs.old.items }
{
    match syncs.front() {
        Some(sync) if sync.frame <= frame => {
            syncs.pop_front();
            true
        }
        _ => false,
    }
}

/// Takes away the words that stand first and were told of frames that were run.
pub(crate) fn drop_run(syncs: &mut VecDeque<Sync>, frame: u32)
    ensures above { syncs_above frame syncs.new.items ≡ syncs_above frame syncs.old.items }
    ensures noted { (start : ℕ) (noted : Notes) → AreNoted start noted syncs.old.items → AreNoted start noted syncs.new.items }
{
    'words: while pop_run(syncs, frame) {}
}
