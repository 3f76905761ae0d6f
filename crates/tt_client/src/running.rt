//! What a client runs.
ghost use Rattle.std.specs.Prelude.{◌≡◌, ◌<◌, ◌≤◌, ◌+◌, ◌-◌, ℕ, suc, min, length, IfNone, IsSome, IsTrue, IfSome, IfOk, OnOk, OnErr};
ghost use Rattle.tt_lockstep.specs.Journal.{AreRising, above, applied_all, of_frame};
ghost use Rattle.tt_lockstep.specs.Runner.{RunnerJoining, RunnerRunning, next_world, runner_advanced, runner_hears, runner_sync};
ghost use Rattle.tt_lockstep.specs.Told.{Map};
ghost use Rattle.tt_world.specs.Economy.{framed};
ghost use Rattle.tt_client.specs.Known.{known};
ghost use Rattle.tt_client.specs.Hearing.{Sound, with_news};
ghost use Rattle.tt_client.specs.Frames.{behind_due, first_due, first_other, framed_on, mismatch_of, runner_by};

use crate::news::News;
use crate::noted::{Noted, drop_run, note_all, other_word};
use circular_buffer::HeapCircularBuffer;
use std::alloc::Global;
use std::collections::{BTreeMap, VecDeque};
use std::marker::Model;
use tt_frame::OutOfMemory;
use tt_world::{Entry, World};

/// So many of its own last words a client keeps.
const WORDS: usize = 128;

/// A word that was told of a frame, and how far the client might run then.
#[derive(Clone, Copy, Debug, PartialEq, Eq)]
pub struct Sync {
    pub frame: u32,
    pub word: u32,
    pub permitted: u32,
}

impl Model for Sync {
    ghost use Rattle.tt_lockstep.specs.Shown.{SyncPoint};

    ghost Value = { SyncPoint };

    ghost view = { λ s. record { frame = s.frame; word = s.word; permitted = s.permitted } };

    ghost inverse = { λ s. record { frame = s.frame; word = s.word; permitted = s.permitted } };
}

/// A frame at which a client is out of step: its own word, and the one that it was told.
#[derive(Clone, Copy, Debug, PartialEq, Eq)]
pub struct Mismatch {
    pub frame: u32,
    pub mine: u32,
    pub theirs: u32,
}

/// What a client runs: one world, the entries above its frame, its last 128 words, and the words told of frames to come, in the
/// order in which they came and noted by frame.
#[derive(Drop)]
pub struct Running {
    world: World,
    frame: u32,
    permitted: u32,
    last_entry: u32,
    entries: VecDeque<Entry>,
    words: HeapCircularBuffer<u32>,
    syncs: VecDeque<Sync>,
    noted: BTreeMap<u32, Noted>,
}

impl Model for Running {
    ghost use Rattle.std.specs.Prelude.{◌≡◌, ◌≤◌, suc};
    ghost use Rattle.tt_lockstep.specs.Journal.{AreRising, AreUpTo};
    ghost use Rattle.tt_lockstep.specs.Runner.{Kept, syncs_above};
    ghost use Rattle.tt_world.specs.World.{WorldState};
    ghost use Rattle.tt_world.specs.declared.command.Entry.{Entry};
    ghost use Rattle.tt_client.specs.Known.{known};
    ghost use Rattle.tt_client.specs.Notes.{AreNoted};

    ghost Value = { Kept WorldState Entry };

    ghost view = { λ r. record {
      world = r.world;
      frame = r.frame;
      permitted = r.permitted;
      last_entry = r.last_entry;
      entries = r.entries.items;
      words = r.words.items;
      syncs = syncs_above r.frame r.syncs.items;
    } };

    ghost invariant = { λ r. (r.words.capacity ≡ 128) × (r.frame ≤ r.permitted)
        × AreRising known (suc r.frame) r.entries.items × AreUpTo known r.last_entry r.entries.items
        × AreNoted (suc r.frame) r.noted r.syncs.items };
}

/// Takes the first entry away, where it is for this frame.
fn pop_due(entries: &mut VecDeque<Entry>, frame: u32) -> Option<Entry>
    ensures first { result ≡ first_due frame entries.old.items }
    ensures rest { entries.new.items ≡ behind_due frame entries.old.items }
    ensures fewer { IsSome result → length entries.new.items < length entries.old.items }
{
    match entries.front() {
        Some(entry) if entry.frame == frame => entries.pop_front(),
        _ => None,
    }
}

/// Applies the entries of a frame, and takes them away.
fn apply_due(world: &mut World, entries: &mut VecDeque<Entry>, frame: u32)
    requires rising { AreRising known frame entries.old.items }
    ensures world { world.new ≡ applied_all known world.old (of_frame known frame entries.old.items) }
    ensures entries { entries.new.items ≡ above known frame entries.old.items }
{
    while let Some(entry) = pop_due(entries, frame) {
        world.apply(&entry);
    }
}

impl Running {
    /// A client to which the map of a frame has come whole.
    pub fn new(alloc: Global, world: World, frame: u32) -> Result<Running, OutOfMemory>
        ensures mapped { IfOk result (λ r. RunnerRunning r ≡ runner_hears known RunnerJoining (Map frame world)) }
    {
        Ok(Running {
            world,
            frame,
            permitted: frame,
            last_entry: frame,
            entries: VecDeque::new(alloc),
            words: HeapCircularBuffer::with_capacity(alloc, WORDS)?,
            syncs: VecDeque::new(alloc),
            noted: BTreeMap::new(alloc),
        })
    }

    /// Nothing that was heard yet.
    pub(crate) fn news(&self, alloc: Global) -> News
        ensures none { with_news self.now result ≡ self.now }
        ensures sound { Sound self.now }
    {
        News {
            permitted: self.permitted,
            last_entry: self.last_entry,
            entries: VecDeque::new(alloc),
            syncs: VecDeque::new(alloc),
        }
    }

    /// The frame that it has run.
    pub fn frame(&self) -> u32
        ensures frame { result ≡ self.now.frame }
    {
        self.frame
    }

    /// The frame up to which it may run.
    pub fn permitted(&self) -> u32
        ensures permitted { result ≡ self.now.permitted }
    {
        self.permitted
    }

    /// Its world.
    pub(crate) fn world(&self) -> &World
        ensures world { result.now ≡ self.now.world }
    {
        &self.world
    }

    /// Runs one frame, and answers the first word that was told of it and is another than its own.
    fn run_frame(&mut self) -> Option<u32>
        requires permitted { self.old.frame < self.old.permitted }
        ensures kept { self.new ≡ framed_on self.old }
        ensures other { result ≡ first_other (suc self.old.frame) (next_world known self.old).words.0 self.old.syncs }
    {
        let frame = self.frame + 1;
        apply_due(&mut self.world, &mut self.entries, frame);
        self.world.run_frame();
        let (mine, _) = self.world.random().words();
        self.words.push_front(mine);
        self.frame = frame;
        let other = other_word(&mut self.noted, &self.syncs, frame, mine);
        drop_run(&mut self.syncs, frame);
        other
    }

    /// Runs so many frames, as far as is permitted, and fewer where it finds itself out of step.
    pub fn advance(&mut self, n: u32) -> Option<Mismatch>
        ensures advanced { runner_by result self.new ≡ runner_advanced known n (RunnerRunning self.old) }
    {
        for _ in 0..n.min(self.permitted - self.frame) {
            if let Some(theirs) = self.run_frame() {
                let (mine, _) = self.world.random().words();
                return Some(Mismatch {
                    frame: self.frame,
                    mine,
                    theirs,
                });
            }
        }
        None
    }

    /// A word comes: that of a frame to come is kept, and that of one of the last 128 frames is compared.
    pub(crate) fn sync(
        &self,
        news: &mut News,
        frame: u32,
        word: u32,
    ) -> Result<Option<Mismatch>, OutOfMemory>
        ensures heard { IfOk result (λ off. runner_sync known (with_news self.now news.old) frame word
            ≡ runner_by off (with_news self.now news.new)) }
        ensures sound { OnOk result (Sound (with_news self.now news.old) → Sound (with_news self.now news.new)) }
    {
        if self.frame < frame {
            let permitted = news.permitted;
            news.keep(Sync {
                frame,
                word,
                permitted,
            })?;
            return Ok(None);
        }
        let mine = self.words.get((self.frame - frame) as usize).copied();
        Ok(compared(frame, mine, word))
    }

    /// Takes in what was heard, or nothing of it where memory runs out.
    pub(crate) fn take_in(&mut self, news: News) -> Result<(), OutOfMemory>
        requires sound { Sound (with_news self.old news) }
        ensures taken { OnOk result (self.new ≡ with_news self.old news) }
        ensures same { OnErr result (self.new ≡ self.old) }
    {
        let News {
            permitted,
            last_entry,
            mut entries,
            mut syncs,
        } = news;
        self.entries.reserve(entries.len())?;
        note_all(&mut self.noted, &syncs)?;
        self.syncs.append(&mut syncs)?;
        if self.entries.append(&mut entries).is_err() {
            unreachable!();
        }
        self.permitted = permitted;
        self.last_entry = last_entry;
        Ok(())
    }
}

/// A word of its own, if one is kept, compared with one that was told.
fn compared(frame: u32, mine: Option<u32>, theirs: u32) -> Option<Mismatch>
    ensures { result ≡ mismatch_of frame mine theirs }
{
    match mine {
        Some(mine) if mine != theirs => Some(Mismatch {
            frame,
            mine,
            theirs,
        }),
        _ => None,
    }
}
