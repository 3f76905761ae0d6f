//! The commands of a member that wait to be stamped.
ghost use Rattle.std.specs.Prelude.{◌≡◌, ◌++◌, ◌∷◌, [], ◌<◌, ◌≤◌, ◌↔◌, length, drop, slice_get, option_copied, IfOk, IsTrue, IsFalse};

use circular_buffer::HeapCircularBuffer;
use std::alloc::Global;
use std::marker::Model;
use tt_frame::OutOfMemory;
use tt_world::Command;

/// How many commands of a member may wait.
const MOST_WAITING: usize = 16;

/// The commands of a member that wait, the oldest first, each with the company for which it was allowed. At most sixteen wait.
/// Only `new` takes memory.
///
/// Contracts see them as a list of pairs.
#[derive(Drop)]
pub struct Waiting {
    ring: HeapCircularBuffer<(u8, Command)>,
}

impl Model for Waiting {
    ghost use Rattle.std.specs.Prelude.{◌≡◌, ℕ, List};
    ghost use Rattle.tt_world.specs.declared.command.Command.{Command};

    ghost Value = { List (ℕ × Command) };

    ghost view = { λ w. w.ring.items };

    ghost invariant = { λ w. w.ring.capacity ≡ 16 };
}

impl Waiting {
    /// None waits. It takes memory for sixteen.
    pub fn new(alloc: Global) -> Result<Waiting, OutOfMemory>
        ensures none { IfOk result (λ w. w ≡ []) }
    {
        let ring = HeapCircularBuffer::with_capacity(alloc, MOST_WAITING)?;
        Ok(Waiting { ring })
    }

    /// How many wait.
    pub fn len(&self) -> usize
        ensures len { result ≡ length self.now }
        ensures most { result ≤ 16 }
    {
        self.ring.len()
    }

    /// The command at a place, the oldest at place 0, with its company; none where so many don't wait.
    pub fn get(&self, place: usize) -> Option<&(u8, Command)>
        ensures at { option_copied result ≡ slice_get self.now place }
    {
        self.ring.get(place)
    }

    /// A command waits behind the others, for this company. False exactly where sixteen wait, and then nothing has changed.
    pub fn offer(&mut self, company: u8, command: Command) -> bool
        ensures room { IsTrue result ↔ (length self.old < 16) }
        ensures last { IsTrue result → self.new ≡ self.old ++ (company, command) ∷ [] }
        ensures full { IsFalse result → self.new ≡ self.old }
    {
        self.ring.try_push_back((company, command)).is_ok()
    }

    /// The oldest command waits no longer, with its company. None exactly where none waits.
    pub fn draw(&mut self) -> Option<(u8, Command)>
        ensures oldest { result ≡ slice_get self.old 0 }
        ensures rest { self.new ≡ drop 1 self.old }
    {
        self.ring.pop_front()
    }
}
