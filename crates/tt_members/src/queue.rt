//! The order of downloads: the first one downloads, the others wait.
ghost use Rattle.std.specs.Prelude.{◌≡◌, ◌≤◌, ◌<◌, [], ◌∷◌, ◌++◌, length, slice_get, Some, IfSome, IsOk, IfOk, OnOk, OnErr};
ghost use Rattle.tt_members.specs.Edits.{place_of, without_place};
ghost use Rattle.tt_members.specs.Places.{behind_so_many, next_turn};

use std::alloc::Global;
use std::marker::Model;
use tt_frame::OutOfMemory;

/// The greatest number before it that one that waits is told.
const MOST_TOLD: usize = 255;

/// What one is told that comes into the queue.
#[derive(Clone, Copy, Debug, PartialEq, Eq)]
pub enum Place {
    /// Its download begins.
    Begin,
    /// It waits, and this many stand before it; 255 where there are more.
    Wait(u8),
}

/// The connections that asked for the map, in order.
///
/// Contracts see the connections, and for how many more there is room.
#[derive(Debug, Drop)]
pub struct Queue {
    conns: Vec<u32>,
}

impl Model for Queue {
    ghost use Rattle.std.specs.Prelude.{◌-◌, vec_len, vec_capacity};
    ghost use Rattle.tt_members.specs.Places.{Queued};

    ghost Value = { Queued };

    ghost view = { λ queue. record { conns = queue.conns.items; room = vec_capacity queue.conns - vec_len queue.conns } };
}

impl Queue {
    /// Nobody stands in it. It takes no memory yet.
    pub fn new(alloc: Global) -> Queue
        ensures empty { result.conns ≡ [] }
    {
        Queue {
            conns: Vec::new(alloc),
        }
    }

    /// The connections, in order.
    pub fn all(&self) -> &[u32]
        ensures all { result.now ≡ self.now.conns }
    {
        self.conns.as_slice()
    }

    /// The one that downloads. None exactly where nobody stands in it.
    pub fn first(&self) -> Option<u32>
        ensures first { result ≡ slice_get self.now.conns 0 }
    {
        self.conns.first().copied()
    }

    /// How many stand before a connection. None exactly where it doesn't stand in it.
    pub fn place(&self, conn: u32) -> Option<usize>
        ensures place { result ≡ place_of conn self.now.conns }
        ensures within { IfSome result (λ place. place < length self.now.conns) }
    {
        self.conns.iter().position(|one| *one == conn)
    }

    /// Takes the memory for one more.
    pub fn reserve(&mut self) -> Result<(), OutOfMemory>
        ensures room { OnOk result (1 ≤ self.new.room) }
        ensures same { self.new.conns ≡ self.old.conns }
    {
        self.conns.reserve(1)?;
        Ok(())
    }

    /// A connection stands last from now on. Where there is room for it, this takes no memory; at an error nothing has changed.
    pub fn ask(&mut self, conn: u32) -> Result<Place, OutOfMemory>
        ensures last { OnOk result (self.new.conns ≡ self.old.conns ++ conn ∷ []) }
        ensures place { IfOk result (λ place. place ≡ behind_so_many (length self.old.conns)) }
        ensures ready { 1 ≤ self.old.room → IsOk result }
        ensures err { OnErr result (self.new.conns ≡ self.old.conns) }
    {
        let place = behind(self.conns.len());
        self.conns.push(conn)?;
        Ok(place)
    }

    /// A connection stands in it no longer: the connection whose turn it becomes by this. None exactly where it becomes
    /// nobody's.
    pub fn leave(&mut self, conn: u32) -> Option<u32>
        ensures left { self.new.conns ≡ without_place (place_of conn self.old.conns) self.old.conns }
        ensures turn { result ≡ next_turn (place_of conn self.old.conns) self.old.conns }
        ensures room { self.old.room ≤ self.new.room }
    {
        let place = self.place(conn)?;
        let next = second_if(place, self.conns.as_slice());
        self.conns.remove(place);
        next
    }
}

/// What one is told that stands behind so many.
fn behind(before: usize) -> Place
    ensures place { result ≡ behind_so_many before }
{
    if before == 0 {
        return Place::Begin;
    }
    Place::Wait(before.min(MOST_TOLD) as u8)
}

/// The second connection, where the first place gets free.
fn second_if(place: usize, conns: &[u32]) -> Option<u32>
    ensures turn { result ≡ next_turn (Some place) conns.now }
{
    if place > 0 {
        return None;
    }
    conns.get(1).copied()
}
