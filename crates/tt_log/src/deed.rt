//! What a rule of the game's book tells, step by step: some connections, and what they are told.
ghost use Rattle.std.specs.Prelude.{◌≡◌};

use crate::report::Report;
use std::marker::Model;
use tt_game::GameMsg;
use tt_world::Entry;

/// What a step tells: a message, or what is filled in from the world, the map and the journal at the end of the event.
#[derive(Debug, Drop)]
pub enum What {
    /// This message, to members.
    Msg(GameMsg),
    /// This report, to admins.
    ToAdmin(Report),
    /// That the map begins: the frame, and the size of the map of its world.
    MapBegin,
    /// The next pieces of the map, and behind the last one that it is done.
    MapPieces,
    /// The frame and the first random word of its world.
    Sync,
    /// The entries of the journal above this frame.
    Entries { above: u32 },
    /// This entry, which goes into the journal.
    Stamp(Entry),
    /// Nothing: the connections end.
    End,
}

/// Connections, by their numbers. Contracts see them as a list.
#[derive(Debug, Drop)]
pub struct Conns {
    list: Vec<u32>,
}

impl Model for Conns {
    ghost use Rattle.std.specs.Prelude.{List, ℕ};

    ghost Value = { List ℕ };

    ghost view = { λ conns. conns.list.items };
}

impl Conns {
    /// The connections of a vector.
    pub fn new(list: Vec<u32>) -> Conns
        ensures conns { result ≡ list.items }
    {
        Conns { list }
    }

    /// Their numbers.
    pub fn numbers(&self) -> &[u32]
        ensures numbers { result.now ≡ self.now }
    {
        &self.list
    }
}

/// One step: who is told, and what. A step stands also where nobody is told.
#[derive(Debug, Drop)]
pub struct Step {
    /// Who is told.
    pub to: Conns,
    /// What they are told.
    pub what: What,
}
