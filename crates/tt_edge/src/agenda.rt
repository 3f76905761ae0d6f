//! Which calls of a link or a listener in memory are to fail, and which are to answer Nothing.
ghost use Rattle.std.specs.Prelude.{◌≡◌};
ghost use Rattle.tt_edge.specs.Agenda.{no_calls, one_more, IsNext};

use std::marker::Model;

/// What a call is to do.
#[derive(Clone, Copy, Debug, PartialEq, Eq)]
pub enum Turn {
    Work,
    /// It answers Nothing.
    Idle,
    Fail,
}

/// What the calls of an object in memory are to do, one after the other.
#[derive(Drop)]
pub struct Agenda {
    failing: Vec<u64>,
    idle: Vec<u64>,
    made: u64,
}

impl Model for Agenda {
    ghost use Rattle.tt_edge.specs.Agenda.{Calls};

    ghost Value = { Calls };

    ghost view = { λ a. record { failing = a.failing.items; idle = a.idle.items; made = a.made } };
}

impl Agenda {
    /// The calls with the numbers of `failing`, counted from 0, are to fail, and of the others those of `idle` are to
    /// answer Nothing. No call was made yet.
    pub fn new(failing: Vec<u64>, idle: Vec<u64>) -> Agenda
        ensures { result ≡ no_calls failing.items idle.items }
    {
        Agenda {
            failing,
            idle,
            made: 0,
        }
    }

    /// Counts a call, and answers what it is to do.
    pub fn next(&mut self) -> Turn
        ensures turn { IsNext self.old result }
        ensures counted { self.new ≡ one_more self.old }
    {
        let fails = self.failing.contains(&self.made);
        let idles = self.idle.contains(&self.made);
        self.made = self.made.saturating_add(1);
        if fails {
            return Turn::Fail;
        }
        if idles {
            return Turn::Idle;
        }
        Turn::Work
    }
}
