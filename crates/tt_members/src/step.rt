//! What a plan tells: steps, in order.
ghost use Rattle.std.specs.Prelude.{◌≡◌, ◌++◌, ◌∷◌, [], OnOk};
ghost use Rattle.tt_members.specs.Steps.{says};
ghost use Rattle.tt_members.specs.declared.step.Audience.TheVariants.{One};

use std::alloc::Global;
use std::marker::Model;
use tt_frame::OutOfMemory;
use tt_log::deed::{Conns, What};

/// Who is told something.
#[derive(Debug, Drop)]
pub enum Audience {
    /// One connection.
    One(u32),
    /// Some connections, by their numbers.
    Several(Conns),
    /// The admins that are told a type of updates at once, by the number of the type.
    Watching(u16),
}

/// One step: who is told, and what. A step stands also where nobody is told.
#[derive(Debug, Drop)]
pub struct Step {
    /// Who is told.
    pub to: Audience,
    /// What they are told.
    pub what: What,
}

/// Steps, in order. Contracts see them as a list.
#[derive(Debug, Drop)]
pub struct Steps {
    list: Vec<Step>,
}

impl Model for Steps {
    ghost use Rattle.std.specs.Prelude.{List};
    ghost use Rattle.tt_members.specs.declared.step.Step.{Step};

    ghost Value = { List Step };

    ghost view = { λ s. s.list.items };
}

impl Steps {
    /// No step. It takes no memory yet.
    pub fn new(alloc: Global) -> Steps
        ensures none { result ≡ [] }
    {
        Steps {
            list: Vec::new(alloc),
        }
    }

    /// The steps.
    pub fn list(&self) -> &[Step]
        ensures steps { result.now ≡ self.now }
    {
        self.list.as_slice()
    }

    /// There is no step any more. The memory of the list is kept.
    pub fn clear(&mut self)
        ensures none { self.new ≡ [] }
    {
        self.list.clear();
    }

    /// One step more.
    pub fn tell(&mut self, to: Audience, what: What) -> Result<(), OutOfMemory>
        ensures told { OnOk result (self.new ≡ self.old ++ says to what ∷ []) }
    {
        self.list.push(Step { to, what })?;
        Ok(())
    }

    /// One connection is told something. It takes memory for the step alone.
    pub fn tell_one(&mut self, conn: u32, what: What) -> Result<(), OutOfMemory>
        ensures told { OnOk result (self.new ≡ self.old ++ says (One conn) what ∷ []) }
    {
        self.tell(Audience::One(conn), what)
    }
}
