//! The members of a game: what something does that comes to them is planned without a change, and put in force without memory.
ghost use Rattle.std.specs.Prelude.{◌≡◌, ◌≤◌, ◌<◌, [], OnOk, IfOk, find, is_some, length};
ghost use Rattle.tt_world.specs.Setup.{Fits};
ghost use Rattle.tt_log.specs.Table.{Table, downloader, if_loading, is_on};
ghost use Rattle.tt_members.specs.Crew.{founders_in};
ghost use Rattle.tt_members.specs.Done.{committed};
ghost use Rattle.tt_members.specs.Planned.{nothing};
ghost use Rattle.tt_members.specs.Rules.{Rise};
ghost use Rattle.tt_members.specs.Steps.{stamped_in};
ghost use Rattle.tt_join.specs.Inputs.{IsTaken, Plans};
ghost use Rattle.tt_join.specs.Members.{IsNext, IsOrdered, is_locked};

use crate::input::{Input, Now};
use std::alloc::Global;
use std::marker::Model;
use tt_frame::{Digest, OutOfMemory};
use tt_members::{Member, Plan, Queue, count_founders, place_of};
use tt_rules::Status;
use tt_world::{Command, Setup};

/// The members of a game, in order of arrival, with what only they need. Contracts see the setup, their part of the game's
/// table, and for how many more of each list there is room.
#[derive(Drop)]
pub struct Members {
    pub(crate) alloc: Global,
    pub(crate) setup: Setup,
    pub(crate) members: Vec<Member>,
    pub(crate) queue: Queue,
    pub(crate) digests: Vec<(u8, Digest)>,
    pub(crate) own: Vec<Command>,
    pub(crate) tokens: (u32, u32),
    pub(crate) clients: u32,
    pub(crate) founders: Vec<(u32, u32)>,
    pub(crate) spare: Option<Plan>,
}

impl Model for Members {
    ghost use Rattle.std.specs.Prelude.{◌-◌, ◌<◌, ◌^◌, vec_len, vec_capacity};
    ghost use Rattle.tt_members.specs.Rules.{Rise};
    ghost use Rattle.tt_world.specs.Setup.{Fits};
    ghost use Rattle.tt_join.specs.Members.{Kept};

    ghost Value = { Kept };

    ghost view = { λ m. record {
      setup = m.setup;
      crew = record {
        members = m.members.items;
        queue = m.queue.conns;
        digests = m.digests.items;
        own = m.own.items;
        tokens = m.tokens;
        clients = m.clients;
        founders = m.founders.items;
      };
      room = record {
        members = vec_capacity m.members - vec_len m.members;
        queue = m.queue.room;
        digests = vec_capacity m.digests - vec_len m.digests;
        own = vec_capacity m.own - vec_len m.own;
        founders = vec_capacity m.founders - vec_len m.founders;
      };
    } };

    ghost invariant = { λ m. Rise m.members.items × Fits m.setup × (m.clients < 2 ^ 32) };
}

impl Members {
    /// Nobody is there. It takes no memory yet.
    pub fn new(alloc: Global, setup: &Setup) -> Members
        requires { Fits setup.now }
        ensures setup { result.setup ≡ setup.now }
        ensures members { result.crew.members ≡ [] }
        ensures queue { result.crew.queue ≡ [] }
        ensures digests { result.crew.digests ≡ [] }
        ensures own { result.crew.own ≡ [] }
        ensures tokens { result.crew.tokens ≡ (setup.now.seed, setup.now.seed) }
        ensures clients { result.crew.clients ≡ 1 }
        ensures founders { result.crew.founders ≡ [] }
    {
        Members {
            alloc,
            setup: setup.copy(),
            members: Vec::new(alloc),
            queue: Queue::new(alloc),
            digests: Vec::new(alloc),
            own: Vec::new(alloc),
            tokens: (setup.seed, setup.seed),
            clients: 1,
            founders: Vec::new(alloc),
            spare: None,
        }
    }

    /// The members, in order of arrival.
    pub fn all(&self) -> &[Member]
        ensures all { result.now ≡ self.now.crew.members }
    {
        self.members.as_slice()
    }

    /// Whether a company has a password.
    pub fn locked(&self, company: u8) -> bool
        ensures locked { result ≡ is_locked self.now.crew.digests company }
    {
        has_digest(&self.digests, company)
    }

    /// Whether a member downloads its map: the first of the queue, until it was told its map whole.
    pub fn downloads(&self) -> bool
        ensures downloads { (t : Table) → t.members ≡ self.now.crew.members → t.queue ≡ self.now.crew.queue
            → result ≡ is_some (downloader t) }
    {
        match self.queue.first() {
            Some(conn) => is_loading(&self.members, conn),
            None => false,
        }
    }

    /// Room for one more in each list.
    fn reserve(&mut self) -> Result<(), OutOfMemory>
        ensures crew { self.new.crew ≡ self.old.crew }
        ensures setup { self.new.setup ≡ self.old.setup }
        ensures members { OnOk result (1 ≤ self.new.room.members) }
        ensures queue { OnOk result (1 ≤ self.new.room.queue) }
        ensures digests { OnOk result (1 ≤ self.new.room.digests) }
        ensures own { OnOk result (1 ≤ self.new.room.own) }
    {
        self.members.reserve(1)?;
        self.queue.reserve()?;
        self.digests.reserve(1)?;
        self.own.reserve(1)?;
        Ok(())
    }

    /// Plans what something does that comes to the members, and leaves them as they are.
    ///
    /// Takes all memory that is wanted, also for putting the plan in force.
    ///
    /// # Errors
    ///
    /// Where memory is out, or no client number is left. The members are as they were then, and can plan again.
    pub fn plan(&mut self, now: &Now, input: Input) -> Result<Plan, OutOfMemory>
        requires taken { IsTaken self.old.crew.members now.now input }
        ensures same { self.new.crew ≡ self.old.crew }
        ensures setup { self.new.setup ≡ self.old.setup }
        ensures next { IfOk result (λ plan. IsNext self.new plan) }
        ensures plans { IfOk result (λ plan. Plans self.old.setup self.old.crew now.now input plan) }
    {
        self.reserve()?;
        let mut plan = self.empty_plan();
        match self.fill(now, input, &mut plan) {
            Ok(()) => Ok(plan),
            Err(error) => {
                self.keep(plan);
                Err(error)
            }
        }
    }

    /// A plan that holds nothing yet: the one that is kept, or a new one.
    fn empty_plan(&mut self) -> Plan
        ensures nothing { result ≡ nothing }
        ensures same { self.new ≡ self.old }
    {
        match self.spare.take() {
            Some(kept) => {
                let mut plan = kept;
                plan.clear();
                plan
            }
            None => Plan::new(self.alloc),
        }
    }

    /// Keeps the memory of a plan for the next one.
    fn keep(&mut self, plan: Plan)
        ensures same { self.new ≡ self.old }
    {
        let mut plan = plan;
        plan.clear();
        self.spare = Some(plan);
    }

    /// Fills a plan, and makes room for the founders that it brings.
    fn fill(&mut self, now: &Now, input: Input, plan: &mut Plan) -> Result<(), OutOfMemory>
        requires taken { IsTaken self.old.crew.members now.now input }
        requires empty { plan.old ≡ nothing }
        ensures crew { self.new.crew ≡ self.old.crew }
        ensures setup { self.new.setup ≡ self.old.setup }
        ensures members { self.new.room.members ≡ self.old.room.members }
        ensures queue { self.new.room.queue ≡ self.old.room.queue }
        ensures digests { self.new.room.digests ≡ self.old.room.digests }
        ensures own { self.new.room.own ≡ self.old.room.own }
        ensures founders { OnOk result (length (founders_in (stamped_in plan.new.steps)) ≤ self.new.room.founders) }
        ensures ordered { OnOk result (IsOrdered self.old.crew plan.new) }
        ensures plans { OnOk result (Plans self.old.setup self.old.crew now.now input plan.new) }
    {
        self.planned(now, input, plan)?;
        self.founders.reserve(count_founders(plan.steps()))?;
        Ok(())
    }

    /// Puts a plan in force. It takes no memory.
    pub fn commit(&mut self, plan: Plan)
        requires { IsNext self.old plan }
        ensures committed { self.new.crew ≡ committed plan self.old.crew }
        ensures setup { self.new.setup ≡ self.old.setup }
    {
        let mut plan = plan;
        plan.put_members(&mut self.members, &mut self.queue);
        plan.put_digests(&mut self.digests);
        plan.put_orders(&mut self.own);
        plan.put_founders(&mut self.founders);
        self.tokens = plan.words_behind(self.tokens);
        self.clients = plan.clients_behind(self.clients);
        plan.clear();
        self.spare = Some(plan);
    }
}

/// Whether the member on a connection is told its map.
fn is_loading(members: &[Member], conn: u32) -> bool
    requires rise { Rise members.now }
    ensures loading { result ≡ is_some (if_loading (find (is_on conn) members.now)) }
{
    match place_of(members, conn) {
        Some(at) => members[at].marks().status == Status::Map,
        None => false,
    }
}

/// Whether one of some digests is a company's.
fn has_digest(digests: &[(u8, Digest)], company: u8) -> bool
    ensures has { result ≡ is_locked digests.now company }
{
    for digest in digests.iter() {
        if digest.0 == company {
            return true;
        }
    }
    false
}
