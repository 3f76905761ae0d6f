//! Each event is planned: what it is to do stands in a `Change`, and nothing is changed.
ghost use Rattle.std.specs.Prelude.{◌≡◌, ◌≤◌, ◌<◌, ◌+◌, ◌^◌, false, true, IfOk, OnOk, is_some, length};
ghost use Rattle.tt_log.specs.Events.{takes};
ghost use Rattle.tt_log.specs.Origin.{Origin};
ghost use Rattle.tt_log.specs.Table.{Table, world_of};
ghost use Rattle.tt_members.specs.Steps.{stamped_in};
ghost use Rattle.tt_join.specs.Members.{IsNext};
ghost use Rattle.tt_join.specs.Ties.{IsTied};
ghost use Rattle.tt_table.specs.Coming.{Comes};
ghost use Rattle.tt_table.specs.Does.{HasRoom, IsBegun, IsChange, begins_map};
ghost use Rattle.tt_table.specs.Held.{table};

use crate::change::Change;
use crate::frames::count_stamps;
use crate::game::Game;
use crate::needs::{begins_map, begun};
use std::alloc::Global;
use tt_edge::{Door, Event};
use tt_frame::OutOfMemory;
use tt_join::{Input, a_plan_is_its_rule};
use tt_members::{Plan, Step};
use tt_outgoing::Download;
use tt_world::World;

/// How many events a game can take.
const MOST_EVENTS: u64 = (1 << 63) - 1;

impl Game {
    /// What an event is to do that can be taken. The game is left as it is; what `put` needs is there then.
    ///
    /// # Errors
    ///
    /// Where memory is out. The event may come again.
    pub fn plan(&mut self, event: &Event) -> Result<Change, OutOfMemory>
        requires taken { takes (table self.old) event.now ≡ true }
        ensures origin { self.new.origin ≡ self.old.origin }
        ensures events { self.new.events ≡ self.old.events }
        ensures change { IfOk result (λ c. IsChange self.old.origin event.now (table self.old) c) }
        ensures room { IfOk result (λ c. HasRoom self.new c) }
    {
        self.make_room()?;
        match event {
            Event::Open {
                door: Door::Main,
                ..
            } => self.plan_opening(),
            Event::Open {
                door: Door::Side,
                ..
            } => self.plan_side_opening(),
            Event::Packet { conn, kind, body } => self.plan_packet(*conn, *kind, body.bytes()),
            Event::Broken { conn } => self.plan_broken(*conn),
            Event::Shut { conn } => self.plan_shut(*conn),
            Event::Tick => self.plan_tick(),
            Event::Stop => Ok(stopping(Change::none(self.alloc))),
        }
    }

    /// Makes room for an event more.
    fn make_room(&mut self) -> Result<(), OutOfMemory>
        ensures origin { self.new.origin ≡ self.old.origin }
        ensures events { self.new.events ≡ self.old.events }
        ensures spare { OnOk result (1 ≤ self.new.spare) }
        ensures few { OnOk result (length self.new.events + 1 < 2 ^ 63) }
    {
        if self.count >= MOST_EVENTS {
            return Err(OutOfMemory);
        }
        self.history.reserve()
    }

    /// The members' plan of what comes to them, with room for the entries that it stamps.
    pub(crate) fn plan_members(&mut self, input: Input) -> Result<Plan, OutOfMemory>
        requires going { (table self.old).over ≡ false }
        requires comes { Comes (table self.old) input }
        ensures origin { self.new.origin ≡ self.old.origin }
        ensures events { self.new.events ≡ self.old.events }
        ensures spare { self.new.spare ≡ self.old.spare }
        ensures tied { IfOk result (λ plan. IsTied self.old.origin (table self.old) input plan) }
        ensures next { IfOk result (λ plan. IsNext self.new.members plan) }
        ensures entries { IfOk result (λ plan. length (stamped_in plan.steps) ≤ self.new.room) }
    {
        a_plan_is_its_rule();
        let now = self.now();
        let plan = self.members.plan(&now, input)?;
        self.journal.reserve(count_stamps(plan.steps()))?;
        Ok(plan)
    }
}

/// A change by which the game is over, too.
fn stopping(change: Change) -> Change
    ensures stops { result ≡ record change { stops = true } }
{
    let mut change = change;
    change.stops = true;
    change
}

/// The download that begins with these steps, where one begins: that of a world.
pub(crate) fn download_by(
    alloc: Global,
    steps: &[Step],
    world: &World,
) -> Result<Option<Download>, OutOfMemory>
    ensures begins { IfOk result (λ download. is_some download ≡ begins_map steps.now) }
    ensures begun { IfOk result (λ download. (o : Origin) (t : Table) → world.now ≡ world_of o t → IsBegun o t download) }
{
    if !begins_map(steps) {
        return Ok(None);
    }
    Ok(Some(begun(alloc, world)?))
}
