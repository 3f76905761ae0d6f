//! What comes to the members is planned: openings at the main door, packets, streams that break, and ends.
ghost use Rattle.std.specs.Prelude.{◌≡◌, ◌≤◌, ◌<◌, ◌+◌, ◌^◌, false, true, IfOk, length};
ghost use Rattle.tt_edge.specs.declared.event.Event.TheVariants.{Open, Packet, Broken, Shut};
ghost use Rattle.tt_edge.specs.declared.event.Door.TheVariants.{Main};
ghost use Rattle.tt_edge.specs.declared.event.Peer.{Peer};
ghost use Rattle.tt_log.specs.Events.{read_msg, takes};
ghost use Rattle.tt_join.specs.Inputs.{by_input};
ghost use Rattle.tt_join.specs.Ties.{packet_input};
ghost use Rattle.tt_table.specs.Coming.{by_order, Comes, ComesBy, IsPlanned};
ghost use Rattle.tt_table.specs.Does.{HasRoom, IsChange};
ghost use Rattle.tt_table.specs.Held.{table};

use crate::change::Change;
use crate::game::Game;
use crate::planning::download_by;
use std::alloc::Global;
use tt_frame::{Bad, OutOfMemory};
use tt_game::GameMsg;
use tt_join::{Input, an_event_is_its_input};

impl Game {
    /// An opening at the main door.
    pub(crate) fn plan_opening(&mut self) -> Result<Change, OutOfMemory>
        requires going { (table self.old).over ≡ false }
        requires spare { 1 ≤ self.old.spare }
        requires few { length self.old.events + 1 < 2 ^ 63 }
        ensures origin { self.new.origin ≡ self.old.origin }
        ensures events { self.new.events ≡ self.old.events }
        ensures change { IfOk result (λ c. (peer : Peer) → IsChange self.old.origin (Open Main peer) (table self.old) c) }
        ensures room { IfOk result (λ c. HasRoom self.new c) }
    {
        an_event_is_its_input();
        let conn = self.next_opening();
        self.plan_input(Input::Open { conn })
    }

    /// A packet of a connection that is live.
    pub(crate) fn plan_packet(
        &mut self,
        conn: u32,
        kind: u8,
        body: &[u8],
    ) -> Result<Change, OutOfMemory>
        requires taken { takes (table self.old) (Packet conn kind body.now) ≡ true }
        requires spare { 1 ≤ self.old.spare }
        requires few { length self.old.events + 1 < 2 ^ 63 }
        ensures origin { self.new.origin ≡ self.old.origin }
        ensures events { self.new.events ≡ self.old.events }
        ensures change { IfOk result (λ c. IsChange self.old.origin (Packet conn kind body.now) (table self.old) c) }
        ensures room { IfOk result (λ c. HasRoom self.new c) }
    {
        an_event_is_its_input();
        if self.has_member(conn) {
            let input = input_of(self.alloc, conn, kind, body)?;
            self.plan_input(input)
        } else {
            self.plan_admin_packet(conn, kind, body)
        }
    }

    /// A stream that breaks.
    pub(crate) fn plan_broken(&mut self, conn: u32) -> Result<Change, OutOfMemory>
        requires taken { takes (table self.old) (Broken conn) ≡ true }
        requires spare { 1 ≤ self.old.spare }
        requires few { length self.old.events + 1 < 2 ^ 63 }
        ensures origin { self.new.origin ≡ self.old.origin }
        ensures events { self.new.events ≡ self.old.events }
        ensures change { IfOk result (λ c. IsChange self.old.origin (Broken conn) (table self.old) c) }
        ensures room { IfOk result (λ c. HasRoom self.new c) }
    {
        an_event_is_its_input();
        if self.has_member(conn) {
            self.plan_input(Input::Bad { conn })
        } else {
            self.plan_admin_end(conn)
        }
    }

    /// A connection that is shut.
    pub(crate) fn plan_shut(&mut self, conn: u32) -> Result<Change, OutOfMemory>
        requires taken { takes (table self.old) (Shut conn) ≡ true }
        requires spare { 1 ≤ self.old.spare }
        requires few { length self.old.events + 1 < 2 ^ 63 }
        ensures origin { self.new.origin ≡ self.old.origin }
        ensures events { self.new.events ≡ self.old.events }
        ensures change { IfOk result (λ c. IsChange self.old.origin (Shut conn) (table self.old) c) }
        ensures room { IfOk result (λ c. HasRoom self.new c) }
    {
        an_event_is_its_input();
        if self.has_member(conn) {
            self.plan_input(Input::Shut { conn })
        } else {
            self.plan_admin_shut(conn)
        }
    }

    /// What comes to the members.
    pub(crate) fn plan_input(&mut self, input: Input) -> Result<Change, OutOfMemory>
        requires going { (table self.old).over ≡ false }
        requires comes { Comes (table self.old) input }
        requires spare { 1 ≤ self.old.spare }
        requires few { length self.old.events + 1 < 2 ^ 63 }
        ensures origin { self.new.origin ≡ self.old.origin }
        ensures events { self.new.events ≡ self.old.events }
        ensures planned { IfOk result (λ c. IsPlanned self.old.origin (table self.old)
            (by_input input self.old.origin (table self.old)) c) }
        ensures room { IfOk result (λ c. HasRoom self.new c) }
    {
        let plan = self.plan_members(input)?;
        let download = download_by(self.alloc, plan.steps(), &self.world)?;
        let mut change = Change::none(self.alloc);
        change.plan = Some(plan);
        change.download = download;
        Ok(change)
    }

    /// What an order brings to the members, where it brings something.
    pub(crate) fn plan_order(&mut self, order: Option<Input>) -> Result<Change, OutOfMemory>
        requires going { (table self.old).over ≡ false }
        requires comes { ComesBy (table self.old) order }
        requires spare { 1 ≤ self.old.spare }
        requires few { length self.old.events + 1 < 2 ^ 63 }
        ensures origin { self.new.origin ≡ self.old.origin }
        ensures events { self.new.events ≡ self.old.events }
        ensures planned { IfOk result (λ c. IsPlanned self.old.origin (table self.old)
            (by_order order self.old.origin (table self.old)) c) }
        ensures room { IfOk result (λ c. HasRoom self.new c) }
    {
        match order {
            Some(input) => self.plan_input(input),
            None => Ok(Change::none(self.alloc)),
        }
    }
}

/// What a packet is to the members, by what it spells.
fn input_of(alloc: Global, conn: u32, kind: u8, body: &[u8]) -> Result<Input, OutOfMemory>
    ensures input { IfOk result (λ input. input ≡ packet_input conn (read_msg kind body.now)) }
{
    match GameMsg::decode(alloc, kind, body) {
        Ok(msg) => Ok(Input::Msg { conn, msg }),
        Err(Bad::Malformed { .. }) => Ok(Input::Bad { conn }),
        Err(Bad::Memory) => Err(OutOfMemory),
    }
}
