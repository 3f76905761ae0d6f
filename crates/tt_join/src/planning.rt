//! What comes to the members, planned: each with its own rule.
ghost use Rattle.std.specs.Prelude.{◌≡◌, ◌≤◌, OnOk, IfSome};
ghost use Rattle.tt_rules.specs.declared.status.Verdict.TheVariants.{Allowed};
ghost use Rattle.tt_log.specs.Judged.{judged_by, refused};
ghost use Rattle.tt_rules.specs.Verdict.{verdict_of};
ghost use Rattle.tt_log.specs.Origin.{Origin};
ghost use Rattle.tt_log.specs.Table.{Table};
ghost use Rattle.tt_members.specs.Leaving.{farewell_of, IsParting};
ghost use Rattle.tt_members.specs.Planned.{nothing};
ghost use Rattle.tt_join.specs.Entering.{ending_plan, entered, leaving_plan};
ghost use Rattle.tt_join.specs.declared.input.Input.TheVariants.{Msg, Bad, Shut};
ghost use Rattle.tt_join.specs.Inputs.{Plans};
ghost use Rattle.tt_join.specs.Joining.{made_from, with_crew};
ghost use Rattle.tt_join.specs.Members.{IsOrdered};
ghost use Rattle.tt_join.specs.Planning.{allowed_plan, heard_plan, judged_here, IsCode};

use crate::entering::{acknowledge, ask, end_told, end_untold, enter};
use crate::input::Now;
use crate::joining::{company_password, game_info, game_password, join, set_name};
use crate::members::Members;
use crate::playing::{chat, move_to, set_password, wait};
use crate::refusing::refused;
use crate::scene::Scene;
use tt_frame::OutOfMemory;
use tt_game::GameMsg;
use tt_members::{Member, Parting, Plan, place_of};
use tt_rules::{Verdict, command_of, verdict};

/// Ends a connection: it said what spells nothing.
const ILLEGAL_PACKET: u8 = 4;

/// Ends a connection: it was lost.
const CONNECTION_LOST: u8 = 3;

impl Members {
    /// What a message of a member is judged.
    fn judge(&self, now: &Now, m: &Member, msg: &GameMsg) -> Verdict
        ensures judged { (o : Origin) (t : Table) → result
            ≡ judged_by now.now.live (made_from self.now.setup o) (with_crew self.now.crew.members self.now.crew.digests t) m.now msg.now }
        ensures code { IsCode result }
    {
        match verdict(&m.standing(), &now.live, msg) {
            Verdict::Ends(code) => Verdict::Ends(code),
            Verdict::Allowed => verdict_of(self.refused(now, m, msg)),
        }
    }

    /// The code for which a packet is refused that its member's standing allows, if it is.
    fn refused(&self, now: &Now, m: &Member, msg: &GameMsg) -> Option<u8>
        ensures refused { (o : Origin) (t : Table) → result
            ≡ refused (made_from self.now.setup o) now.now.live (with_crew self.now.crew.members self.now.crew.digests t) m.now msg.now }
        ensures code { IfSome result (λ code. code ≤ 20) }
    {
        let scene = Scene {
            alloc: self.alloc,
            setup: &self.setup,
            members: &self.members,
            digests: &self.digests,
            frame: now.frame,
        };
        refused(scene, &now.live, m, msg)
    }

    /// What a message does that is allowed.
    fn allowed(
        &self,
        now: &Now,
        m: &Member,
        msg: &GameMsg,
        plan: &mut Plan,
    ) -> Result<(), OutOfMemory>
        requires empty { plan.old ≡ nothing }
        requires allowed { judged_here self.now.setup self.now.crew now.now.live m.now msg.now ≡ Allowed }
        ensures plan { OnOk result (plan.new ≡ allowed_plan self.now.setup self.now.crew now.now m.now msg.now) }
    {
        let scene = Scene {
            alloc: self.alloc,
            setup: &self.setup,
            members: &self.members,
            digests: &self.digests,
            frame: now.frame,
        };
        match msg {
            GameMsg::ClientJoin { name, company, .. } => join(scene, m, name, *company, plan),
            GameMsg::ClientGameInfo => game_info(scene, &now.live, m, plan),
            GameMsg::ClientGamePassword { .. } => game_password(scene, m, plan),
            GameMsg::ClientCompanyPassword { .. } => company_password(scene, m, plan),
            GameMsg::ClientGetmap => ask(&self.queue, now.frame, m, plan),
            GameMsg::ClientMapOk => self.enter(now, m, plan),
            GameMsg::ClientAck { frame, token } => {
                acknowledge(
                    self.alloc,
                    &self.members,
                    now.frame,
                    m,
                    *frame,
                    *token,
                    plan,
                )
            }
            GameMsg::ClientCommand {
                company,
                code,
                number,
                to,
                text,
            } => {
                wait(m, *company, command_of(*code, *number, *to, text), plan);
                Ok(())
            }
            GameMsg::ClientChat { scope, to, text } => {
                let client = m.client();
                chat(
                    self.alloc,
                    &self.members,
                    client,
                    *scope,
                    *to,
                    text.bytes(),
                    plan,
                )
            }
            GameMsg::ClientSetName { name } => set_name(scene, m, name, plan),
            GameMsg::ClientSetPassword { digest } => {
                set_password(m, *digest, plan);
                Ok(())
            }
            GameMsg::ClientMove { company, .. } => {
                move_to(self.alloc, &self.members, m, *company, plan)
            }
            GameMsg::ClientError { code } => self.end(now, m, Parting::Fails(code.get()), plan),
            GameMsg::ClientQuit => self.end(now, m, Parting::Quits, plan),
            _ => Ok(()),
        }
    }

    /// What a message of a member does, by its verdict.
    fn hear(&self, now: &Now, m: &Member, msg: &GameMsg, plan: &mut Plan) -> Result<(), OutOfMemory>
        requires empty { plan.old ≡ nothing }
        ensures heard { (o : Origin) (t : Table) → OnOk result (plan.new
            ≡ heard_plan (judged_by now.now.live (made_from self.now.setup o) (with_crew self.now.crew.members self.now.crew.digests t)
            m.now msg.now) self.now.setup self.now.crew now.now m.now msg.now) }
    {
        match self.judge(now, m, msg) {
            Verdict::Allowed => self.allowed(now, m, msg, plan),
            Verdict::Ends(code) => self.end_with(now, m, code, plan),
        }
    }

    /// What a message on a connection does.
    pub(crate) fn msg(
        &self,
        now: &Now,
        conn: u32,
        msg: &GameMsg,
        plan: &mut Plan,
    ) -> Result<(), OutOfMemory>
        requires { plan.old ≡ nothing }
        ensures plans { OnOk result (Plans self.now.setup self.now.crew now.now (Msg conn msg.now) plan.new) }
        ensures ordered { OnOk result (IsOrdered self.now.crew plan.new) }
    {
        let Some(at) = place_of(&self.members, conn) else {
            return Ok(());
        };
        self.hear(now, &self.members[at], msg, plan)
    }

    /// What comes of bytes on a connection that spell nothing.
    pub(crate) fn bad(&self, now: &Now, conn: u32, plan: &mut Plan) -> Result<(), OutOfMemory>
        requires { plan.old ≡ nothing }
        ensures plans { OnOk result (Plans self.now.setup self.now.crew now.now (Bad conn) plan.new) }
        ensures ordered { OnOk result (IsOrdered self.now.crew plan.new) }
    {
        let Some(at) = place_of(&self.members, conn) else {
            return Ok(());
        };
        self.end_with(now, &self.members[at], ILLEGAL_PACKET, plan)
    }

    /// What the end of a connection does.
    pub(crate) fn shut(&self, now: &Now, conn: u32, plan: &mut Plan) -> Result<(), OutOfMemory>
        requires { plan.old ≡ nothing }
        ensures plans { OnOk result (Plans self.now.setup self.now.crew now.now (Shut conn) plan.new) }
        ensures ordered { OnOk result (IsOrdered self.now.crew plan.new) }
    {
        let Some(at) = place_of(&self.members, conn) else {
            return Ok(());
        };
        self.end(
            now,
            &self.members[at],
            Parting::Fails(CONNECTION_LOST),
            plan,
        )
    }

    /// A member is told a code, and ends.
    pub(crate) fn end_with(
        &self,
        now: &Now,
        m: &Member,
        code: u8,
        plan: &mut Plan,
    ) -> Result<(), OutOfMemory>
        requires code { code ≤ 20 }
        requires empty { plan.old ≡ nothing }
        ensures plan { OnOk result (plan.new ≡ ending_plan code now.now.frame self.now.crew.members self.now.crew.queue m.now) }
    {
        end_told(
            self.alloc,
            &self.members,
            &self.queue,
            now.frame,
            m,
            code,
            plan,
        )
    }

    /// MAP_OK: a member is in the game, and catches up.
    fn enter(&self, now: &Now, m: &Member, plan: &mut Plan) -> Result<(), OutOfMemory>
        requires { plan.old ≡ nothing }
        ensures plan { OnOk result (plan.new
            ≡ entered now.now.frame now.now.top self.now.crew.tokens self.now.crew.members self.now.crew.queue m.now) }
    {
        let words = self.tokens;
        enter(
            &self.members,
            &self.queue,
            words,
            now.frame,
            now.top,
            m,
            plan,
        )
    }

    /// A member ends untold.
    fn end(
        &self,
        now: &Now,
        m: &Member,
        parting: Parting,
        plan: &mut Plan,
    ) -> Result<(), OutOfMemory>
        requires parting { IsParting parting }
        requires empty { plan.old ≡ nothing }
        ensures plan { OnOk result (plan.new
            ≡ leaving_plan (farewell_of parting) now.now.frame self.now.crew.members self.now.crew.queue m.now) }
    {
        end_untold(
            self.alloc,
            &self.members,
            &self.queue,
            now.frame,
            m,
            parting,
            plan,
        )
    }
}

/// Allowed, where there is no reason against it.
fn verdict_of(code: Option<u8>) -> Verdict
    ensures verdict { result ≡ verdict_of code }
{
    match code {
        None => Verdict::Allowed,
        Some(code) => Verdict::Ends(code),
    }
}
