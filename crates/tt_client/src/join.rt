//! What a client that joins makes of what it hears, worked out beside it before anything changes.
ghost use Rattle.std.specs.Prelude.{◌≡◌, ◌++◌, ◌≤◌, ◌+◌, ◌<◌, ℕ, List, true, Option, Some, drop, length};
ghost use Rattle.std.specs.Prelude.{IfOk, OnOk};
ghost use Rattle.tt_lockstep.specs.Told.{Other};
ghost use Rattle.tt_log.specs.Shown.{moves_on, told_asking, told_at, told_fetching};
ghost use Rattle.tt_game.specs.declared.message.GameMsg.TheVariants.{ServerMapDone};
ghost use Rattle.tt_rules.specs.Digest.{password_digest};
ghost use Rattle.tt_game.specs.declared.message.GameMsg.{GameMsg};
ghost use Rattle.tt_world.specs.World.{WorldState};
ghost use Rattle.tt_map.specs.Reading.{map_in};
ghost use Rattle.std.specs.Result.{result_ok};
ghost use Rattle.tt_client.specs.declared.login.Login.{Login};
ghost use Rattle.tt_client.specs.Answers.{answer};
ghost use Rattle.tt_client.specs.Player.{heard, heard_all, learnt, token_in};
ghost use Rattle.tt_client.specs.Runs.{running};
ghost use Rattle.tt_client.specs.Held.{IsBeforeMap, phase_of, place_of};
ghost use Rattle.tt_client.specs.declared.stage.Stage.TheVariants.{Asking, Fetching, Parted};
ghost use Rattle.tt_client.specs.Planned.{IsClear, IsJoining, JoinStands, at_door, bytes_said, joined_by, joins_still, map_bytes};
ghost use Rattle.tt_client.specs.Saying.{Saying};
ghost use Rattle.tt_client.specs.Verdicts.{told_as};

use crate::items::Item;
use crate::login::Login;
use crate::play::{company_behind, number_behind};
use crate::running::Running;
use crate::stage::{Phase, Stage, end_of};
use crate::verdict::{Verdict, asking, begun, greeted};
use std::alloc::Global;
use tt_frame::{Digest, Line, Name, OutOfMemory, Text};
use tt_game::GameMsg;
use tt_map::{MapBad, decode_map};
use tt_rules::password_digest;
use tt_world::World;

/// What a client that joins has made of what it heard.
#[derive(Drop)]
pub struct Join {
    pub(crate) stage: Stage,
    /// The bytes of its map that have come with what it heard.
    pub(crate) more: Vec<u8>,
    pub(crate) phase: Phase,
    pub(crate) number: u32,
    pub(crate) company: u8,
    /// What it has to say.
    pub(crate) answers: Vec<u8>,
    /// What runs, where the map came whole.
    pub(crate) runs: Option<Running>,
}

/// The digest that answers a demand for a password.
fn digest_for(password: &Line, id: &Text<31>, seed: u32) -> Digest
    requires short { length password.now ≤ 32 }
    requires some { 1 ≤ length id.now }
    ensures digest { result ≡ password_digest password.now id.now seed }
{
    let Some(id) = Name::new(id.bytes()) else {
        unreachable!();
    };
    match Digest::new(&password_digest(password, &id, seed)) {
        Some(digest) => digest,
        None => unreachable!(),
    }
}

/// The world whose map these bytes are, the one behind the other. None where they are no map.
fn world_in(alloc: Global, come: &[u8], more: &[u8]) -> Result<Option<World>, OutOfMemory>
    ensures world { IfOk result (λ world. world ≡ result_ok (map_in (come.now ++ more.now))) }
{
    let mut bytes = Vec::from_slice(alloc, come)?;
    bytes.extend_from_slice(more)?;
    match decode_map(alloc, bytes.as_slice()) {
        Ok(world) => Ok(Some(world)),
        Err(bad) => match bad {
            MapBad::Memory => Err(OutOfMemory),
            _ => Ok(None),
        },
    }
}

/// While the map comes, of which so many bytes have come: no byte past its size. Its end is judged by its bytes.
fn fetching(size: u32, come: usize, msg: &GameMsg) -> Verdict
    requires not_done { msg.now ≡ ServerMapDone → ⊥ }
    ensures told { (frame : ℕ) (bytes : List ℕ) → length bytes ≡ come → told_as result ≡ told_fetching frame size bytes msg.now }
{
    match msg {
        GameMsg::ServerMapData { rest } => {
            if rest.bytes().len() <= (size as usize).saturating_sub(come) {
                Verdict::Goes
            } else {
                Verdict::Strays
            }
        }
        GameMsg::ServerMapDone => unreachable!(),
        GameMsg::ServerError { .. } | GameMsg::ServerShutdown => Verdict::Ends,
        _ => Verdict::Strays,
    }
}

/// The answer to a message before the welcome by which a client goes on, where it wants one.
fn answer_asking(login: &Login, msg: &GameMsg) -> Option<GameMsg>
    requires password { length login.now.password ≤ 32 }
    requires company_password { length login.now.company_password ≤ 32 }
    requires goes { told_asking msg.now ≡ Other }
    ensures said { (bytes : List ℕ) → bytes_said result ≡ answer login.now (place_of Asking bytes) (Some msg.now) }
{
    match msg {
        GameMsg::ServerCheckNewgrfs { .. } => Some(GameMsg::ClientNewgrfsChecked),
        GameMsg::ServerNeedGamePassword { seed, id } => Some(GameMsg::ClientGamePassword {
            digest: digest_for(&login.password, id, *seed),
        }),
        GameMsg::ServerNeedCompanyPassword { seed, id } => Some(GameMsg::ClientCompanyPassword {
            digest: digest_for(&login.company_password, id, *seed),
        }),
        GameMsg::ServerWelcome { .. } => Some(GameMsg::ClientGetmap),
        _ => None,
    }
}

/// The answer to a message by which a client goes on, where it wants one.
fn answer(login: &Login, stage: Stage, msg: &GameMsg) -> Option<GameMsg>
    requires password { length login.now.password ≤ 32 }
    requires company_password { length login.now.company_password ≤ 32 }
    requires not_done { msg.now ≡ ServerMapDone → ⊥ }
    requires goes { stage ≡ Asking → told_asking msg.now ≡ Other }
    ensures said { (bytes : List ℕ) → bytes_said result ≡ answer login.now (place_of stage bytes) (Some msg.now) }
{
    match stage {
        Stage::Asking => answer_asking(login, msg),
        _ => None,
    }
}

/// Puts the bytes of a message that is said, if one is, behind others.
fn put_said(bytes: &mut Vec<u8>, said: Option<GameMsg>) -> Result<(), OutOfMemory>
    ensures put { OnOk result (bytes.new.items ≡ bytes.old.items ++ bytes_said said) }
{
    match said {
        Some(msg) => msg.encode(bytes),
        None => Ok(()),
    }
}

/// The stage behind a message by which a client goes on.
fn stage_behind(stage: Stage, msg: &GameMsg) -> Stage
    ensures place { (bytes : List ℕ) → IsClear stage bytes → (msg.now ≡ ServerMapDone → ⊥) → IsBeforeMap stage
        → place_of result (bytes ++ map_bytes stage msg.now) ≡ moves_on (place_of stage bytes) msg.now }
    ensures before { IsBeforeMap stage → IsBeforeMap result }
    ensures clear { (bytes : List ℕ) → IsClear stage bytes → IsClear result (bytes ++ map_bytes stage msg.now) }
{
    match stage {
        Stage::Asking => match msg {
            GameMsg::ServerWelcome { .. } => Stage::Greeted,
            _ => stage,
        },
        Stage::Greeted => match msg {
            GameMsg::ServerMapBegin { frame } => Stage::Begun { frame: *frame },
            _ => stage,
        },
        Stage::Begun { frame } => match msg {
            GameMsg::ServerMapSize { size } => Stage::Fetching { frame, size: *size },
            _ => stage,
        },
        _ => stage,
    }
}

/// The bytes of the map that come with a message.
fn map_bytes(stage: Stage, msg: &GameMsg) -> &[u8]
    ensures bytes { result.now ≡ map_bytes stage msg.now }
{
    match stage {
        Stage::Fetching { .. } => match msg {
            GameMsg::ServerMapData { rest } => rest.bytes(),
            _ => &[],
        },
        _ => &[],
    }
}

impl Join {
    /// Nothing was heard yet.
    pub(crate) fn begin(alloc: Global, stage: Stage, number: u32, company: u8) -> Join
        requires before { IsBeforeMap stage }
        ensures stands { (come : List ℕ) → IsClear stage come → IsJoining result come }
        ensures same { (come : List ℕ) (saying : Saying) (acked : Option ℕ)
            → joined_by come result saying acked ≡ at_door (place_of stage come) number company saying acked }
    {
        Join {
            stage,
            more: Vec::new(alloc),
            phase: Phase::Joining,
            number,
            company,
            answers: Vec::new(alloc),
            runs: None,
        }
    }

    /// It was told its end.
    fn end(&mut self, phase: Phase)
        ensures ended { self.new ≡ record self.old { phase = phase; stage = Parted } }
    {
        self.phase = phase;
        self.stage = Stage::Parted;
    }

    /// It goes on by a message.
    fn go_on(&mut self, login: &Login, come: &[u8], msg: &GameMsg) -> Result<(), OutOfMemory>
        requires password { length login.now.password ≤ 32 }
        requires company_password { length login.now.company_password ≤ 32 }
        requires stands { IsJoining self.old come.now }
        requires goes { told_at (place_of self.old.stage (come.now ++ self.old.more.items)) msg.now ≡ Other }
        ensures heard { OnOk result ((at : ℕ) (saying : Saying) (acked : Option ℕ)
            → joined_by come.now self.new saying acked
            ≡ heard running login.now (record { at = at; msg = Some msg.now }) (joined_by come.now self.old saying acked)) }
        ensures stands { OnOk result (IsJoining self.new come.now) }
    {
        put_said(&mut self.answers, answer(login, self.stage, msg))?;
        self.more.extend_from_slice(map_bytes(self.stage, msg))?;
        self.company = company_behind(msg, self.number, self.company);
        self.number = number_behind(msg, self.number);
        self.stage = stage_behind(self.stage, msg);
        Ok(())
    }

    /// It goes on by a message, has ended by it, or was told what is not permitted, as its verdict says.
    fn go_by(
        &mut self,
        login: &Login,
        come: &[u8],
        at: u64,
        msg: &GameMsg,
        verdict: Verdict,
    ) -> Result<(), OutOfMemory>
        requires password { length login.now.password ≤ 32 }
        requires company_password { length login.now.company_password ≤ 32 }
        requires stands { IsJoining self.old come.now }
        requires told { told_as verdict ≡ told_at (place_of self.old.stage (come.now ++ self.old.more.items)) msg.now }
        ensures heard { OnOk result ((saying : Saying) (acked : Option ℕ)
            → joined_by come.now self.new saying acked
            ≡ heard running login.now (record { at = at; msg = Some msg.now }) (joined_by come.now self.old saying acked)) }
        ensures stands { OnOk result (JoinStands self.new come.now) }
    {
        match verdict {
            Verdict::Goes => self.go_on(login, come, msg)?,
            Verdict::Ends => self.end(end_of(msg)),
            Verdict::Strays | Verdict::Off { .. } => self.end(Phase::Wrong { at }),
        }
        Ok(())
    }

    /// The map is whole.
    fn finish(
        &mut self,
        alloc: Global,
        come: &[u8],
        frame: u32,
        size: u32,
        at: u64,
    ) -> Result<(), OutOfMemory>
        requires stands { IsJoining self.old come.now }
        requires fetching { self.old.stage ≡ Fetching frame size }
        ensures heard { OnOk result ((login : Login) (saying : Saying) (acked : Option ℕ)
            → joined_by come.now self.new saying acked
            ≡ heard running login (record { at = at; msg = Some ServerMapDone }) (joined_by come.now self.old saying acked)) }
        ensures stands { OnOk result (JoinStands self.new come.now) }
    {
        if come.len() + self.more.len() != size as usize {
            self.end(Phase::Wrong { at });
            return Ok(());
        }
        let Some(world) = world_in(alloc, come, &self.more)? else {
            self.end(Phase::Wrong { at });
            return Ok(());
        };
        let runs = Running::new(alloc, world, frame)?;
        GameMsg::ClientMapOk.encode(&mut self.answers)?;
        self.runs = Some(runs);
        self.phase = Phase::Loaded;
        self.stage = Stage::InPlay;
        Ok(())
    }

    /// What begins next in its stream.
    fn hear(
        &mut self,
        alloc: Global,
        login: &Login,
        come: &[u8],
        item: &Item,
    ) -> Result<(), OutOfMemory>
        requires password { length login.now.password ≤ 32 }
        requires company_password { length login.now.company_password ≤ 32 }
        requires stands { IsJoining self.old come.now }
        ensures heard { OnOk result ((saying : Saying) (acked : Option ℕ)
            → joined_by come.now self.new saying acked ≡ heard running login.now item.now (joined_by come.now self.old saying acked)) }
        ensures stands { OnOk result (JoinStands self.new come.now) }
    {
        let Some(msg) = &item.msg else {
            self.end(Phase::Wrong { at: item.at });
            return Ok(());
        };
        match self.stage {
            Stage::Asking => self.go_by(login, come, item.at, msg, asking(msg)),
            Stage::Greeted => self.go_by(login, come, item.at, msg, greeted(msg)),
            Stage::Begun { .. } => self.go_by(login, come, item.at, msg, begun(msg)),
            Stage::Fetching { frame, size } => match msg {
                GameMsg::ServerMapDone => self.finish(alloc, come, frame, size, item.at),
                _ => {
                    let verdict = fetching(size, come.len() + self.more.len(), msg);
                    self.go_by(login, come, item.at, msg, verdict)
                }
            },
            Stage::InPlay | Stage::Parted => unreachable!(),
        }
    }

    /// Whether it has no map yet, and goes on.
    fn is_joining(&self) -> bool
        ensures joining { result ≡ joins_still self.now }
    {
        matches!(self.phase, Phase::Joining)
    }

    /// What begins in its stream, one behind the other, until it has its map or has ended. Answers how many items were heard.
    pub(crate) fn hear_all(
        &mut self,
        alloc: Global,
        login: &Login,
        come: &[u8],
        items: &[Item],
    ) -> Result<usize, OutOfMemory>
        requires password { length login.now.password ≤ 32 }
        requires company_password { length login.now.company_password ≤ 32 }
        requires stands { IsJoining self.old come.now }
        ensures heard { IfOk result (λ heard. (saying : Saying) (acked : Option ℕ)
            → heard_all running login.now (drop heard items.now) (joined_by come.now self.new saying acked)
            ≡ heard_all running login.now items.now (joined_by come.now self.old saying acked)) }
        ensures stands { OnOk result (JoinStands self.new come.now) }
        ensures all { IfOk result (λ heard. joins_still self.new ≡ true → heard ≡ length items.now) }
        ensures within { IfOk result (λ heard. heard ≤ length items.now) }
    {
        let mut heard = 0;
        'items: while heard < items.len() {
            if !self.is_joining() {
                return Ok(heard);
            }
            self.hear(alloc, login, come, &items[heard])?;
            heard += 1;
        }
        Ok(heard)
    }
}
