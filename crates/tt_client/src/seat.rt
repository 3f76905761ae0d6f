//! A client beside the bytes that it is fed: its dialogue, what it runs, and what it has to say.
ghost use Rattle.std.specs.Prelude.{◌≡◌, ◌-◌, ◌≤◌, ◌&&◌, ◌+◌, ◌++◌, ◌↔◌, take, drop, min, length, nat_lt, not, false, true};
ghost use Rattle.std.specs.Prelude.{IfSome, IfOk, OnOk, OnErr, IsErrOf, IsTrue, option_copied};
ghost use Rattle.tt_log.specs.Shown.{Joining, goes_on};
ghost use Rattle.tt_client.specs.Player.{acks, advanced, heard_all, is_due, is_on, joined, stepped};
ghost use Rattle.tt_client.specs.Runs.{is_playing, running, runner_frame};
ghost use Rattle.tt_client.specs.Held.{frame_of, permitted_of, phase_of, world_of};
ghost use Rattle.tt_client.specs.Calls.{Give, Say};
ghost use Rattle.tt_client.specs.Answers.{joining};
ghost use Rattle.tt_client.specs.Cutting.{cut_at};
ghost use Rattle.tt_client.specs.Planned.{in_play};
ghost use Rattle.tt_client.specs.Saying.{bytes_of, with_bytes};
ghost use Rattle.tt_client.specs.State.{is_running, state_of};
ghost use Rattle.tt_client.specs.declared.login.Login.{Login};

use crate::items::{Item, Read, cut};
use crate::join::Join;
use crate::login::Login;
use crate::play::Play;
use crate::running::{Mismatch, Running};
use crate::stage::{Phase, Stage, goes_on, is_loaded, stage_on};
use crate::state::{State, SubmitErr};
use crate::waiting::Waiting;
use std::alloc::Global;
use std::marker::Model;
use tt_frame::{OutOfMemory, Text};
use tt_game::GameMsg;
use tt_rules::number_of;
use tt_world::{Command, World};

/// A client, beside the bytes that are no whole packet yet.
#[derive(Drop)]
pub struct Seat {
    stage: Stage,
    /// The bytes of its map that have come.
    come: Vec<u8>,
    phase: Phase,
    /// Where it found itself out of step, if it did.
    off: Option<Mismatch>,
    number: u32,
    company: u8,
    runs: Option<Running>,
    waiting: Waiting,
    /// The frame of its last acknowledgement.
    acked: Option<u32>,
}

impl Model for Seat {
    ghost use Rattle.tt_lockstep.specs.Runner.{Runner};
    ghost use Rattle.tt_world.specs.World.{WorldState};
    ghost use Rattle.tt_world.specs.declared.command.Entry.{Entry};
    ghost use Rattle.tt_client.specs.Player.{Player};
    ghost use Rattle.tt_client.specs.Held.{Stands, phase_of, place_of, runner_in};
    ghost use Rattle.tt_client.specs.Planned.{IsClear};

    ghost Value = { Player (Runner WorldState Entry) };

    ghost view = { λ c. record {
      place = place_of c.stage c.come.items;
      phase = phase_of c.phase;
      number = c.number;
      company = c.company;
      runs = runner_in c.phase c.off c.runs;
      saying = c.waiting;
      acked = c.acked;
    } };

    ghost invariant = { λ c. Stands c.stage c.phase c.off c.runs × IsClear c.stage c.come.items };
}

/// Whether an acknowledgement is due: the first where the frame stands at the permitted one, a later one 74 frames above
/// the last.
fn is_due(acked: Option<u32>, permitted: u32, frame: u32) -> bool
    ensures due { result ≡ is_due acked permitted frame }
{
    match acked {
        None => permitted <= frame,
        Some(last) => u64::from(last) + 74 <= u64::from(frame),
    }
}

/// The bytes of a client's join.
fn joining(alloc: Global, login: &Login) -> Result<Vec<u8>, OutOfMemory>
    requires name { length login.now.name ≤ 24 }
    ensures join { IfOk result (λ bytes. bytes.items ≡ joining login.now) }
{
    let Some(revision) = Text::new(login.revision.bytes()) else {
        unreachable!();
    };
    let Some(name) = Text::new(login.name.bytes()) else {
        unreachable!();
    };
    let msg = GameMsg::ClientJoin {
        revision,
        grf: login.grf,
        name,
        company: login.company,
    };
    let mut bytes = Vec::new(alloc);
    msg.encode(&mut bytes)?;
    Ok(bytes)
}

impl Seat {
    /// A client that joins, with what it says first.
    pub(crate) fn new(alloc: Global, login: &Login) -> Result<Seat, OutOfMemory>
        requires name { length login.now.name ≤ 24 }
        ensures joined { IfOk result (λ seat. seat ≡ joined running login.now) }
    {
        let bytes = joining(alloc, login)?;
        let waiting = Waiting::with(alloc, bytes.as_slice())?;
        Ok(Seat {
            stage: Stage::Asking,
            come: Vec::new(alloc),
            phase: Phase::Joining,
            off: None,
            number: 0,
            company: 255,
            runs: None,
            waiting,
            acked: None,
        })
    }

    /// Whether nothing has ended it.
    pub(crate) fn is_on(&self) -> bool
        ensures on { (login : Login) → result ≡ is_on running login self.now }
    {
        goes_on(self.phase) && self.off.is_none()
    }

    /// How it stands.
    pub(crate) fn state(&self) -> State
        ensures state { result ≡ state_of self.now }
    {
        if let Some(off) = self.off {
            return State::Desync {
                frame: off.frame,
                mine: off.mine,
                theirs: off.theirs,
            };
        }
        match self.phase {
            Phase::Joining => State::Joining,
            Phase::Loaded => State::Running,
            Phase::Ended { code } => State::Ended(code),
            Phase::Shutdown => State::Shutdown,
            Phase::Wrong { at } => State::Wrong { at },
        }
    }

    /// Runs so many frames, as far as is permitted, and answers how many it ran. Fewer are run only where a word that it
    /// was told of one of them is another than its own.
    pub(crate) fn advance(&mut self, n: u32) -> u32
        ensures advanced { (login : Login) → self.new ≡ advanced running login n self.old }
        ensures count { result ≡ runner_frame self.new.runs - runner_frame self.old.runs }
    {
        if !goes_on(self.phase) || self.off.is_some() {
            return 0;
        }
        let Some(runs) = &mut self.runs else {
            return 0;
        };
        let old = runs.frame();
        let off = runs.advance(n);
        let frame = runs.frame();
        let permitted = runs.permitted();
        self.off = off;
        self.acknowledge(old, frame, permitted);
        frame.saturating_sub(old)
    }

    /// Acknowledges a frame behind frames that were run, where that is due.
    fn acknowledge(&mut self, old: u32, frame: u32, permitted: u32)
        ensures due { self.new ≡ acks (nat_lt old frame && is_due self.old.acked permitted frame) frame self.old }
    {
        if old < frame && is_due(self.acked, permitted, frame) {
            self.waiting.ack(frame);
            self.acked = Some(frame);
        }
    }

    /// Takes the next bytes to say, as many as fit or are there, and answers how many.
    pub(crate) fn take(&mut self, out: &mut [u8]) -> usize
        ensures taken { (login : Login) → self.new ≡ stepped running login self.old (Give result) }
        ensures written { out.new ≡ take result (bytes_of self.old.saying) ++ drop result out.old }
        ensures count { result ≡ min (length (bytes_of self.old.saying)) (length out.old) }
    {
        self.waiting.take(out)
    }

    /// Its company, 255 before one is named.
    pub(crate) fn company(&self) -> u8
        ensures company { result ≡ self.now.company }
    {
        self.company
    }

    /// The frame that it has run. None exactly until its map is there.
    pub(crate) fn frame(&self) -> Option<u32>
        ensures frame { result ≡ frame_of self.now }
    {
        match &self.runs {
            Some(runs) => Some(runs.frame()),
            None => None,
        }
    }

    /// The frame up to which it may run. None exactly until its map is there.
    pub(crate) fn permitted(&self) -> Option<u32>
        ensures permitted { result ≡ permitted_of self.now }
    {
        match &self.runs {
            Some(runs) => Some(runs.permitted()),
            None => None,
        }
    }

    /// Its world. None exactly until its map is there.
    pub(crate) fn world(&self) -> Option<&World>
        ensures world { option_copied result ≡ world_of self.now }
    {
        match &self.runs {
            Some(runs) => Some(runs.world()),
            None => None,
        }
    }

    /// A command is to be sent, for a company.
    pub(crate) fn submit(
        &mut self,
        alloc: Global,
        company: u8,
        command: Command,
    ) -> Result<(), SubmitErr>
        ensures said { OnOk result ((login : Login) → self.new ≡ stepped running login self.old (Say company command)) }
        ensures same { OnErr result (self.new ≡ self.old) }
        ensures not_running { IsErrOf result SubmitErr.NotRunning ↔ (is_running (state_of self.old) ≡ false) }
    {
        if !is_loaded(self.phase) || self.off.is_some() {
            return Err(SubmitErr::NotRunning);
        }
        let msg = GameMsg::ClientCommand {
            company,
            code: number_of(command.code),
            number: command.number,
            to: command.to,
            text: command.text,
        };
        let mut bytes = Vec::new(alloc);
        if msg.encode(&mut bytes).is_err() {
            return Err(SubmitErr::Memory);
        }
        match self.waiting.say(bytes.as_slice()) {
            Ok(()) => Ok(()),
            Err(_) => Err(SubmitErr::Memory),
        }
    }
}

impl Seat {
    /// What is whole of these bytes, of which the first stands at a place of its stream, is heard, one packet behind the other;
    /// or nothing has changed, where memory runs out.
    pub(crate) fn feed(
        &mut self,
        alloc: Global,
        login: &Login,
        bytes: &[u8],
        at: u64,
    ) -> Result<Read, OutOfMemory>
        requires password { length login.now.password ≤ 32 }
        requires company_password { length login.now.company_password ≤ 32 }
        requires on { is_on running login.now self.old ≡ true }
        ensures heard { OnOk result (self.new ≡ heard_all running login.now (cut_at at bytes.now).items self.old) }
        ensures read { IfOk result (λ read. record { items = (cut_at at bytes.now).items; rest = drop read.end bytes.now; at = read.at }
            ≡ cut_at at bytes.now) }
        ensures within { IfOk result (λ read. read.end ≤ length bytes.now) }
        ensures same { OnErr result (self.new ≡ self.old) }
    {
        if is_loaded(self.phase) {
            return self.feed_playing(alloc, bytes, at);
        }
        let pieces = cut(alloc, bytes, at)?;
        self.feed_joining(alloc, login, pieces.items.as_slice())?;
        Ok(Read {
            end: pieces.end,
            at: pieces.at,
        })
    }

    /// The same of a client in the game.
    fn feed_playing(&mut self, alloc: Global, bytes: &[u8], at: u64) -> Result<Read, OutOfMemory>
        requires playing { is_playing self.old ≡ true }
        ensures heard { OnOk result ((login : Login) → self.new ≡ heard_all running login (cut_at at bytes.now).items self.old) }
        ensures read { IfOk result (λ read. record { items = (cut_at at bytes.now).items; rest = drop read.end bytes.now; at = read.at }
            ≡ cut_at at bytes.now) }
        ensures within { IfOk result (λ read. read.end ≤ length bytes.now) }
        ensures same { OnErr result (self.new ≡ self.old) }
    {
        let Some(runs) = &mut self.runs else {
            unreachable!();
        };
        let mut play = Play::begin(alloc, runs, self.number, self.company);
        let read = play.hear_bytes(alloc, runs, bytes, at)?;
        let Play {
            news,
            phase,
            off,
            number,
            company,
            token,
        } = play;
        runs.take_in(news)?;
        self.stage = stage_on(phase);
        self.phase = phase;
        self.off = off;
        self.number = number;
        self.company = company;
        self.waiting.token(token);
        Ok(read)
    }

    /// What begins in the stream of a client that joins is heard, one behind the other; or nothing has changed.
    fn feed_joining(
        &mut self,
        alloc: Global,
        login: &Login,
        items: &[Item],
    ) -> Result<(), OutOfMemory>
        requires password { length login.now.password ≤ 32 }
        requires company_password { length login.now.company_password ≤ 32 }
        requires joining { self.old.phase ≡ Joining }
        ensures heard { OnOk result (self.new ≡ heard_all running login.now items.now self.old) }
        ensures same { OnErr result (self.new ≡ self.old) }
    {
        let mut join = Join::begin(alloc, self.stage, self.number, self.company);
        let heard = join.hear_all(alloc, login, self.come.as_slice(), items)?;
        let Join {
            stage,
            more,
            phase,
            number,
            company,
            answers,
            runs,
        } = join;
        match runs {
            Some(runs) => self.start(
                alloc,
                runs,
                number,
                company,
                answers.as_slice(),
                &items[heard..],
            ),
            None => {
                self.come.reserve(more.len())?;
                self.waiting.say(answers.as_slice())?;
                if self.come.extend_from_slice(more.as_slice()).is_err() {
                    unreachable!();
                }
                self.stage = stage;
                self.phase = phase;
                self.number = number;
                self.company = company;
                Ok(())
            }
        }
    }

    /// Its map has come, and it hears what begins behind it.
    fn start(
        &mut self,
        alloc: Global,
        mut runs: Running,
        number: u32,
        company: u8,
        answers: &[u8],
        items: &[Item],
    ) -> Result<(), OutOfMemory>
        ensures heard { OnOk result ((login : Login)
            → self.new ≡ heard_all running login items.now
            (in_play runs number company (with_bytes answers.now self.old.saying) self.old.acked)) }
        ensures same { OnErr result (self.new ≡ self.old) }
    {
        let mut play = Play::begin(alloc, &runs, number, company);
        play.hear_all(&runs, items)?;
        let Play {
            news,
            phase,
            off,
            number,
            company,
            token,
        } = play;
        runs.take_in(news)?;
        self.waiting.say(answers)?;
        self.waiting.token(token);
        self.come = Vec::new(alloc);
        self.stage = stage_on(phase);
        self.phase = phase;
        self.off = off;
        self.number = number;
        self.company = company;
        self.runs = Some(runs);
        Ok(())
    }
}
