//! The client.
ghost use Rattle.std.specs.Prelude.{◌≡◌, ◌-◌, ◌≤◌, ◌++◌, ◌↔◌, take, drop, min, length, [], false, true};
ghost use Rattle.std.specs.Prelude.{IfOk, OnOk, OnErr, IsErrOf, option_copied};
ghost use Rattle.tt_client.specs.Calls.{Advance, Feed, Submit, Take};
ghost use Rattle.tt_client.specs.Held.{fed_on, frame_of, held_first, permitted_of, with_call, world_of};
ghost use Rattle.tt_client.specs.InStep.{AdvancesInStep, FeedsInStep};
ghost use Rattle.tt_client.specs.Player.{is_on};
ghost use Rattle.tt_client.specs.Runs.{running, runner_frame};
ghost use Rattle.tt_client.specs.Saying.{bytes_of};
ghost use Rattle.tt_client.specs.State.{is_running, state_of};

use crate::items::is_partial;
use crate::laws::clients_are_in_step;
use crate::login::Login;
use crate::seat::Seat;
use crate::state::{State, SubmitErr};
use std::alloc::Global;
use std::marker::Model;
use tt_frame::OutOfMemory;
use tt_world::{Command, World};

/// A client of a game.
///
/// It is fed the bytes of its stream, in whatever pieces, and never believes them: a stream that breaks a rule ends it. What
/// each call makes of it is `with_call`, in contracts; that this is what the client is from scratch, over all its calls, say
/// the laws `in_steps` and `same_run`.
#[derive(Drop)]
pub struct Client {
    alloc: Global,
    login: Login,
    seat: Seat,
    /// The bytes that were fed and are no whole packet yet, and the place of the stream at which they begin.
    rest: Vec<u8>,
    at: u64,
}

impl Model for Client {
    ghost use Rattle.std.specs.Prelude.{◌≤◌, length};
    ghost use Rattle.tt_client.specs.Held.{Held};

    ghost Value = { Held };

    ghost view = { λ c. record { login = c.login; player = c.seat; rest = c.rest.items; at = c.at } };

    ghost invariant = { λ c. (length c.login.password ≤ 32) × (length c.login.company_password ≤ 32) };
}

/// Lets go of the first bytes.
fn let_go(bytes: &mut Vec<u8>, count: usize)
    requires within { count ≤ length bytes.old.items }
    ensures left { bytes.new.items ≡ drop count bytes.old.items }
{
    let len = bytes.len();
    bytes.as_mut_slice().copy_within(count..len, 0);
    bytes.truncate(len - count);
}

impl Client {
    /// A client with this login. Its join is ready to be taken.
    pub fn new(alloc: Global, login: &Login) -> Result<Client, OutOfMemory>
        requires name { length login.now.name ≤ 24 }
        requires password { length login.now.password ≤ 32 }
        requires company_password { length login.now.company_password ≤ 32 }
        ensures first { IfOk result (λ client. client ≡ held_first login.now) }
    {
        let seat = Seat::new(alloc, login)?;
        Ok(Client {
            alloc,
            login: login.copy(),
            seat,
            rest: Vec::new(alloc),
            at: 0,
        })
    }

    /// Takes a piece of its stream whole. Once the client has ended, pieces are forgotten. Where memory runs out nothing has
    /// changed, and the piece may be fed again.
    pub fn feed(&mut self, piece: &[u8]) -> Result<(), OutOfMemory>
        ensures fed { OnOk result (self.new ≡ with_call self.old (Feed piece.now)) }
        ensures same { OnErr result (self.new ≡ self.old) }
        // Of a piece of what a server sent: the client is in step.
        ensures in_step { OnOk result (FeedsInStep self.old piece.now self.new) }
    {
        clients_are_in_step();
        if !self.seat.is_on() {
            return Ok(());
        }
        let before = self.rest.len();
        self.rest.extend_from_slice(piece)?;
        match self.hear() {
            Ok(()) => Ok(()),
            Err(error) => {
                self.rest.truncate(before);
                Err(error)
            }
        }
    }

    /// Hears what is whole of the unread bytes.
    fn hear(&mut self) -> Result<(), OutOfMemory>
        requires on { is_on running self.old.login self.old.player ≡ true }
        ensures heard { OnOk result (self.new ≡ fed_on [] self.old) }
        ensures same { OnErr result (self.new ≡ self.old) }
    {
        if is_partial(self.rest.as_slice()) {
            return Ok(());
        }
        let read = self
            .seat
            .feed(self.alloc, &self.login, self.rest.as_slice(), self.at)?;
        let_go(&mut self.rest, read.end);
        self.at = read.at;
        Ok(())
    }

    /// Runs so many frames, as far as is permitted, and answers how many it ran. Fewer are run only where a word that it
    /// was told of one of them is another than its own.
    pub fn advance(&mut self, n: u32) -> u32
        ensures advanced { self.new ≡ with_call self.old (Advance n) }
        ensures count { result ≡ runner_frame self.new.player.runs - runner_frame self.old.player.runs }
        // Of a client that was fed what a server sent: it is in step.
        ensures in_step { AdvancesInStep self.old self.new }
    {
        clients_are_in_step();
        self.seat.advance(n)
    }

    /// A command is to be sent, for a company.
    pub fn submit(&mut self, company: u8, command: Command) -> Result<(), SubmitErr>
        ensures said { OnOk result (self.new ≡ with_call self.old (Submit company command)) }
        ensures same { OnErr result (self.new ≡ self.old) }
        ensures not_running { IsErrOf result SubmitErr.NotRunning ↔ (is_running (state_of self.old.player) ≡ false) }
    {
        self.seat.submit(self.alloc, company, command)
    }

    /// Takes the next bytes to say, as many as fit or are there, and answers how many.
    pub fn take(&mut self, out: &mut [u8]) -> usize
        ensures taken { self.new ≡ with_call self.old (Take result) }
        ensures written { out.new ≡ take result (bytes_of self.old.player.saying) ++ drop result out.old }
        ensures count { result ≡ min (length (bytes_of self.old.player.saying)) (length out.old) }
    {
        self.seat.take(out)
    }

    /// How it stands.
    pub fn state(&self) -> State
        ensures state { result ≡ state_of self.now.player }
    {
        self.seat.state()
    }

    /// The frame that it has run. None exactly until its map is there.
    pub fn frame(&self) -> Option<u32>
        ensures frame { result ≡ frame_of self.now.player }
    {
        self.seat.frame()
    }

    /// The frame up to which it may run. None exactly until its map is there.
    pub fn permitted(&self) -> Option<u32>
        ensures permitted { result ≡ permitted_of self.now.player }
    {
        self.seat.permitted()
    }

    /// Its world. None exactly until its map is there.
    pub fn world(&self) -> Option<&World>
        ensures world { option_copied result ≡ world_of self.now.player }
    {
        self.seat.world()
    }

    /// Its company, 255 before one is named.
    pub fn company(&self) -> u8
        ensures company { result ≡ self.now.player.company }
    {
        self.seat.company()
    }
}
