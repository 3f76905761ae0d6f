//! The client of a player.
ghost use Rattle.std.specs.Prelude.{◌≡◌, ◌++◌, ◌≤◌, false, true, length, IfOk, OnOk, OnErr, MatchOption};
ghost use Rattle.tt_client.specs.Calls.{Advance, Submit};
ghost use Rattle.tt_client.specs.Held.{held_first, with_call};
ghost use Rattle.tt_client.specs.State.{is_running, state_of};
ghost use Rattle.tt_report.specs.Clients.{lines_of_client};
ghost use Rattle.tt_session.specs.Running.{IsSound, RunsAt};

use std::alloc::Global;
use std::marker::Model;
use tt_client::{Client, Login, State, SubmitErr};
use tt_frame::OutOfMemory;
use tt_report::put_client;
use tt_rounds::{Hear, Say};
use tt_world::Command;

/// A client that is played. Contracts see the client.
#[derive(Drop)]
pub struct Player {
    client: Client,
}

impl Model for Player {
    ghost use Rattle.tt_client.specs.Held.{Held};
    ghost use Rattle.tt_session.specs.Running.{IsSound};

    ghost Value = { Held };

    ghost view = { λ p. p.client };

    ghost invariant = { λ p. IsSound p.client.player };
}

impl Player {
    /// A client that joins with this login.
    pub fn joining(alloc: Global, login: &Login) -> Result<Player, OutOfMemory>
        requires name { length login.now.name ≤ 24 }
        requires password { length login.now.password ≤ 32 }
        requires company_password { length login.now.company_password ≤ 32 }
        ensures first { IfOk result (λ player. player ≡ held_first login.now) }
    {
        let client = Client::new(alloc, login)?;
        Ok(Player { client })
    }

    /// How it stands.
    pub fn state(&self) -> State
        ensures { result ≡ state_of self.now.player }
    {
        self.client.state()
    }

    /// The frame that it has run and the one up to which it may, where it runs.
    pub fn running(&self) -> Option<(u32, u32)>
        ensures { MatchOption result (is_running (state_of self.now.player) ≡ false) (λ at. RunsAt self.now at.0 at.1) }
    {
        match self.client.state() {
            State::Running => match (self.client.frame(), self.client.permitted()) {
                (Some(frame), Some(permitted)) => Some((frame, permitted)),
                (_, _) => unreachable!(),
            },
            _ => None,
        }
    }

    /// It runs so many frames, as far as is permitted.
    pub fn advance(&mut self, frames: u32)
        ensures ran { self.new ≡ with_call self.old (Advance frames) }
        // What holds of every client held of it.
        ensures sound { IsSound self.old.player }
    {
        self.client.advance(frames);
    }

    /// It is to send a command, for its own company.
    pub fn submit(&mut self, command: Command) -> Result<(), OutOfMemory>
        requires running { is_running (state_of self.old.player) ≡ true }
        ensures said { OnOk result (self.new ≡ with_call self.old (Submit self.old.player.company command)) }
        ensures same { OnErr result (self.new ≡ self.old) }
    {
        match self.client.submit(self.client.company(), command) {
            Ok(()) => Ok(()),
            Err(SubmitErr::Memory) => Err(OutOfMemory),
            Err(SubmitErr::NotRunning) => unreachable!(),
        }
    }

    /// Its lines, as those of client 1.
    pub fn put(&self, alloc: Global, text: &mut Vec<u8>) -> Result<(), OutOfMemory>
        ensures { OnOk result (text.new.items ≡ text.old.items ++ lines_of_client 1 self.now) }
    {
        put_client(alloc, text, 1, &self.client)
    }
}

impl Hear for Player {
    ghost use Rattle.std.specs.Prelude.{◌≡◌};
    ghost use Rattle.tt_client.specs.Calls.{Feed};
    ghost use Rattle.tt_client.specs.Held.{with_call};

    ghost hears = { λ old piece new. new ≡ with_call old (Feed piece) };

    fn hear(&mut self, piece: &[u8]) -> Result<(), OutOfMemory> {
        self.client.feed(piece)
    }
}

impl Say for Player {
    ghost use Rattle.std.specs.Prelude.{◌≡◌, length, take};
    ghost use Rattle.tt_client.specs.Calls.{Take};
    ghost use Rattle.tt_client.specs.Held.{with_call};
    ghost use Rattle.tt_client.specs.Saying.{bytes_of};

    ghost due = { λ p. bytes_of p.player.saying };

    ghost says = { λ old bytes new. (bytes ≡ take (length bytes) (bytes_of old.player.saying))
        × (new ≡ with_call old (Take (length bytes))) };

    fn say(&mut self, out: &mut [u8]) -> usize {
        self.client.take(out)
    }
}
