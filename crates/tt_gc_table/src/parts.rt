//! The coordinator's table, each part of it found by key: connections by number, servers by code, open attempts by token.
//!
//! Contracts see it as the table that the rules speak of.
ghost use Rattle.std.specs.Prelude.{◌≡◌, ◌<◌, ◌+◌, ◌-◌, ◌^◌, Some, true, false, is_some, length, map, filter, cond, not, OnOk, OnErr};
ghost use Rattle.std.specs.Option.{option_copied};
ghost use Rattle.tt_gc_table.specs.Table.{Meeting, first, is_on, connection_of, is_live, live_sides, server_on, server_by, drawn_by};
ghost use Rattle.tt_gc_table.specs.Table.{meeting_of};
ghost use Rattle.tt_gc_table.specs.Table.{with_info, with_meeting, without_meeting, NoneTwice};
ghost use Rattle.tt_attempts.specs.Attempts.{stepped};
ghost use Rattle.std.specs.Prelude.{option_map};
ghost use Rattle.tt_gc_table.specs.PacketRules.{is_known, is_listed, tells_server};
ghost use Rattle.tt_gc_table.specs.Deed.{each};
ghost use Rattle.tt_gc_table.specs.Registry.{server_at};
ghost use Rattle.tt_gc_table.specs.declared.setup.GcSetup.{GcSetup};
ghost use Rattle.tt_gc_table.specs.Meetings.{hears_it};
ghost use Rattle.tt_gc_table.specs.Ending.{goes, leaves};
ghost use Rattle.std.specs.Prelude.{ℕ, ◌++◌};
ghost use Rattle.tt_gc_table.specs.Told.{bytes_to};
ghost use Rattle.tt_gc_table.specs.Tells.{told_to};
ghost use Rattle.tt_gc_table.specs.Desk.{with_note};
ghost use Rattle.tt_gc_table.specs.Parts.{opened, passed_over, without_connection, without_meetings_of, registered, drawn, begun, at_stage};
ghost use Rattle.std.specs.Prelude.{IfOk, IfSome};
ghost use Rattle.tt_gc_table.specs.Codes.{new_token, behind_token};
ghost use Rattle.tt_attempts.specs.Codes.{words_behind};

use crate::heard::is_over;
use crate::lines::Lines;
use crate::meetings::{Meeting, Meetings};
use crate::registry::{Registry, Secret, Served};
use crate::setup::GcSetup;
use crate::tells::Tells;
use crate::tokens::token;
use std::alloc::Global;
use std::marker::Model;
use tt_attempts::{Heard, InviteCode, Stage};
use tt_coord::Info;
use tt_edge::Peer;
use tt_frame::{OutOfMemory, Text};
use tt_world::Random;

/// A connection that is there, as the coordinator sees it.
#[derive(Clone, Copy, Debug, PartialEq, Eq)]
pub struct Seen {
    pub conn: u32,
    pub side: bool,
    pub peer: Peer,
}

impl Model for Seen {
    ghost use Rattle.tt_gc_table.specs.Table.{Connection};

    ghost Value = { Connection };

    ghost view = { λ s. record { conn = s.conn; side = s.side; peer = s.peer } };

    ghost inverse = { λ c. record { conn = c.conn; side = c.side; peer = c.peer } };
}

/// The table.
#[derive(Drop)]
pub struct Parts {
    lines: Lines,
    registry: Registry,
    meetings: Meetings,
    random: Random,
    /// Attempts begun so far.
    begun: u32,
    /// What the events so far cost.
    cost: u64,
    ticks: u64,
    over: bool,
}

impl Model for Parts {
    ghost use Rattle.std.specs.Prelude.{◌<◌, ◌^◌, length};
    ghost use Rattle.tt_gc_table.specs.Table.{Table};
    ghost use Rattle.tt_gc_table.specs.Lines.{connections_of};
    ghost use Rattle.tt_gc_table.specs.Registry.{servers_of, drawn_of};
    ghost use Rattle.tt_gc_table.specs.OpenAttempts.{meetings_of};
    ghost use Rattle.tt_gc_table.specs.Parts.{IsServing, IsBegun};

    ghost Value = { Table };

    ghost view = { λ p. record {
      connections = connections_of p.lines.lines;
      servers = servers_of p.registry;
      drawn = drawn_of p.registry;
      words = p.random;
      meetings = meetings_of p.meetings;
      openings = length p.lines.lines;
      attempts = p.begun;
      cost = p.cost;
      ticks = p.ticks;
      over = p.over;
    } };

    ghost invariant = { λ p. IsServing p.lines.lines (servers_of p.registry) × IsBegun p.begun p.meetings
        × (length p.lines.lines < 2 ^ 32) };
}

impl Parts {
    /// Nobody is there. It takes no memory.
    pub fn new(alloc: Global, setup: &GcSetup) -> Parts
        ensures { result ≡ first setup.now }
    {
        Parts {
            lines: Lines::new(alloc),
            registry: Registry::new(alloc),
            meetings: Meetings::new(alloc),
            random: Random::of(setup.first, setup.second),
            begun: 0,
            cost: 0,
            ticks: 0,
            over: false,
        }
    }

    /// Whether all is over.
    pub fn over(&self) -> bool
        ensures { result ≡ self.now.over }
    {
        self.over
    }

    /// How many connections were opened.
    pub fn openings(&self) -> u32
        ensures { result ≡ self.now.openings }
    {
        self.lines.count() as u32
    }

    /// How many side connections are live.
    pub fn sides(&self) -> usize
        ensures { result ≡ live_sides self.now }
    {
        self.lines.sides()
    }

    /// How many servers are registered.
    pub fn servers(&self) -> usize
        ensures { result ≡ length self.now.servers }
    {
        self.registry.count()
    }

    /// How many attempts are open.
    pub fn attempts(&self) -> usize
        ensures { result ≡ length self.now.meetings }
    {
        self.meetings.count()
    }

    /// The connection with this number, while it is there.
    pub fn connection(&self, conn: u32) -> Option<Seen>
        ensures { result ≡ connection_of self.now conn }
    {
        match self.lines.get(conn) {
            Some(line) => Some(Seen {
                conn,
                side: line.side,
                peer: line.peer,
            }),
            None => None,
        }
    }

    /// Whether a connection is live.
    pub fn is_live(&self, conn: u32) -> bool
        ensures { result ≡ is_live self.now conn }
    {
        !self.over && self.connection(conn).is_some()
    }

    /// Whether a server is registered on this connection.
    pub fn is_server(&self, conn: u32) -> bool
        ensures { result ≡ is_some (server_on self.now conn) }
    {
        self.lines.code(conn).is_some()
    }

    /// The live server whose code these bytes are.
    pub fn server_by(&self, code: &[u8]) -> Option<&Served>
        ensures { option_map (λ v. server_at (code.now, v)) (option_copied result) ≡ server_by self.now code.now }
    {
        self.registry.server_named(code)
    }

    /// The code that these bytes are, where it was drawn with this secret.
    pub fn known(&self, code: &[u8], secret: &[u8]) -> Option<InviteCode>
        ensures known { is_some result ≡ is_known secret.now (drawn_by self.now code.now) }
        ensures same { IfSome result (λ known. known ≡ code.now) }
    {
        self.registry.known(code, secret)
    }

    /// Whether a code was drawn.
    pub fn is_drawn(&self, code: &InviteCode) -> bool
        ensures { result ≡ is_some (drawn_by self.now code.now) }
    {
        let text = code.text();
        self.registry.secret_named(text.as_slice()).is_some()
    }

    /// How many codes were drawn. No code was drawn twice.
    pub fn drawn_count(&self) -> usize
        ensures count { result ≡ length self.now.drawn }
        ensures none_twice { NoneTwice self.now.drawn }
    {
        self.registry.drawn_count()
    }

    /// The random words behind the last draw.
    pub fn random(&self) -> Random
        ensures { result ≡ self.now.words }
    {
        self.random
    }

    /// How many attempts have begun so far.
    pub fn begun(&self) -> u32
        ensures { result ≡ self.now.attempts }
    {
        self.begun
    }

    /// Plans what tells the servers that are listed, in order of registration.
    pub fn tell_listed(
        &self,
        alloc: Global,
        out: &mut Tells,
        conn: u32,
        revision: &[u8],
    ) -> Result<(), OutOfMemory>
        ensures told { OnOk result ((c : ℕ) → told_to c out.new ≡ told_to c out.old
            ++ bytes_to c (each (filter (is_listed revision.now) self.now.servers) (tells_server conn) self.now).told) }
    {
        self.registry.tell_listed(alloc, out, self, conn, revision)
    }

    /// The open attempt with this token.
    pub fn meeting(&self, token: &[u8]) -> Option<&Meeting>
        ensures { option_copied result ≡ meeting_of self.now token.now }
    {
        self.meetings.find(token)
    }

    /// One more connection is there. Where memory runs out, nothing was changed.
    pub fn open(&mut self, side: bool, peer: Peer) -> Result<(), OutOfMemory>
        requires few { self.old.openings < 2 ^ 32 - 1 }
        ensures ok { OnOk result (self.new ≡ opened side peer self.old) }
        ensures err { OnErr result (self.new ≡ self.old) }
    {
        self.lines.reserve()?;
        self.lines.open(side, peer);
        Ok(())
    }

    /// One more connection was opened, and ended at once. Where memory runs out, nothing was changed.
    pub fn refuse(&mut self, side: bool, peer: Peer) -> Result<(), OutOfMemory>
        requires few { self.old.openings < 2 ^ 32 - 1 }
        ensures ok { OnOk result (self.new ≡ passed_over self.old) }
        ensures err { OnErr result (self.new ≡ self.old) }
    {
        self.lines.reserve()?;
        self.lines.refuse(side, peer);
        Ok(())
    }

    /// No connection that is there has the number of the next opening. Its contract is all that it does.
    pub fn next_is_new(&self)
        ensures { filter (λ c. not (is_on (self.now.openings + 1) c)) self.now.connections ≡ self.now.connections }
    {
        let _openings = self.lines.count();
    }

    /// A connection is there no longer, and no server is on it.
    pub fn end(&mut self, conn: u32)
        requires there { is_some (connection_of self.old conn) ≡ true }
        ensures { self.new ≡ without_connection conn self.old }
    {
        let Some(code) = self.lines.code(conn) else {
            self.lines.end(conn);
            return;
        };
        self.registry.leave(&code);
        self.lines.end(conn);
    }

    /// The server on this connection, if there is one, says this of its game.
    pub fn update(&mut self, conn: u32, info: Info)
        ensures { self.new ≡ with_info conn info self.old }
    {
        if let Some(code) = self.lines.code(conn) {
            self.registry.update(&code, info);
        }
    }

    /// The open attempt with this token hears something by which it isn't over.
    pub fn hear(&mut self, token: &[u8], heard: Heard)
        ensures { (m : Meeting) → meeting_of self.old token.now ≡ Some m
            → self.new ≡ at_stage (stepped m.state.ways m.state.stage heard).stage token.now self.old }
    {
        self.meetings.hear(token, heard);
    }

    /// The open attempt with this token notes the address of a side.
    pub fn note(&mut self, token: &[u8], side: u8, peer: Peer)
        ensures { (m : Meeting) → meeting_of self.old token.now ≡ Some m
            → self.new ≡ with_meeting token.now (with_note side peer) self.old }
    {
        self.meetings.note(token, side, peer);
    }

    /// The open attempt with this token is over.
    pub fn close(&mut self, token: &[u8])
        ensures { (m : Meeting) → meeting_of self.old token.now ≡ Some m → self.new ≡ without_meeting token.now self.old }
    {
        self.meetings.close(token);
    }

    /// The open attempt with this token hears something by which it comes so far: what was planned is done.
    pub fn reach(&mut self, token: &[u8], heard: Heard, stage: Stage)
        ensures { (s : GcSetup) (m : Meeting) → meeting_of self.old token.now ≡ Some m
            → stage ≡ (stepped m.state.ways m.state.stage heard).stage → self.new ≡ (hears_it s heard m self.old).table }
    {
        if is_over(stage) {
            self.close(token);
            return;
        }
        self.hear(token, heard);
    }

    /// No attempt is open any more whose server or client is on this connection.
    pub fn leave(&mut self, conn: u32)
        ensures { self.new ≡ without_meetings_of conn self.old }
    {
        self.meetings.leave(conn);
    }

    /// A connection ends, and all that goes with it: its server, and the attempts whose server or client it is.
    pub fn quit(&mut self, conn: u32)
        requires there { is_some (connection_of self.old conn) ≡ true }
        ensures { (s : GcSetup) → self.new ≡ (leaves s conn self.old).table }
    {
        self.meetings.distinct();
        self.end(conn);
        self.leave(conn);
    }

    /// Plans what is told where the server on this connection has gone.
    pub fn tell_lost(
        &self,
        alloc: Global,
        out: &mut Tells,
        turn_host: &Text<31>,
        conn: u32,
    ) -> Result<(), OutOfMemory>
        ensures told { OnOk result ((s : GcSetup) → s.turn_host ≡ turn_host.now → (c : ℕ)
            → told_to c out.new ≡ told_to c out.old ++ bytes_to c (leaves s conn self.now).told) }
    {
        self.meetings.distinct();
        self.meetings.tell_lost(alloc, out, self, turn_host, conn)?;
        Ok(())
    }

    /// A connection ends on which no server is. No attempt is touched.
    pub fn go(&mut self, conn: u32)
        requires there { is_some (connection_of self.old conn) ≡ true }
        requires unregistered { is_some (server_on self.old conn) ≡ false }
        ensures { self.new ≡ (goes conn self.old).table }
    {
        self.end(conn);
    }

    /// The token of the next attempt, and the random words behind it.
    pub fn next_token(&self, alloc: Global) -> Result<(Text<31>, Random), OutOfMemory>
        requires few { self.now.attempts < 2 ^ 32 - 1 }
        ensures token { IfOk result (λ next. next.0 ≡ new_token self.now) }
        ensures words { IfOk result (λ next. next.1 ≡ words_behind 8 self.now.words) }
    {
        let mut random = self.random;
        let text = token(alloc, &mut random, self.begun + 1)?;
        Ok((text, random))
    }

    /// An attempt begins that is over at once, as no way applies.
    pub fn pass(&mut self, random: Random)
        requires few { self.old.attempts < 2 ^ 32 - 1 }
        requires words { random ≡ words_behind 8 self.old.words }
        ensures { self.new ≡ behind_token self.old }
    {
        self.random = random;
        self.begun += 1;
    }

    /// An attempt begins. Where memory runs out, nothing was changed.
    pub fn begin(&mut self, random: Random, meeting: Meeting) -> Result<(), OutOfMemory>
        requires few { self.old.attempts < 2 ^ 32 - 1 }
        requires words { random ≡ words_behind 8 self.old.words }
        requires token { meeting.token ≡ new_token self.old }
        ensures ok { OnOk result (self.new ≡ begun meeting self.old) }
        ensures err { OnErr result (self.new ≡ self.old) }
    {
        let number = self.begun + 1;
        self.meetings.open(number, meeting)?;
        self.random = random;
        self.begun = number;
        Ok(())
    }

    /// So much more was paid.
    pub fn charge(&mut self, cost: u64)
        requires fits { self.old.cost + cost < 2 ^ 64 }
        ensures { self.new ≡ record self.old { cost = self.old.cost + cost } }
    {
        self.cost += cost;
    }

    /// One more tick.
    pub fn tick(&mut self)
        requires fits { self.old.ticks < 2 ^ 64 - 1 }
        ensures { self.new ≡ record self.old { ticks = self.old.ticks + 1 } }
    {
        self.ticks += 1;
    }

    /// All is over.
    pub fn shut(&mut self)
        ensures { self.new ≡ record self.old { over = true } }
    {
        self.over = true;
    }

    /// What the events so far cost.
    pub fn cost(&self) -> u64
        ensures { result ≡ self.now.cost }
    {
        self.cost
    }

    /// How many ticks there were.
    pub fn ticks(&self) -> u64
        ensures { result ≡ self.now.ticks }
    {
        self.ticks
    }

    /// A code is drawn, and a server is registered by it on a connection that is there. Where memory runs out, nothing was changed.
    pub fn draw(
        &mut self,
        conn: u32,
        kind: u8,
        port: u16,
        code: InviteCode,
        secret: Secret,
        random: Random,
    ) -> Result<(), OutOfMemory>
        requires there { is_some (connection_of self.old conn) ≡ true }
        requires unregistered { is_some (server_on self.old conn) ≡ false }
        requires new { is_some (drawn_by self.old code) ≡ false }
        requires free { is_some (server_by self.old code) ≡ false }
        ensures ok { OnOk result (self.new ≡ drawn conn (record { code = code; secret = secret }) kind port random self.old) }
        ensures err { OnErr result (self.new ≡ self.old) }
    {
        self.registry.reserve()?;
        let served = Served {
            conn,
            kind,
            port,
            info: None,
        };
        self.random = random;
        self.lines.register(conn, code);
        self.registry.draw(code, secret, served);
        Ok(())
    }

    /// A server is registered on a connection that is there, by a code that no live server has. Where memory runs out, nothing
    /// was changed.
    pub fn register(
        &mut self,
        conn: u32,
        kind: u8,
        port: u16,
        code: InviteCode,
    ) -> Result<(), OutOfMemory>
        requires there { is_some (connection_of self.old conn) ≡ true }
        requires unregistered { is_some (server_on self.old conn) ≡ false }
        requires free { is_some (server_by self.old code) ≡ false }
        ensures ok { OnOk result (self.new ≡ registered conn code kind port self.old) }
        ensures err { OnErr result (self.new ≡ self.old) }
    {
        self.registry.reserve()?;
        let served = Served {
            conn,
            kind,
            port,
            info: None,
        };
        self.lines.register(conn, code);
        self.registry.register(code, served);
        Ok(())
    }
}
