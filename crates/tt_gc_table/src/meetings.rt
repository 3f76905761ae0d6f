//! The open attempts: found by token, in the order of their numbers.
ghost use Rattle.std.specs.Prelude.{◌≡◌, ◌≢◌, ◌<◌, ◌^◌, ℕ, Some, [], ◌∷◌, ◌++◌, length, drop};
ghost use Rattle.std.specs.Prelude.{find, filter, map, not, cond, None, IfSome, IfNone, OnOk, OnErr};
ghost use Rattle.std.specs.Fmt.{decimal};
ghost use Rattle.std.specs.Option.{option_copied};
ghost use Rattle.std.specs.List.{AllByRecursion, IsDistinct};
ghost use Rattle.tt_gc_table.specs.ByConnection.{numbers_of, numbered, IsEnd};
ghost use Rattle.std.specs.Map.{keys_of, remove_entry};
ghost use Rattle.std.specs.Ordering.{nat_cmp, eq_by_cmp};
ghost use Rattle.tt_attempts.specs.Attempts.{stepped};
ghost use Rattle.tt_gc_table.specs.Table.{Meeting, is_for};
ghost use Rattle.tt_attempts.specs.declared.attempt.Heard.TheVariants.{ServerGone};
ghost use Rattle.tt_gc_table.specs.declared.setup.GcSetup.{GcSetup};
ghost use Rattle.tt_gc_table.specs.Desk.{with_note};
ghost use Rattle.tt_gc_table.specs.Hearing.{told_each};
ghost use Rattle.tt_gc_table.specs.Tells.{told_to};
ghost use Rattle.tt_gc_table.specs.Parts.{IsBegun, is_of, is_lost};
ghost use Rattle.tt_gc_table.specs.OpenAttempts.{meetings_of, with_stage, IsToken, Distinct};

use crate::by_connection::ByConnection;
use crate::heard::plan_heard;
use crate::parts::Parts;
use crate::tells::Tells;
use std::alloc::Global;
use std::collections::{BTreeMap, BTreeSet};
use std::marker::Model;
use tt_attempts::{Attempt, Heard};
use tt_edge::Peer;
use tt_frame::{OutOfMemory, Text};
use tt_lines::number_of;

/// One of the two that an attempt brings together.
#[derive(Clone, Copy, Debug, PartialEq, Eq)]
pub struct End {
    pub conn: u32,
    /// Its address, as the coordinator sees it.
    pub seen: Peer,
    /// The address that it showed to the STUN desk.
    pub noted: Option<Peer>,
}

impl Model for End {
    ghost use Rattle.tt_gc_table.specs.Table as table;

    ghost Value = { table.End };

    ghost view = { λ e. record { conn = e.conn; seen = e.seen; noted = e.noted } };

    ghost inverse = { λ e. record { conn = e.conn; seen = e.seen; noted = e.noted } };
}

/// An open attempt.
#[derive(Debug, PartialEq, Eq, Drop)]
pub struct Meeting {
    pub token: Text<31>,
    pub server: End,
    pub client: End,
    /// The server's registered port.
    pub port: u16,
    pub attempt: Attempt,
}

impl Model for Meeting {
    ghost use Rattle.tt_gc_table.specs.Table as table;
    ghost use Rattle.tt_attempts.specs.Attempts.{HasBegun};

    ghost Value = { table.Meeting };

    ghost view = { λ m. record { token = m.token; server = m.server; client = m.client; port = m.port; state = m.attempt } };

    ghost invariant = { λ m. HasBegun m.attempt.stage };

    ghost inverse = { λ m. record { token = m.token; server = m.server; client = m.client; port = m.port; attempt = m.state } };
}

impl End {
    /// It showed this address.
    fn noting(self, peer: Peer) -> End
        ensures { result ≡ record self { noted = Some peer } }
    {
        End {
            conn: self.conn,
            seen: self.seen,
            noted: Some(peer),
        }
    }
}

impl Meeting {
    /// Whether its server or its client is on this connection.
    pub fn is_of(&self, conn: u32) -> bool
        ensures { result ≡ is_of conn self.now }
    {
        self.server.conn == conn || self.client.conn == conn
    }

    /// The connections of its server and of its client.
    fn ends(&self) -> (u32, u32)
        ensures server { result.0 ≡ self.now.server.conn }
        ensures client { result.1 ≡ self.now.client.conn }
    {
        (self.server.conn, self.client.conn)
    }

    /// Whether its server is on this connection, and its client on another one.
    pub fn is_lost(&self, conn: u32) -> bool
        ensures { result ≡ is_lost conn self.now }
    {
        self.server.conn == conn && self.client.conn != conn
    }

    /// The address of a side is noted.
    fn note(&mut self, side: u8, peer: Peer)
        ensures { self.new ≡ with_note side peer self.old }
    {
        if side == 0 {
            self.server = self.server.noting(peer);
        } else {
            self.client = self.client.noting(peer);
        }
    }
}

/// The open attempts, by number, and for each connection the numbers of its own.
#[derive(Drop)]
pub struct Meetings {
    by_number: BTreeMap<u32, Meeting>,
    by_connection: ByConnection,
}

impl Model for Meetings {
    ghost use Rattle.std.specs.Prelude.{ℕ, List};
    ghost use Rattle.std.specs.Ordering.{nat_cmp};
    ghost use Rattle.std.specs.BTreeMap.{IsOrdered};
    ghost use Rattle.tt_gc_table.specs.Table as table;
    ghost use Rattle.tt_gc_table.specs.OpenAttempts.{IsNumbered};
    ghost use Rattle.tt_gc_table.specs.ByConnection.{IsIndexed};

    ghost Value = { List (ℕ × table.Meeting) };

    ghost view = { λ m. m.by_number.entries };

    ghost invariant = { λ m. IsNumbered m.by_number.entries × IsOrdered nat_cmp m.by_number
        × IsIndexed m.by_number.entries m.by_connection };
}

/// The number that stands behind a token's eight characters.
fn number_in(token: &[u8]) -> Option<u32>
    ensures found { IfSome result (λ n. drop 8 token.now ≡ decimal n) }
    ensures small { IfSome result (λ n. n < 2 ^ 32) }
    ensures none { IfNone result ((n : ℕ) → n < 2 ^ 32 → drop 8 token.now ≢ decimal n) }
{
    if token.len() < 8 {
        return number_of(&[]);
    }
    number_of(&token[8..])
}

impl Meetings {
    /// No two that are open have one token. Its contract is all that it does.
    pub fn distinct(&self)
        ensures { Distinct (meetings_of self.now) }
    {
        // By this call the check knows what is kept of the map.
        let _count = self.by_number.len();
    }

    /// None is open. It takes no memory.
    pub fn new(alloc: Global) -> Meetings
        ensures { result ≡ [] }
    {
        Meetings {
            by_number: BTreeMap::new(alloc),
            by_connection: ByConnection::new(alloc),
        }
    }

    /// How many are open.
    pub fn count(&self) -> usize
        ensures { result ≡ length (meetings_of self.now) }
    {
        self.by_number.len()
    }

    /// The open attempt with this token.
    pub fn find(&self, token: &[u8]) -> Option<&Meeting>
        ensures { option_copied result ≡ find (is_for token.now) (meetings_of self.now) }
    {
        let by_number = &self.by_number;
        let Some(number) = number_in(token) else {
            return None;
        };
        let Some(meeting) = by_number.get(&number) else {
            return None;
        };
        if token == meeting.token.bytes() {
            Some(meeting)
        } else {
            None
        }
    }

    /// The open attempt with this token hears something by which it isn't over.
    pub fn hear(&mut self, token: &[u8], heard: Heard)
        ensures meetings { (m : Meeting) → find (is_for token.now) (meetings_of self.old) ≡ Some m
            → meetings_of self.new ≡ map (λ x. cond (is_for token.now x) (with_stage (stepped m.state.ways m.state.stage heard).stage x) x)
            (meetings_of self.old) }
        ensures begun { (last : ℕ) → IsBegun last self.old → IsBegun last self.new }
    {
        let by_number = &mut self.by_number;
        let Some(number) = number_in(token) else {
            return;
        };
        let Some(meeting) = by_number.get_mut(&number) else {
            return;
        };
        let _told = meeting.attempt.step(heard);
    }

    /// The open attempt with this token notes the address of a side.
    pub fn note(&mut self, token: &[u8], side: u8, peer: Peer)
        ensures meetings { (m : Meeting) → find (is_for token.now) (meetings_of self.old) ≡ Some m
            → meetings_of self.new ≡ map (λ x. cond (is_for token.now x) (with_note side peer x) x) (meetings_of self.old) }
        ensures begun { (last : ℕ) → IsBegun last self.old → IsBegun last self.new }
    {
        let by_number = &mut self.by_number;
        let Some(number) = number_in(token) else {
            return;
        };
        let Some(meeting) = by_number.get_mut(&number) else {
            return;
        };
        meeting.note(side, peer);
    }

    /// The open attempt with this token is over.
    pub fn close(&mut self, token: &[u8])
        ensures meetings { (m : Meeting) → find (is_for token.now) (meetings_of self.old) ≡ Some m
            → meetings_of self.new ≡ filter (λ x. not (is_for token.now x)) (meetings_of self.old) }
        ensures begun { (last : ℕ) → IsBegun last self.old → IsBegun last self.new }
    {
        let _open = self.by_number.len();
        if let Some(number) = number_in(token) {
            self.close_number(number);
        }
    }

    /// The open attempt with this number, if there is one, is over.
    fn close_number(&mut self, number: u32)
        ensures { self.new ≡ remove_entry (eq_by_cmp nat_cmp number) self.old }
    {
        let Some(meeting) = self.by_number.remove(&number) else {
            return;
        };
        let ends = meeting.ends();
        self.by_connection.forget_both(ends.0, ends.1, number);
    }

    /// One more is open, with a number above those of the others.
    pub fn open(&mut self, number: u32, meeting: Meeting) -> Result<(), OutOfMemory>
        requires above { AllByRecursion (λ e. e.0 < number) self.old }
        requires token { IsToken number meeting.token }
        ensures ok { OnOk result (self.new ≡ self.old ++ (number, meeting) ∷ []) }
        ensures err { OnErr result (self.new ≡ self.old) }
    {
        let ends = meeting.ends();
        self.by_connection.add_both(ends.0, ends.1, number)?;
        if self.by_number.insert(number, meeting).is_err() {
            self.by_connection.forget_both(ends.0, ends.1, number);
            return Err(OutOfMemory);
        }
        Ok(())
    }

    /// Plans what is told where the attempt with this number loses its server by the end of this connection, if it does.
    fn tell_number(
        &self,
        alloc: Global,
        out: &mut Tells,
        parts: &Parts,
        turn_host: &Text<31>,
        conn: u32,
        number: u32,
    ) -> Result<(), OutOfMemory>
        ensures told { OnOk result ((s : GcSetup) → s.turn_host ≡ turn_host.now → (c : ℕ) → told_to c out.new
            ≡ told_to c out.old ++ told_each s ServerGone parts.now c (filter (is_lost conn) (numbered number self.now))) }
    {
        let by_number = &self.by_number;
        let Some(meeting) = by_number.get(&number) else {
            return Ok(());
        };
        if meeting.is_lost(conn) {
            let _stage = plan_heard(alloc, out, parts, turn_host, Heard::ServerGone, meeting)?;
        }
        Ok(())
    }

    /// The numbers of the attempts of a connection, in order.
    fn numbers(&self, conn: u32) -> Option<&BTreeSet<u32>>
        ensures some { IfSome result (λ set. numbers_of conn self.now ≡ set.now.keys) }
        ensures none { IfNone result (numbers_of conn self.now ≡ []) }
        ensures apart { IsDistinct (eq_by_cmp nat_cmp) (keys_of self.now) }
    {
        let _open = self.by_number.len();
        self.by_connection.numbers(conn)
    }

    /// Plans what is told to the clients of other connections that were to be brought to this one, whose server has gone: in the
    /// order of the attempts. It looks at its own alone.
    pub fn tell_lost(
        &self,
        alloc: Global,
        out: &mut Tells,
        parts: &Parts,
        turn_host: &Text<31>,
        conn: u32,
    ) -> Result<(), OutOfMemory>
        ensures told { OnOk result ((s : GcSetup) → s.turn_host ≡ turn_host.now → (c : ℕ) → told_to c out.new
            ≡ told_to c out.old ++ told_each s ServerGone parts.now c (filter (is_lost conn) (meetings_of self.now))) }
    {
        let Some(numbers) = self.numbers(conn) else {
            return Ok(());
        };
        for number in numbers.iter() {
            self.tell_number(alloc, out, parts, turn_host, conn, *number)?;
        }
        Ok(())
    }

    /// The number of the first attempt of a connection.
    fn first_of(&self, conn: u32) -> Option<u32>
        ensures some { IfSome result (λ number. IsEnd conn number self.now) }
        ensures none { IfNone result (find (is_of conn) (meetings_of self.now) ≡ None) }
    {
        let Some(numbers) = self.numbers(conn) else {
            return None;
        };
        match numbers.first() {
            Some(number) => Some(*number),
            None => None,
        }
    }

    /// None is open any more whose server or client is on this connection. It looks at its own alone.
    pub fn leave(&mut self, conn: u32)
        ensures meetings { meetings_of self.new ≡ filter (λ m. not (is_of conn m)) (meetings_of self.old) }
        ensures begun { (last : ℕ) → IsBegun last self.old → IsBegun last self.new }
    {
        while let Some(number) = self.first_of(conn) {
            self.close_number(number);
        }
    }
}
