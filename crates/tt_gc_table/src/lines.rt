//! The connections, by their numbers: who is there, and by which code.
ghost use Rattle.std.specs.Prelude.{◌≡◌, ◌≤◌, ◌<◌, ◌+◌, ◌-◌, ◌^◌, ◌⊎◌, true, false, None, [], ◌∷◌, ◌++◌, length, slice_set};
ghost use Rattle.std.specs.Prelude.{OnOk, OnErr, IfSome, IfNone};
ghost use Rattle.tt_gc_table.specs.Lines.{line_of, live_line, arrived, refused, gone, coded, code_at, sides_in};

use std::alloc::Global;
use std::marker::Model;
use tt_attempts::InviteCode;
use tt_edge::Peer;
use tt_frame::OutOfMemory;

/// A connection, from its opening on.
#[derive(Clone, Copy, Debug, PartialEq, Eq)]
pub struct Line {
    /// It has not ended.
    pub live: bool,
    /// It was opened at the STUN desk.
    pub side: bool,
    /// Its address, as the coordinator sees it.
    pub peer: Peer,
    /// The code by which it is registered as a server.
    pub code: Option<InviteCode>,
}

/// All connections that were opened, in order of opening: the first one has the number 1.
#[derive(Drop)]
pub struct Lines {
    lines: Vec<Line>,
    /// How many side connections are live.
    sides: usize,
    /// How many more lines there is room for.
    spare: usize,
}

impl Model for Lines {
    ghost use Rattle.std.specs.Prelude.{◌≡◌, ◌≤◌, ◌+◌, vec_len, vec_capacity};
    ghost use Rattle.tt_gc_table.specs.Lines.{LinesState, sides_in};

    ghost Value = { LinesState };

    ghost view = { λ l. record { lines = l.lines.items; room = l.spare } };

    ghost invariant = { λ l. (vec_len l.lines + l.spare ≤ vec_capacity l.lines) × (l.sides ≡ sides_in l.lines.items) };
}

impl Lines {
    /// No connection was opened yet. It takes no memory.
    pub fn new(alloc: Global) -> Lines
        ensures { result.lines ≡ [] }
    {
        Lines {
            lines: Vec::new(alloc),
            sides: 0,
            spare: 0,
        }
    }

    /// How many connections were opened.
    pub fn count(&self) -> usize
        ensures { result ≡ length self.now.lines }
    {
        self.lines.len()
    }

    /// How many side connections are live.
    pub fn sides(&self) -> usize
        ensures { result ≡ sides_in self.now.lines }
    {
        self.sides
    }

    /// The place of a connection that was opened.
    fn place(&self, conn: u32) -> Option<usize>
        ensures some { IfSome result (λ at. (at + 1 ≡ conn) × (at < length self.now.lines)) }
        ensures none { IfNone result ((conn ≡ 0) ⊎ (length self.now.lines < conn)) }
    {
        if conn == 0 || conn as usize > self.lines.len() {
            return None;
        }
        Some(conn as usize - 1)
    }

    /// The connection with this number, while it is live.
    pub fn get(&self, conn: u32) -> Option<Line>
        ensures { result ≡ live_line (line_of self.now.lines conn) }
    {
        let at = self.place(conn)?;
        let line = self.lines[at];
        if line.live { Some(line) } else { None }
    }

    /// The code by which it is registered.
    pub fn code(&self, conn: u32) -> Option<InviteCode>
        ensures { result ≡ code_at self.now.lines conn }
    {
        let at = self.place(conn)?;
        self.lines[at].code
    }

    /// Makes room for one more.
    pub fn reserve(&mut self) -> Result<(), OutOfMemory>
        ensures same { self.new.lines ≡ self.old.lines }
        ensures room { OnOk result (1 ≤ self.new.room) }
    {
        if self.spare == 0 {
            self.lines.reserve(1)?;
            self.spare = 1;
        }
        Ok(())
    }

    /// One more is opened. It takes no memory.
    pub fn open(&mut self, side: bool, peer: Peer)
        requires room { 1 ≤ self.old.room }
        ensures { self.new.lines ≡ self.old.lines ++ arrived side peer ∷ [] }
    {
        let line = Line {
            live: true,
            side,
            peer,
            code: None,
        };
        self.lines.push(line).unwrap();
        self.spare -= 1;
        if side {
            self.sides += 1;
        }
    }

    /// One more is opened, and ends at its opening. It takes no memory.
    pub fn refuse(&mut self, side: bool, peer: Peer)
        requires room { 1 ≤ self.old.room }
        ensures { self.new.lines ≡ self.old.lines ++ refused side peer ∷ [] }
    {
        let line = Line {
            live: false,
            side,
            peer,
            code: None,
        };
        self.lines.push(line).unwrap();
        self.spare -= 1;
    }

    /// A live connection ends.
    pub fn end(&mut self, conn: u32)
        requires live { (line_of self.old.lines conn).live ≡ true }
        ensures lines { self.new.lines ≡ slice_set self.old.lines (conn - 1) (gone (line_of self.old.lines conn)) }
        ensures room { self.new.room ≡ self.old.room }
    {
        if let Some(at) = self.place(conn) {
            let line = self.lines[at];
            self.lines[at] = Line {
                live: false,
                side: line.side,
                peer: line.peer,
                code: None,
            };
            if line.side {
                self.sides -= 1;
            }
        }
    }

    /// A live connection is registered by this code from now on.
    pub fn register(&mut self, conn: u32, code: InviteCode)
        requires live { (line_of self.old.lines conn).live ≡ true }
        ensures lines { self.new.lines ≡ slice_set self.old.lines (conn - 1) (coded code (line_of self.old.lines conn)) }
        ensures room { self.new.room ≡ self.old.room }
    {
        if let Some(at) = self.place(conn) {
            let line = self.lines[at];
            self.lines[at] = Line {
                live: line.live,
                side: line.side,
                peer: line.peer,
                code: Some(code),
            };
        }
    }
}
