//! One member.
ghost use Rattle.std.specs.Prelude.{◌≡◌, ◌++◌, ◌∷◌, [], ◌<◌, ◌↔◌, length, IfOk, IsTrue, IsFalse};
ghost use Rattle.tt_log.specs.Member.{is_named, is_playing, is_welcomed, new_member, standing_of};
ghost use Rattle.tt_log.specs.Tick.{drawn};
ghost use Rattle.tt_members.specs.Edits.{marks_of, marked};

use crate::marks::Marks;
use crate::waiting::Waiting;
use std::alloc::Global;
use std::marker::Model;
use tt_frame::{OutOfMemory, Text};
use tt_rules::{Standing, Status};
use tt_world::Command;

/// The company of those that have none.
const SPECTATOR: u8 = 255;

/// A member: a connection that came in by the main door and has not ended.
///
/// Contracts see it as a member of the game's table.
#[derive(Drop)]
pub struct Member {
    conn: u32,
    client: u32,
    marks: Marks,
    name: Text<24>,
    waiting: Waiting,
}

impl Model for Member {
    ghost use Rattle.tt_log.specs.Member.{Member};

    ghost Value = { Member };

    ghost view = { λ m. record {
      conn = m.conn;
      client = m.client;
      status = m.marks.status;
      since = m.marks.since;
      asked = m.marks.asked;
      company = m.marks.company;
      name = m.name;
      waiting = m.waiting;
      acked = m.marks.acked;
      told = m.marks.told;
      token = m.marks.token;
      token_frame = m.marks.token_frame;
      map_frame = m.marks.map_frame;
      pieces = m.marks.pieces;
    } };
}

impl Member {
    /// A connection that was just opened, at a frame, with its client number. It takes the memory of its waiting commands.
    pub fn new(alloc: Global, conn: u32, client: u32, since: u32) -> Result<Member, OutOfMemory>
        ensures new { IfOk result (λ m. m ≡ new_member conn client since) }
    {
        let waiting = Waiting::new(alloc)?;
        let Some(name) = Text::new(b"?") else {
            unreachable!();
        };
        Ok(Member {
            conn,
            client,
            marks: Marks {
                status: Status::Inactive,
                since,
                asked: SPECTATOR,
                company: SPECTATOR,
                acked: 0,
                told: 0,
                token: 0,
                token_frame: 0,
                map_frame: 0,
                pieces: 0,
            },
            name,
            waiting,
        })
    }

    /// Its connection.
    pub fn conn(&self) -> u32
        ensures conn { result ≡ self.now.conn }
    {
        self.conn
    }

    /// Its client number.
    pub fn client(&self) -> u32
        ensures client { result ≡ self.now.client }
    {
        self.client
    }

    /// Its name; `?` as long as it is INACTIVE.
    pub fn name(&self) -> &Text<24>
        ensures name { result.now ≡ self.now.name }
    {
        &self.name
    }

    /// Its commands that wait.
    pub fn waiting(&self) -> &Waiting
        ensures waiting { result.now ≡ self.now.waiting }
    {
        &self.waiting
    }

    /// What of it changes by most rules.
    pub fn marks(&self) -> Marks
        ensures marks { result ≡ marks_of self.now }
    {
        self.marks
    }

    /// What a verdict looks at of it.
    pub fn standing(&self) -> Standing
        ensures standing { result ≡ standing_of self.now }
    {
        Standing {
            status: self.marks.status,
            company: self.marks.company,
            waiting: self.waiting.len() as u8,
            acked: self.marks.acked,
            told: self.marks.told,
            token: self.marks.token,
        }
    }

    /// Whether it is past INACTIVE: it has a name of its own.
    pub fn is_named(&self) -> bool
        ensures named { result ≡ is_named self.now }
    {
        self.marks.status.place() >= Status::NewgrfsCheck.place()
    }

    /// Whether it was welcomed.
    pub fn is_welcomed(&self) -> bool
        ensures welcomed { result ≡ is_welcomed self.now }
    {
        self.marks.status.place() >= Status::Authorized.place()
    }

    /// Whether it is in the game.
    pub fn is_playing(&self) -> bool
        ensures playing { result ≡ is_playing self.now }
    {
        self.marks.status.place() >= Status::PreActive.place()
    }

    /// It has these marks from now on.
    pub fn mark(&mut self, marks: Marks)
        ensures marked { self.new ≡ marked marks self.old }
    {
        self.marks = marks;
    }

    /// It has this name from now on.
    pub fn rename(&mut self, name: Text<24>)
        ensures renamed { self.new ≡ record self.old { name = name } }
    {
        self.name = name;
    }

    /// A command of it waits behind the others, for this company. False exactly where sixteen wait, and then nothing has changed.
    pub fn offer(&mut self, company: u8, command: Command) -> bool
        ensures room { IsTrue result ↔ (length self.old.waiting < 16) }
        ensures last { IsTrue result → self.new ≡ record self.old { waiting = self.old.waiting ++ (company, command) ∷ [] } }
        ensures full { IsFalse result → self.new ≡ self.old }
    {
        self.waiting.offer(company, command)
    }

    /// Its two oldest commands wait no longer.
    pub fn draw_two(&mut self)
        ensures drawn { self.new ≡ drawn self.old }
    {
        let _oldest = self.waiting.draw();
        let _next = self.waiting.draw();
    }
}
