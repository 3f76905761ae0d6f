//! A game: its events, its table by parts, and its world.
ghost use Rattle.std.specs.Prelude.{◌≡◌, ◌+◌, [], false, find, is_some, length};
ghost use Rattle.tt_edge.specs.Event.{conn_of, opens};
ghost use Rattle.tt_world.specs.Setup.{Fits};
ghost use Rattle.tt_log.specs.Events.{names_live};
ghost use Rattle.tt_log.specs.Table.{admin_of, is_admin_on, is_live, is_on, living_in, member_of, world_of};
ghost use Rattle.tt_log.specs.Tick.{left_of};
ghost use Rattle.tt_members.specs.Rules.{Rise};
ghost use Rattle.tt_table.specs.Held.{left_in, table};

use std::alloc::Global;
use std::marker::Model;
use tt_admin_desk::{Admin, Desk};
use tt_edge::{Event, Record};
use tt_join::{Members, Now};
use tt_members::{Member, place_of};
use tt_outgoing::Download;
use tt_rules::Live;
use tt_world::{Entry, Setup, World};

/// A game. Contracts see what it was made from and the events that it has taken; all else follows from these. They also see the
/// members, and for how many more events and entries there is room, which only the calls from `plan` to `put` speak of.
#[derive(Drop)]
pub struct Game {
    pub(crate) alloc: Global,
    pub(crate) setup: Setup,
    pub(crate) start: World,
    pub(crate) history: Record,
    pub(crate) count: u64,
    pub(crate) members: Members,
    pub(crate) desk: Desk,
    pub(crate) journal: Vec<Entry>,
    pub(crate) carried: usize,
    pub(crate) frame: u32,
    pub(crate) top: u32,
    pub(crate) openings: u32,
    pub(crate) cost: u64,
    pub(crate) over: bool,
    pub(crate) world: World,
    pub(crate) download: Option<Download>,
}

impl Model for Game {
    ghost use Rattle.std.specs.Prelude.{◌≡◌, ◌-◌, length, vec_len, vec_capacity};
    ghost use Rattle.tt_table.specs.Held.{Played, IsGame};

    ghost Value = { Played };

    ghost view = { λ g. record {
      origin = record { setup = g.setup; start = g.start };
      events = g.history.events;
      members = g.members;
      spare = g.history.spare;
      room = vec_capacity g.journal - vec_len g.journal;
    } };

    ghost invariant = { λ g. IsGame (record { setup = g.setup; start = g.start }) g.history.events (record {
      members = g.members;
      admins = g.desk;
      journal = g.journal.items;
      carried = g.carried;
      frame = g.frame;
      top = g.top;
      openings = g.openings;
      cost = g.cost;
      over = g.over;
      world = g.world;
      download = g.download;
    }) × (g.count ≡ length g.history.events) };
}

impl Game {
    /// A game that nothing has reached yet, from a world of which there are two copies: the start, and the world that runs on.
    /// It takes no memory.
    pub fn new(alloc: Global, setup: &Setup, start: World, world: World) -> Game
        requires setup { Fits setup.now }
        requires world { world ≡ start }
        ensures setup { result.origin.setup ≡ setup.now }
        ensures start { result.origin.start ≡ start }
        ensures events { result.events ≡ [] }
    {
        Game {
            alloc,
            setup: setup.copy(),
            start,
            history: Record::new(alloc),
            count: 0,
            members: Members::new(alloc, setup),
            desk: Desk::new(alloc),
            journal: Vec::new(alloc),
            carried: 0,
            frame: 0,
            top: 0,
            openings: 0,
            cost: 0,
            over: false,
            world,
            download: None,
        }
    }

    /// Whether the game is over.
    pub fn over(&self) -> bool
        ensures over { result ≡ (table self.now).over }
    {
        self.over
    }

    /// The frame: how many ticks were taken.
    pub fn frame(&self) -> u32
        ensures frame { result ≡ (table self.now).frame }
    {
        self.frame
    }

    /// The greatest permitted frame.
    pub fn top(&self) -> u32
        ensures top { result ≡ (table self.now).top }
    {
        self.top
    }

    /// How many connections were opened.
    pub fn openings(&self) -> u32
        ensures openings { result ≡ (table self.now).openings }
        ensures opens { result ≡ opens self.now.events }
    {
        self.openings
    }

    /// The world at the frame.
    pub fn world(&self) -> &World
        ensures world { result.now ≡ world_of self.now.origin (table self.now) }
    {
        &self.world
    }

    /// All commands that were stamped, in order.
    pub fn journal(&self) -> &[Entry]
        ensures journal { result.now ≡ (table self.now).journal }
    {
        self.journal.as_slice()
    }

    /// The events that it has taken, in order.
    pub fn events(&self) -> &Record
        ensures events { result.now.events ≡ self.now.events }
    {
        &self.history
    }

    /// Whether a member is on a connection.
    pub(crate) fn has_member(&self, conn: u32) -> bool
        requires going { (table self.now).over ≡ false }
        ensures has { result ≡ is_some (member_of (table self.now) conn) }
    {
        is_member(self.members.all(), conn)
    }

    /// Whether an admin is on a connection.
    pub(crate) fn has_admin(&self, conn: u32) -> bool
        requires going { (table self.now).over ≡ false }
        ensures has { result ≡ is_some (admin_of (table self.now) conn) }
    {
        is_admin(self.desk.all(), conn)
    }

    /// Whether a connection was opened and has not ended.
    pub fn live(&self, conn: u32) -> bool
        ensures live { result ≡ is_live (table self.now) conn }
    {
        !self.over && (self.has_member(conn) || self.has_admin(conn))
    }

    /// Whether an event can be taken, where the game is not over: an opening, a tick, a stop, or what names a live connection.
    pub fn takes(&self, event: &Event) -> bool
        ensures names { result ≡ names_live (table self.now) event.now }
    {
        match event {
            Event::Open { .. } | Event::Tick | Event::Stop => true,
            Event::Packet { conn, .. } | Event::Broken { conn } | Event::Shut { conn } => {
                self.live(*conn)
            }
        }
    }

    /// The connection that is opened next.
    pub(crate) fn next_opening(&self) -> u32
        requires going { (table self.now).over ≡ false }
        ensures next { result ≡ (table self.now).openings + 1 }
        ensures opened { result ≡ opens self.now.events + 1 }
    {
        self.openings + 1
    }

    /// The connection that an event is about; 0 for a tick and a stop.
    pub fn about(&self, event: &Event) -> u32
        requires going { (table self.now).over ≡ false }
        ensures conn { result ≡ conn_of self.now.events event.now }
    {
        match event {
            Event::Open { .. } => self.next_opening(),
            Event::Packet { conn, .. } | Event::Broken { conn } | Event::Shut { conn } => *conn,
            Event::Tick | Event::Stop => 0,
        }
    }

    /// The time, and what of the world the members look at.
    pub(crate) fn now(&self) -> Now
        requires going { (table self.now).over ≡ false }
        ensures frame { result.frame ≡ (table self.now).frame }
        ensures top { result.top ≡ (table self.now).top }
        ensures live { result.live ≡ living_in self.now.origin (table self.now) }
        ensures many { length result.live ≡ 15 }
        ensures left { result.left ≡ length (left_of self.now.origin (table self.now)) }
    {
        Now {
            frame: self.frame,
            top: self.top,
            live: Live::of(&self.world),
            left: left_in(&self.download),
        }
    }
}

/// Whether a member is on a connection.
fn is_member(members: &[Member], conn: u32) -> bool
    requires rise { Rise members.now }
    ensures is { result ≡ is_some (find (is_on conn) members.now) }
{
    match place_of(members, conn) {
        Some(at) => {
            let _member = &members[at];
            true
        }
        None => false,
    }
}

/// Whether an admin is on a connection.
fn is_admin(admins: &[Admin], conn: u32) -> bool
    ensures is { result ≡ is_some (find (is_admin_on conn) admins.now) }
{
    for admin in admins.iter() {
        if admin.conn == conn {
            return true;
        }
    }
    false
}

/// How many bytes of a download were not told yet; 0 where none runs.
fn left_in(download: &Option<Download>) -> u32
    ensures left { result ≡ length (left_in download.now) }
{
    match download {
        Some(download) => download.left(),
        None => 0,
    }
}
