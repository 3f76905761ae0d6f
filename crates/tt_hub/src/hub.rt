//! The core: a game, and the bytes that wait for its connections.
ghost use Rattle.std.specs.Prelude.{◌≡◌, ◌≤◌, ◌↔◌, IsTrue, false, [], length, IfOk, IfErr};
ghost use Rattle.tt_world.specs.Setup.{Fits};
ghost use Rattle.tt_world.specs.World.{start};
ghost use Rattle.tt_edge.specs.Event.{opens};
ghost use Rattle.tt_log.specs.History.{table_of};
ghost use Rattle.tt_log.specs.Table.{world_of};
ghost use Rattle.tt_hub.specs.Hub.{is_live, made_of, origin, sent};

use crate::delivering::{deliver, make_room, planned};
use std::alloc::Global;
use std::marker::Model;
use tt_edge::{Core, CoreErr, Event, Record, Servable, Took};
use tt_frame::OutOfMemory;
use tt_outgoing::{Outs, Staged};
use tt_table::{Ends, Game};
use tt_world::{Entry, Setup, World};

/// Why no game was made from a world: memory ran out. The world is given back as it was.
#[derive(Debug, Drop)]
pub struct FromErr {
    /// The world that the game was to start from.
    pub world: World,
}

/// A game with its connections. Contracts see what it was made from, the events that it has taken, and how many bytes of each
/// connection were taken; all else follows.
#[derive(Drop)]
pub struct Hub {
    game: Game,
    outs: Outs,
    /// How many bytes were taken of each connection. It has a seat, as `outs` has, for each connection that was opened, and maybe
    /// for the next one.
    counts: Vec<u64>,
    /// No connection was told more bytes.
    most: u64,
    staged: Staged,
    ends: Ends,
}

impl Model for Hub {
    ghost use Rattle.tt_hub.specs.Hub.{HubState};
    ghost use Rattle.tt_hub.specs.Running.{IsRunning};

    ghost Value = { HubState };

    ghost view = { λ h. record {
      setup = h.game.origin.setup;
      start = h.game.origin.start;
      events = h.game.events;
      counts = h.counts.items;
    } };

    ghost invariant = { λ h. IsRunning h.game h.outs h.counts.items h.most };
}

impl Hub {
    /// A game that nothing has reached yet, from the setup's own world.
    pub fn new(alloc: Global, setup: &Setup) -> Result<Hub, OutOfMemory>
        requires setup { Fits setup.now }
        ensures setup { IfOk result (λ hub. hub.setup ≡ setup.now) }
        ensures start { IfOk result (λ hub. hub.start ≡ start setup.now) }
        ensures events { IfOk result (λ hub. hub.events ≡ []) }
        ensures counts { IfOk result (λ hub. hub.counts ≡ []) }
    {
        let start = World::start(alloc, setup)?;
        let world = start.copy(alloc)?;
        Ok(Hub::begun(alloc, setup, start, world))
    }

    /// A game that nothing has reached yet, from a saved world of a day of at most 900,000,000; so it comes to no day that a
    /// map does not tell. Where memory runs out, the world is given back.
    pub fn from_world(alloc: Global, setup: &Setup, world: World) -> Result<Hub, FromErr>
        requires setup { Fits setup.now }
        requires day { world.day ≤ 900000000 }
        ensures setup { IfOk result (λ hub. hub.setup ≡ setup.now) }
        ensures start { IfOk result (λ hub. hub.start ≡ world) }
        ensures events { IfOk result (λ hub. hub.events ≡ []) }
        ensures counts { IfOk result (λ hub. hub.counts ≡ []) }
        ensures err { IfErr result (λ bad. bad.world ≡ world) }
    {
        match world.copy(alloc) {
            Ok(start) => Ok(Hub::begun(alloc, setup, start, world)),
            Err(_) => Err(FromErr { world }),
        }
    }

    /// A game that starts from a world, of which there are two copies: the start, and the world that runs on.
    fn begun(alloc: Global, setup: &Setup, start: World, world: World) -> Hub
        requires setup { Fits setup.now }
        requires world { world ≡ start }
        ensures setup { result.setup ≡ setup.now }
        ensures start { result.start ≡ start }
        ensures events { result.events ≡ [] }
        ensures counts { result.counts ≡ [] }
    {
        Hub {
            game: Game::new(alloc, setup, start, world),
            outs: Outs::new(alloc),
            counts: Vec::new(alloc),
            most: 0,
            staged: Staged::new(alloc),
            ends: Ends::new(alloc),
        }
    }

    /// The frame: how many ticks were taken.
    pub fn frame(&self) -> u32
        ensures frame { result ≡ (table_of (origin self.now) self.now.events).frame }
    {
        self.game.frame()
    }

    /// The greatest permitted frame.
    pub fn top(&self) -> u32
        ensures top { result ≡ (table_of (origin self.now) self.now.events).top }
    {
        self.game.top()
    }

    /// The world at the frame.
    pub fn world(&self) -> &World
        ensures world { result.now ≡ world_of (origin self.now) (table_of (origin self.now) self.now.events) }
    {
        self.game.world()
    }

    /// All commands that were stamped, in order.
    pub fn journal(&self) -> &[Entry]
        ensures journal { result.now ≡ (table_of (origin self.now) self.now.events).journal }
    {
        self.game.journal()
    }

    /// The events that it has taken, in order.
    pub fn events(&self) -> &Record
        ensures events { result.now.events ≡ self.now.events }
    {
        self.game.events()
    }

    /// How many connections were opened.
    pub fn connections(&self) -> u32
        ensures connections { result ≡ opens self.now.events }
    {
        self.game.openings()
    }

    /// Whether a connection was opened and has not ended.
    pub fn live(&self, conn: u32) -> bool
        ensures live { result ≡ is_live (made_of self.now) self.now.events conn }
    {
        self.game.live(conn)
    }

    /// How many bytes a connection was told.
    pub fn sent_len(&self, conn: u32) -> u64
        ensures count { result ≡ length (sent (made_of self.now) self.now.events conn) }
    {
        if conn == 0 || conn as usize > self.counts.len() {
            return 0;
        }
        self.counts[conn as usize - 1] + self.outs.left(conn)
    }
}

impl Core for Hub {
    ghost use Rattle.tt_hub.specs.Hub.{is_live, is_over, made_of, sent, taken, takes};
    ghost use Rattle.tt_hub.specs.Laws.{ended_stays, over_is_last, sent_grows, unopened};

    type Made = (Setup, World);

    ghost made = { made_of };

    ghost events = { λ h. h.events };

    ghost taken = { taken };

    ghost sent = { sent };

    ghost is_live = { is_live };

    ghost is_over = { is_over };

    ghost takes = { takes };

    fn event(&mut self, event: Event) -> Result<u32, CoreErr> {
        if self.game.over() {
            return Err(CoreErr::Over);
        }
        if !self.game.takes(&event) {
            return Err(CoreErr::NoSuch);
        }
        let about = self.game.about(&event);
        let change = planned(&mut self.game, &mut self.staged, &event)?;
        let conns = self.game.most_ends();
        let most = make_room(
            &mut self.outs,
            &mut self.counts,
            &mut self.ends,
            &self.staged,
            about,
            conns,
            self.most,
        )?;
        self.game.put(event, change, &mut self.ends)?;
        deliver(&mut self.outs, &self.staged, &self.ends);
        self.most = most;
        Ok(about)
    }

    fn take(&mut self, conn: u32, out: &mut [u8]) -> Took {
        if conn == 0 || conn as usize > self.counts.len() {
            return Took {
                count: 0,
                done: true,
            };
        }
        let count = self.outs.take(conn, out);
        self.counts[conn as usize - 1] += count as u64;
        Took {
            count,
            done: is_done(self.game.live(conn), self.outs.left(conn)),
        }
    }

    fn over(&self) -> bool {
        self.game.over()
    }

    ghost sent_grows = { sent_grows };

    ghost ended_stays = { ended_stays };

    ghost unopened = { unopened };

    ghost over_is_last = { over_is_last };
}

/// Nothing comes any more: the connection is not live, and nothing is left of what it was told.
fn is_done(live: bool, left: u64) -> bool
    ensures { IsTrue result ↔ ((live ≡ false) × (left ≡ 0)) }
{
    !live && left == 0
}

impl Servable for Hub {
    ghost use Rattle.tt_hub.specs.Laws.{takes_live};

    ghost takes_live = { takes_live };
}
