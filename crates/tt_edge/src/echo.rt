//! A small core in memory, for tests of what stands over cores: it greets each connection that it opens, and tells it
//! the body of each of its packets again.
//!
//! It takes every opening, Tick and Stop, and each event that names a live connection. Broken and Shut end their
//! connection; Stop ends all.
ghost use Rattle.std.specs.Prelude.{◌≡◌, ◌≤◌, [], length};
ghost use Rattle.tt_edge.specs.Echoing.{IsEchoing};

mod conn;
mod lines;

use self::conn::Conn;
use self::lines::{answer, apply, ends_all, find, takes};
use crate::event::Event;
use crate::machine::{Core, CoreErr, Took};
use crate::record::Record;
use crate::servable::Servable;
use std::alloc::Global;

/// How many events it takes. Beyond them it answers want of memory.
const MOST_EVENTS: u64 = (1 << 63) - 1;

/// How many connections it opens. Once there are so many, it answers want of memory.
const MOST_CONNS: usize = u32::MAX as usize;

/// A core that echoes.
#[derive(Drop)]
pub struct EchoCore {
    greeting: u8,
    log: Record,
    count: u64,
    over: bool,
    conns: Vec<Conn>,
    ghost echoing: { IsEchoing greeting log.events over conns.items },
    ghost counted: { count ≡ length log.events },
}

impl EchoCore {
    ghost use Rattle.tt_edge.specs.EchoCore.{greeting_of, events_of, lines_of};

    /// A core that nothing has reached yet, which will greet with this byte. It takes no memory yet.
    pub fn new(alloc: Global, greeting: u8) -> EchoCore
        ensures greeting { greeting_of result ≡ greeting }
        ensures events { events_of result ≡ [] }
        ensures lines { lines_of result ≡ [] }
    {
        EchoCore {
            greeting,
            log: Record::new(alloc),
            count: 0,
            over: false,
            conns: Vec::new(alloc),
        }
    }
}

impl Core for EchoCore {
    ghost use Rattle.tt_edge.specs.Line.{line_of};
    ghost use Rattle.tt_edge.specs.Echo.{sent, is_live, is_over, takes};
    ghost use Rattle.tt_edge.specs.EchoLaws.{sent_grows, ended_stays, unopened, over_is_last};

    type Made = u8;

    ghost made = { λ s. s.greeting };

    ghost events = { λ s. s.log.events };

    ghost taken = { λ s conn. (line_of s.conns.items conn).taken };

    ghost sent = { sent };

    ghost is_live = { is_live };

    ghost is_over = { is_over };

    ghost takes = { takes };

    fn event(&mut self, event: Event) -> Result<u32, CoreErr> {
        if self.over {
            return Err(CoreErr::Over);
        }
        if !takes(&self.conns, &event) {
            return Err(CoreErr::NoSuch);
        }
        if self.count >= MOST_EVENTS || self.conns.len() >= MOST_CONNS {
            return Err(CoreErr::Memory);
        }
        self.log.reserve()?;
        let conn = answer(self.conns.len(), &event);
        apply(&mut self.conns, self.greeting, &event)?;
        self.over = ends_all(&event);
        self.log.add(event);
        self.count += 1;
        Ok(conn)
    }

    fn take(&mut self, conn: u32, out: &mut [u8]) -> Took {
        let Some(at) = find(&self.conns, conn) else {
            return Took {
                count: 0,
                done: true,
            };
        };
        let line = &mut self.conns[at];
        let count = line.take(out);
        let live = line.is_live();
        let drained = line.is_drained();
        Took {
            count,
            done: (self.over || !live) && drained,
        }
    }

    fn over(&self) -> bool {
        self.over
    }

    ghost sent_grows = { sent_grows };

    ghost ended_stays = { ended_stays };

    ghost unopened = { unopened };

    ghost over_is_last = { over_is_last };
}

impl Servable for EchoCore {
    ghost use Rattle.tt_edge.specs.EchoLaws.{takes_live};

    ghost takes_live = { takes_live };
}
