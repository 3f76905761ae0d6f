//! The echo core of `tt_edge` with a count of its events, for the room's tests.
ghost use Rattle.std.specs.Prelude.{◌≡◌, [], length};
ghost use Rattle.tt_edge.specs.EchoCore.{events_of};

use std::alloc::Global;
use tt_edge::echo::EchoCore;
use tt_edge::{Core, CoreErr, Event, Took};

#[derive(Drop)]
pub struct Counting {
    echo: EchoCore,
    count: u64,
    ghost counted: { count ≡ length (events_of echo) },
}

impl Counting {
    pub fn new(alloc: Global) -> Counting
        ensures { events_of result.echo ≡ [] }
    {
        Counting {
            echo: EchoCore::new(alloc, 7),
            count: 0,
        }
    }

    pub fn count(&self) -> u64 {
        self.count
    }
}

impl Core for Counting {
    ghost use Rattle.tt_edge.specs.EchoCore.{greeting_of, events_of, lines_of};
    ghost use Rattle.tt_edge.specs.Line.{line_of};
    ghost use Rattle.tt_edge.specs.Echo.{sent, is_live, is_over, takes};
    ghost use Rattle.tt_edge.specs.EchoLaws.{sent_grows, ended_stays, unopened, over_is_last};

    type Made = u8;

    ghost made = { λ s. greeting_of s.echo };

    ghost events = { λ s. events_of s.echo };

    ghost taken = { λ s conn. (line_of (lines_of s.echo) conn).taken };

    ghost sent = { sent };

    ghost is_live = { is_live };

    ghost is_over = { is_over };

    ghost takes = { takes };

    fn event(&mut self, event: Event) -> Result<u32, CoreErr> {
        match self.echo.event(event) {
            Ok(conn) => {
                self.count += 1;
                Ok(conn)
            }
            Err(refusal) => Err(refusal),
        }
    }

    fn take(&mut self, conn: u32, out: &mut [u8]) -> Took {
        self.echo.take(conn, out)
    }

    fn over(&self) -> bool {
        self.echo.over()
    }

    ghost sent_grows = { sent_grows };

    ghost ended_stays = { ended_stays };

    ghost unopened = { unopened };

    ghost over_is_last = { over_is_last };
}
