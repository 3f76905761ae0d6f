//! The half of a round that says.
ghost use Rattle.std.specs.Prelude.{◌≡◌, ◌≤◌, ◌++◌, ◌&&◌, ◌==◌, length};
ghost use Rattle.tt_rounds.specs.Links.{link_now};
ghost use Rattle.tt_admin_run.specs.Rounds.{Speaks};
ghost use Rattle.tt_admin_run.specs.Speaking.{IsSpoken};

use crate::ended::Ended;
use crate::sending::Agenda;
use tt_edge::Link;
use tt_rounds::{Outbox, Said, Say, say_round};

/// Bytes that are due and were not given yet.
#[derive(Drop)]
pub struct Due<'a> {
    rest: &'a [u8],
}

impl<'a> Say for Due<'a> {
    ghost due = { λ d. d.rest.now };

    ghost says = { λ old bytes new. old.rest.now ≡ bytes ++ new.rest.now };

    fn say(&mut self, out: &mut [u8]) -> usize {
        let count = self.rest.len().min(out.len());
        let (front, rest) = self.rest.split_at(count);
        out[..count].copy_from_slice(front);
        self.rest = rest;
        count
    }
}

/// Why the run ends behind what was said, if it does. `last` says that all there is was due, and that it ends with QUIT.
fn spoken(said: Said, last: bool) -> Option<Ended>
    ensures { IsSpoken said last result }
{
    match said {
        Said::Failed => Some(Ended::LinkFault),
        Said::Held => None,
        Said::All => { if last { Some(Ended::Quit) } else { None } }
    }
}

/// Whether all that there is is due, and ends with QUIT.
fn is_last(agenda: &Agenda, due: usize) -> bool
    ensures { result ≡ (agenda.now.quits && (due == length agenda.now.bytes.items)) }
{
    agenda.quits && due == agenda.bytes.len()
}

/// Writes what waits and what is due, as far as the link takes it, and says whether the run ends with it.
pub fn speak<L: Link>(
    link: &mut L,
    outbox: &mut Outbox,
    agenda: &Agenda,
    given: &mut usize,
    due: usize,
) -> Option<Ended>
    requires due { due ≤ length agenda.now.bytes.items }
    requires given { given.old ≤ due }
    ensures { Speaks agenda.now.bytes.items agenda.now.quits due given.old given.new outbox.old outbox.new
        (link_now L.counts L.left L.was_read L.held link.old) (link_now L.counts L.left L.was_read L.held link.new) result }
{
    let mut left = Due {
        rest: &agenda.bytes[*given..due],
    };
    let said = say_round(link, outbox, &mut left);
    *given = due - left.rest.len();
    let last = is_last(agenda, due);
    spoken(said, last)
}
