//! The half of a round that hears.
ghost use Rattle.tt_rounds.specs.Links.{link_now};
ghost use Rattle.tt_admin_run.specs.Listening.{IsEnding};
ghost use Rattle.tt_admin_run.specs.Rounds.{Listens, sink_now};

use crate::ended::Ended;
use crate::hearing::{Inbox, Notes, hear};
use std::alloc::Global;
use tt_edge::{Link, Sink, write_all};
use tt_rounds::{Heard, hear_round};

/// Whether the run ends with what was noted, or with what became of the link.
fn ending(notes: &Notes, heard: Heard) -> Option<Ended>
    ensures { IsEnding notes.now.refused notes.now.shutdown heard result }
{
    if notes.refused {
        return Some(Ended::Refused);
    }
    if notes.shutdown {
        return Some(Ended::Shutdown);
    }
    match heard {
        Heard::Going => None,
        Heard::End => Some(Ended::LinkEnd),
        Heard::Failed => Some(Ended::LinkFault),
        Heard::Memory => Some(Ended::Memory),
    }
}

/// Reads what came, writes the text of all that is whole, and says whether the run ends with it.
pub fn listen<L: Link, K: Sink>(
    alloc: Global,
    link: &mut L,
    inbox: &mut Inbox,
    notes: &mut Notes,
    sink: &mut K,
) -> Option<Ended>
    ensures { Listens inbox.old inbox.new notes.old notes.new
        (link_now L.counts L.left L.was_read L.held link.old) (link_now L.counts L.left L.was_read L.held link.new)
        (sink_now K.faults K.held sink.old) (sink_now K.faults K.held sink.new) result }
{
    let heard = hear_round(link, inbox);
    if let Heard::Memory = heard {
        return Some(Ended::Memory);
    }
    let mut text = Vec::new(alloc);
    let Ok(taken) = hear(alloc, &mut text, inbox.bytes(), notes) else {
        return Some(Ended::Memory);
    };
    let Ok(()) = inbox.forget(alloc, taken) else {
        return Some(Ended::Memory);
    };
    let Ok(()) = write_all(sink, &text) else {
        return Some(Ended::SinkFault);
    };
    ending(notes, heard)
}
