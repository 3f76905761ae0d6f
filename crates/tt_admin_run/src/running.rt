//! The run of an admin, round by round.
ghost use Rattle.std.specs.Prelude.{◌≡◌, List};
ghost use Rattle.tt_admin.specs.declared.message.AdminMsg.{AdminMsg};
ghost use Rattle.tt_rounds.specs.Links.{link_now};
ghost use Rattle.tt_admin_file.specs.declared.command.Command.{Command};
ghost use Rattle.tt_admin_run.specs.Agendas.{IsAgenda, IsMade};
ghost use Rattle.tt_admin_run.specs.Rounds.{Beats, sink_now, ticker_now};
ghost use Rattle.tt_admin_run.specs.Session.{DeskSession};

use crate::ended::Ended;
use crate::hearing::{Inbox, Notes};
use crate::listening::listen;
use crate::sending::Agenda;
use crate::speaking::speak;
use std::alloc::Global;
use std::sync::Wait;
use tt_edge::{Beat, Link, Sink, Ticker};
use tt_rounds::Outbox;

/// Waits for a beat, counts a tick, and says whether the run ends with it.
fn beat<T: Ticker>(ticker: &mut T, ticks: &mut u64) -> Option<Ended>
    ensures { Beats result ticks.old ticks.new (ticker_now T.counts T.beats ticker.old) (ticker_now T.counts T.beats ticker.new) }
{
    match ticker.wait() {
        Beat::Tick => match ticks.checked_add(1) {
            Some(next) => {
                *ticks = next;
                None
            }
            None => Some(Ended::Memory),
        },
        Beat::Stop => Some(Ended::Stopped),
        Beat::Failed => Some(Ended::TickFault),
    }
}

/// Says all that the agenda has, each message once it is due, and writes the text of what comes, until the run ends.
pub fn run<R: Wait, L: Link, T: Ticker, K: Sink>(
    rt: &R,
    alloc: Global,
    agenda: &Agenda,
    link: &mut L,
    ticker: &mut T,
    sink: &mut K,
) -> Ended
    requires { IsMade agenda.now }
    ensures { (join : AdminMsg) (lines : List Command) → IsAgenda join lines agenda.now → DeskSession join lines
        (link_now L.counts L.left L.was_read L.held link.old) (link_now L.counts L.left L.was_read L.held link.new)
        (ticker_now T.counts T.beats ticker.old) (ticker_now T.counts T.beats ticker.new)
        (sink_now K.faults K.held sink.old) (sink_now K.faults K.held sink.new) result }
{
    let mut inbox = Inbox::new(alloc);
    let mut notes = Notes::new();
    let mut outbox = Outbox::new();
    let mut given = 0usize;
    let mut ticks = 0u64;
    'round: for _ in rt.forever() {
        if let Some(end) = listen(alloc, link, &mut inbox, &mut notes, sink) {
            return end;
        }
        let due = agenda.due(notes.welcome, ticks);
        if let Some(end) = speak(link, &mut outbox, agenda, &mut given, due) {
            return end;
        }
        if let Some(end) = beat(ticker, &mut ticks) {
            return end;
        }
    }
    unreachable!()
}
