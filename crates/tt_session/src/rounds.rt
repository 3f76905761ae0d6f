//! The rounds of a run.

ghost use Rattle.tt_rounds.specs.Links.{link_now};
ghost use Rattle.tt_session.specs.Session.{GoesOn, IsEndOf, Session, sink_now, ticker_now};
ghost use Rattle.tt_client.specs.State.{state_of};

use crate::acting::{Acted, act};
use crate::end::PlayEnd;
use crate::player::Player;
use std::alloc::Global;
use std::collections::VecDeque;
use std::sync::Wait;
use tt_client::State;
use tt_edge::{Beat, Link, Sink, Ticker};
use tt_play_file::TimedLine;
use tt_rounds::{Heard, Outbox, Said, hear_round, say_round};

/// The end of a run that goes on no more, as its client stands.
fn end_of(state: State) -> Option<PlayEnd>
    ensures { IsEndOf state result }
{
    match state {
        State::Joining => None,
        State::Running => None,
        State::Ended(_) => Some(PlayEnd::Ended),
        State::Shutdown => Some(PlayEnd::Shutdown),
        State::Desync { .. } => Some(PlayEnd::Desync),
        State::Wrong { .. } => Some(PlayEnd::Wrong),
    }
}

/// Plays, round by round: what came is fed, what is due is done, what the client has to say is written, and a beat is waited for.
pub fn play_rounds<R: Wait, L: Link, T: Ticker, K: Sink>(
    rt: &R,
    alloc: Global,
    player: &mut Player,
    left: &mut VecDeque<TimedLine>,
    link: &mut L,
    ticker: &mut T,
    sink: &mut K,
) -> PlayEnd
    requires { GoesOn (state_of player.old.player) }
    ensures { Session player.old left.old.items (link_now L.counts L.left L.was_read L.held link.old)
        (link_now L.counts L.left L.was_read L.held link.new)
        (ticker_now T.counts T.beats ticker.old) (ticker_now T.counts T.beats ticker.new) (sink_now K.held K.faults sink.old)
        (sink_now K.held K.faults sink.new) result }
{
    let mut outbox = Outbox::new();
    'round: for _ in rt.forever() {
        let heard = hear_round(link, player);
        if let Heard::Memory = heard {
            return PlayEnd::Memory;
        }
        match act(alloc, player, left, sink) {
            Acted::Going => {}
            Acted::Quit => return PlayEnd::Quit,
            Acted::SinkFault => return PlayEnd::SinkFault,
            Acted::Memory => return PlayEnd::Memory,
        }
        match end_of(player.state()) {
            Some(end) => return end,
            None => {}
        }
        match heard {
            Heard::End => return PlayEnd::LinkEnd,
            Heard::Failed => return PlayEnd::LinkFault,
            Heard::Going => {}
            Heard::Memory => unreachable!(),
        }
        if let Said::Failed = say_round(link, &mut outbox, player) {
            return PlayEnd::LinkFault;
        }
        match ticker.wait() {
            Beat::Tick => {}
            Beat::Stop => return PlayEnd::Stopped,
            Beat::Failed => return PlayEnd::TickerFault,
        }
    }
    unreachable!()
}
