//! What is told of a game at its end.
ghost use Rattle.std.specs.Prelude.{◌≡◌, ◌≤◌, ℕ, OnOk, OnErr, length};
ghost use Rattle.tt_edge.specs.Count.{Rose};
ghost use Rattle.tt_edge.specs.Event.{opens};
ghost use Rattle.tt_hub.specs.Hub.{made_of, origin, sent};
ghost use Rattle.tt_log.specs.History.{table_of};
ghost use Rattle.tt_log.specs.Table.{world_of};
ghost use Rattle.tt_report.specs.Summary.{connections_line, frame_line, entries_line, words_line, count_lines};
ghost use Rattle.tt_serving.specs.Page.{Puts, Loses};
ghost use Rattle.tt_server.specs.Summary.{game_summary, head_of};

use tt_edge::{Sink, SinkFault};
use tt_hub::Hub;
use tt_serving::{Figures, Label, Page, Part};

/// The figures of a game.
pub struct GameFigures;

/// Puts the lines in front: the number of connections, the frame, the length of the journal, and the two random words.
fn put_head<K: Sink>(hub: &Hub, page: &mut Page, sink: &mut K) -> Result<(), SinkFault>
    ensures puts { OnOk result (Puts (K.held sink.old) (K.held sink.new) page.old page.new (head_of (origin hub.now) hub.now.events)) }
    ensures kept { OnOk result (K.faults sink.new ≡ K.faults sink.old) }
    ensures loses { OnErr result (Loses (K.held sink.old) (K.held sink.new) page.old (head_of (origin hub.now) hub.now.events)) }
    ensures fault { OnErr result (Rose (K.faults sink.old) (K.faults sink.new)) }
    ensures counted { K.faults sink.old ≤ K.faults sink.new }
{
    let (first, second) = hub.world().random().words();
    let entries = hub.journal().len() as u64;
    page.put_parts(
        sink,
        &[
            Part::Words(Label::Connections),
            Part::Number(u64::from(hub.connections())),
            Part::Words(Label::End),
            Part::Words(Label::Frame),
            Part::Number(u64::from(hub.frame())),
            Part::Words(Label::End),
            Part::Words(Label::Entries),
            Part::Number(entries),
            Part::Words(Label::End),
            Part::Words(Label::Random),
            Part::Word(first),
            Part::Words(Label::Blank),
            Part::Word(second),
            Part::Words(Label::End),
        ],
    )
}

/// Puts a line for each connection, in order.
fn put_connections<K: Sink>(hub: &Hub, page: &mut Page, sink: &mut K) -> Result<(), SinkFault>
    ensures puts { OnOk result (Puts (K.held sink.old) (K.held sink.new) page.old page.new
        (count_lines (λ conn. length (sent (made_of hub.now) hub.now.events conn)) (opens hub.now.events))) }
    ensures kept { OnOk result (K.faults sink.new ≡ K.faults sink.old) }
    ensures loses { OnErr result (Loses (K.held sink.old) (K.held sink.new) page.old
        (count_lines (λ conn. length (sent (made_of hub.now) hub.now.events conn)) (opens hub.now.events))) }
    ensures fault { OnErr result (Rose (K.faults sink.old) (K.faults sink.new)) }
    ensures counted { K.faults sink.old ≤ K.faults sink.new }
{
    for before in 0..hub.connections() {
        let conn = before + 1;
        match page.put_count(sink, conn, hub.sent_len(conn)) {
            Ok(()) => {}
            Err(fault) => return Err(fault),
        }
    }
    Ok(())
}

impl Figures<Hub> for GameFigures {
    ghost use Rattle.tt_server.specs.Summary.{game_summary};

    ghost summary = { game_summary };

    fn put<K: Sink>(&self, core: &Hub, page: &mut Page, sink: &mut K) -> Result<(), SinkFault> {
        match put_head(core, page, sink) {
            Ok(()) => {}
            Err(fault) => return Err(fault),
        }
        match put_connections(core, page, sink) {
            Ok(()) => Ok(()),
            Err(fault) => Err(fault),
        }
    }
}
