//! What is told of a coordinator at its end.
ghost use Rattle.std.specs.Prelude.{◌≡◌, ◌≤◌, ℕ, OnOk, OnErr, length};
ghost use Rattle.tt_edge.specs.Count.{Rose};
ghost use Rattle.tt_edge.specs.Event.{opens};
ghost use Rattle.tt_gc_table.specs.Told.{sent};
ghost use Rattle.tt_report.specs.Summary.{connections_line, count_lines};
ghost use Rattle.tt_serving.specs.Page.{Puts, Loses};
ghost use Rattle.tt_coordinator.specs.Summary.{gc_summary};

use tt_edge::{Sink, SinkFault};
use tt_gc::Coordinator;
use tt_serving::{Figures, Label, Page, Part};

/// The figures of a coordinator.
pub struct GcFigures;

/// Puts the line in front: the number of connections.
fn put_head<K: Sink>(gc: &Coordinator, page: &mut Page, sink: &mut K) -> Result<(), SinkFault>
    ensures puts { OnOk result (Puts (K.held sink.old) (K.held sink.new) page.old page.new (connections_line (opens gc.now.events))) }
    ensures kept { OnOk result (K.faults sink.new ≡ K.faults sink.old) }
    ensures loses { OnErr result (Loses (K.held sink.old) (K.held sink.new) page.old (connections_line (opens gc.now.events))) }
    ensures fault { OnErr result (Rose (K.faults sink.old) (K.faults sink.new)) }
    ensures counted { K.faults sink.old ≤ K.faults sink.new }
{
    page.put_parts(
        sink,
        &[
            Part::Words(Label::Connections),
            Part::Number(u64::from(gc.connections())),
            Part::Words(Label::End),
        ],
    )
}

/// Puts a line for each connection, in order.
fn put_connections<K: Sink>(
    gc: &Coordinator,
    page: &mut Page,
    sink: &mut K,
) -> Result<(), SinkFault>
    ensures puts { OnOk result (Puts (K.held sink.old) (K.held sink.new) page.old page.new
        (count_lines (λ conn. length (sent gc.now.setup gc.now.events conn)) (opens gc.now.events))) }
    ensures kept { OnOk result (K.faults sink.new ≡ K.faults sink.old) }
    ensures loses { OnErr result (Loses (K.held sink.old) (K.held sink.new) page.old
        (count_lines (λ conn. length (sent gc.now.setup gc.now.events conn)) (opens gc.now.events))) }
    ensures fault { OnErr result (Rose (K.faults sink.old) (K.faults sink.new)) }
    ensures counted { K.faults sink.old ≤ K.faults sink.new }
{
    for before in 0..gc.connections() {
        let conn = before + 1;
        match page.put_count(sink, conn, gc.sent_len(conn)) {
            Ok(()) => {}
            Err(fault) => return Err(fault),
        }
    }
    Ok(())
}

impl Figures<Coordinator> for GcFigures {
    ghost use Rattle.tt_coordinator.specs.Summary.{gc_summary};

    ghost summary = { gc_summary };

    fn put<K: Sink>(
        &self,
        core: &Coordinator,
        page: &mut Page,
        sink: &mut K,
    ) -> Result<(), SinkFault> {
        match put_head(core, page, sink) {
            Ok(()) => {}
            Err(fault) => return Err(fault),
        }
        match put_connections(core, page, sink) {
            Ok(()) => Ok(()),
            Err(fault) => Err(fault),
        }
    }
}
