//! What is told of a core at its end.
ghost use Rattle.std.specs.Prelude.{◌≡◌, ◌≤◌, ℕ, List, OnOk, OnErr};
ghost use Rattle.tt_edge.specs.Count.{Rose};
ghost use Rattle.tt_serving.specs.Page.{Puts, Loses};
ghost use Rattle.tt_serving.specs.Told.{IsTold, sink_now};

use crate::page::Page;
use tt_edge::{Sink, SinkFault};

/// The figures of a core, as text.
pub trait Figures<C> {
    /// The summary of a core.
    ghost summary: { C → List ℕ };

    /// Puts the summary on a page. It takes no memory.
    fn put<K: Sink>(&self, core: &C, page: &mut Page, sink: &mut K) -> Result<(), SinkFault>
        ensures puts { OnOk result (Puts (K.held sink.old) (K.held sink.new) page.old page.new (summary core.now)) }
        ensures kept { OnOk result (K.faults sink.new ≡ K.faults sink.old) }
        ensures loses { OnErr result (Loses (K.held sink.old) (K.held sink.new) page.old (summary core.now)) }
        ensures fault { OnErr result (Rose (K.faults sink.old) (K.faults sink.new)) }
        ensures counted { K.faults sink.old ≤ K.faults sink.new };
}

/// Tells the summary of a core, and says whether all of it was written.
pub fn tell<C, F: Figures<C>, K: Sink>(figures: &F, core: &C, sink: &mut K) -> bool
    ensures told { IsTold result (F.summary core.now) (sink_now K.held K.faults sink.old) (sink_now K.held K.faults sink.new) }
{
    let mut page = Page::new();
    match figures.put(core, &mut page, sink) {
        Ok(()) => {}
        Err(_) => return false,
    }
    match page.flush(sink) {
        Ok(()) => true,
        Err(_) => false,
    }
}
