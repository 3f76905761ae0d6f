//! A core that a server can be run over.
ghost use Rattle.std.specs.Prelude.{◌≡◌, List};
ghost use Rattle.tt_edge.specs.declared.event.Event.{Event};
ghost use Rattle.tt_edge.specs.Event.{is_taken};

use crate::machine::Core;

/// A core that, until all is over, takes every opening, every tick, every stop, and whatever names a live connection; and
/// nothing else. So whoever serves a connection never meets `CoreErr::NoSuch` but where the core has ended it.
pub trait Servable: Core {
    /// What it takes behind a list of events.
    ghost takes_live: { (m : Self.Made) (before : List Event) (event : Event)
        → Self.takes m before event ≡ is_taken (Self.is_live m before) event };
}
