//! What of the world a change needs: the world behind, where something is told of it, and the map that begins.
ghost use Rattle.std.specs.Prelude.{◌≡◌, IfOk};
ghost use Rattle.tt_map.specs.Layout.{map_of};
ghost use Rattle.tt_table.specs.Does.{begins_map, is_begin, is_of_world, need_world, needs_world};

use std::alloc::Global;
use tt_frame::OutOfMemory;
use tt_log::report::Report;
use tt_members::{Step, What};
use tt_outgoing::Download;
use tt_world::World;

/// Whether a map begins by some steps.
pub(crate) fn begins_map(steps: &[Step]) -> bool
    ensures begins { result ≡ begins_map steps.now }
{
    for step in steps.iter() {
        if is_begin(&step.what) {
            return true;
        }
    }
    false
}

/// Whether a map begins.
fn is_begin(what: &What) -> bool
    ensures begin { result ≡ is_begin what.now }
{
    match what {
        What::MapBegin => true,
        _ => false,
    }
}

/// Whether some steps tell something that is filled in from the world behind.
pub(crate) fn needs_world(steps: &[Step]) -> bool
    ensures needs { result ≡ need_world steps.now }
{
    for step in steps.iter() {
        if tells_world(&step.what) {
            return true;
        }
    }
    false
}

/// Whether something is filled in from the world behind.
fn tells_world(what: &What) -> bool
    ensures needs { result ≡ needs_world what.now }
{
    match what {
        What::ToAdmin(report) => is_of_world(report),
        _ => false,
    }
}

/// Whether a report is.
fn is_of_world(report: &Report) -> bool
    ensures is { result ≡ is_of_world report.now }
{
    match report {
        Report::Message(_) | Report::CompanyNews => false,
        _ => true,
    }
}

/// The download of a world's map, of which nothing was told.
pub(crate) fn begun(alloc: Global, world: &World) -> Result<Download, OutOfMemory>
    ensures map { IfOk result (λ download. download ≡ map_of world.now) }
{
    let copy = world.copy(alloc)?;
    Download::new(alloc, copy)
}
