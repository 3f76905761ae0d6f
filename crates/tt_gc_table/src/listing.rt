//! A listing, as it is planned: the servers that a client asked for. Nothing is done by it.
ghost use Rattle.std.specs.Prelude.{◌≡◌, ◌++◌, [], ℕ, OnOk};
ghost use Rattle.tt_coord.specs.declared.coord.CoordMsg.TheVariants.{GcListing};
ghost use Rattle.tt_gc_table.specs.PacketRules.{on_listing};
ghost use Rattle.tt_gc_table.specs.Told.{bytes_to};
ghost use Rattle.tt_gc_table.specs.Tells.{told_to};

use crate::parts::Parts;
use crate::tells::Tells;
use std::alloc::Global;
use tt_coord::CoordMsg;
use tt_frame::{Items, OutOfMemory};

/// Plans what a connection is told that asks for the public servers of this revision: each of them, and then the end.
pub fn plan_listing(
    alloc: Global,
    out: &mut Tells,
    parts: &Parts,
    conn: u32,
    revision: &[u8],
) -> Result<(), OutOfMemory>
    ensures told { OnOk result ((c : ℕ)
        → told_to c out.new ≡ told_to c out.old ++ bytes_to c (on_listing conn revision.now parts.now).told) }
{
    parts.tell_listed(alloc, out, conn, revision)?;
    let message = last_of_listing(alloc);
    out.tell(alloc, parts, conn, &message)?;
    Ok(())
}

/// The message behind the last server of a listing.
fn last_of_listing(alloc: Global) -> CoordMsg
    ensures { result ≡ GcListing [] }
{
    CoordMsg::GcListing {
        items: Items::new(alloc),
    }
}
