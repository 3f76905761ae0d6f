//! How a connection ends, as it is planned: what is told by it. What is done then is `Parts::quit`.
ghost use Rattle.std.specs.Prelude.{◌≡◌, ◌++◌, ℕ, OnOk};
ghost use Rattle.tt_gc_table.specs.declared.setup.GcSetup.{GcSetup};
ghost use Rattle.tt_gc_table.specs.Ending.{ends};
ghost use Rattle.tt_gc_table.specs.Told.{bytes_to};
ghost use Rattle.tt_gc_table.specs.Tells.{told_to};

use crate::parts::Parts;
use crate::tells::Tells;
use std::alloc::Global;
use tt_coord::CoordMsg;
use tt_frame::{OutOfMemory, Text, UpTo};

/// Plans what is told where a connection is told a code and a detail, and ends.
pub fn plan_end(
    alloc: Global,
    out: &mut Tells,
    parts: &Parts,
    turn_host: &Text<31>,
    conn: u32,
    code: UpTo<2>,
    detail: Text<31>,
) -> Result<(), OutOfMemory>
    ensures told { OnOk result ((s : GcSetup) → s.turn_host ≡ turn_host.now → (c : ℕ)
        → told_to c out.new ≡ told_to c out.old ++ bytes_to c (ends s conn code detail parts.now).told) }
{
    let message = CoordMsg::GcError { code, detail };
    out.tell(alloc, parts, conn, &message)?;
    parts.tell_lost(alloc, out, turn_host, conn)?;
    Ok(())
}
