//! The version, which stands first in most messages to the coordinator, the STUN desk and the TURN server.
ghost use Rattle.tt_frame.specs.Reading.{fixed_at, FixedRead};

use tt_frame::{Bad, Fields, fixed};

/// The version of the protocol.
pub(crate) const VERSION: u8 = 1;

/// The version, which no message keeps.
pub(crate) fn version(f: &mut Fields) -> Result<(), Bad>
    ensures { FixedRead result f.new (fixed_at 1 f.old) }
{
    fixed(f, VERSION)
}
