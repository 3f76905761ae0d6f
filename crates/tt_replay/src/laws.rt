//! What holds of the report of every script. This function does nothing: its contract is the law.
ghost use Rattle.tt_replay.specs.InStep.{ReportInStep};

use tt_playing::{attached_in_step, lines_in_step};

/// The lockstep promise of a report: it tells each attached client of its script, beside the journal; and a client to which nothing
/// was forged it tells by lines that are in step with that journal. They are one of four: that the client is joining; its frame,
/// with the world of the journal at that frame and all that this world holds; that it was ended with a code; or that the game is
/// over.
pub fn reports_are_in_step()
    ensures tells { ReportInStep }
{
    attached_in_step();
    lines_in_step();
}
