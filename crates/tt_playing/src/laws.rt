//! What holds of every script. These functions do nothing: their contracts are the laws.
ghost use Rattle.std.specs.Prelude.{◌≡◌, ℕ, Some};
ghost use Rattle.tt_log.specs.Contents.{Contents};
ghost use Rattle.tt_log.specs.History.{AreEvents};
ghost use Rattle.tt_log.specs.Printing.{IsScript};
ghost use Rattle.tt_playing.specs.Attached.{Attached};
ghost use Rattle.tt_playing.specs.InStep.{AttachedInStep, IsOnMain, LinesInStep, behind};

use tt_client::clients_are_in_step;

/// The lockstep promise of a script, whatever its lines are.
pub fn attached_in_step()
    // What the lines put to the server are events whose packets are bytes; and a client stands on a connection of the main door.
    ensures events { (script : Contents) → IsScript script → AreEvents (behind script).events }
    ensures door { (script : Contents) (conn : ℕ) (a : Attached) → IsScript script → (behind script).clients conn ≡ Some a
        → IsOnMain (behind script) conn }
    // A client to which nothing was forged was fed the first bytes of all that its connection is sent, and no others; and it is in
    // step with the journal of the same events. It is never out of step, nor told what is not permitted.
    ensures in_step { AttachedInStep }
{
    clients_are_in_step();
}

/// So the lines that tell a client to which nothing was forged are one of four: that it is joining; its frame, with the world of
/// the journal at that frame and all that this world holds; that it was ended with a code; or that the game is over.
pub fn lines_in_step()
    ensures lines { LinesInStep }
{
    attached_in_step();
}
