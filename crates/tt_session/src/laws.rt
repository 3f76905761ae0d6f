//! What holds of every run. This function does nothing: its contract is the law.
ghost use Rattle.std.specs.Prelude.{ℕ, List};
ghost use Rattle.tt_edge.specs.declared.event.Event.{Event};
ghost use Rattle.tt_log.specs.Origin.{Origin};
ghost use Rattle.tt_client.specs.declared.login.Login.{Login};
ghost use Rattle.tt_client.specs.Held.{held_first};
ghost use Rattle.tt_rounds.specs.Links.{LinkNow};
ghost use Rattle.tt_play_file.specs.declared.line.TimedLine.{TimedLine};
ghost use Rattle.tt_session.specs.declared.end.PlayEnd.{PlayEnd};
ghost use Rattle.tt_session.specs.Session.{Session, SinkNow, TickerNow};
ghost use Rattle.tt_session.specs.InStep.{RunsInStep};

use tt_client::clients_are_in_step;

/// The lockstep promise of the player. Of a run whose link gave a front of what a server sent to a player: each line that it
/// printed of its client is of the world of the server's journal at its own frame, and the client is neither out of step nor told
/// what is not permitted.
pub fn prints_in_step()
    ensures sent { (o : Origin) (events : List Event) (conn : ℕ) (login : Login) (lines : List TimedLine)
        (l l2 : LinkNow) (t t2 : TickerNow)
        (k k2 : SinkNow) (e : PlayEnd) (run : Session (held_first login) lines l l2 t t2 k k2 e)
        → RunsInStep o events conn run.actions run.lost run.last e }
{
    clients_are_in_step();
}
