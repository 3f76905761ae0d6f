//! The lockstep theorem, of a client that folds its world from scratch and of one that runs it.

ghost use Rattle.std.specs.Prelude.{◌≡◌, ◌++◌, List};
ghost use Rattle.tt_lockstep.specs.Game.{Game};
ghost use Rattle.tt_lockstep.specs.Told.{Told};
ghost use Rattle.tt_lockstep.specs.Server.{Step, after, initial, stream};
ghost use Rattle.tt_lockstep.specs.Client.{Call, fed, run, unfed};
ghost use Rattle.tt_lockstep.specs.InStep.{IsInStep};
ghost use Rattle.tt_lockstep.specs.Runner.{IsRunnerInStep, RunnerJoining, runner_of, runner_run};

/// Whatever the server does, in whatever order, and however a client is fed and run: if it was fed a front of its
/// connection's stream, then its world at its frame is that of the server's journal, once it has its map, and it is
/// neither wrong nor out of step.
pub fn lockstep<W, E>()
    ensures in_step { (game : Game W E) (steps : List (Step E)) (calls : List (Call W E)) (later : List (Told W E))
        → stream game initial steps ≡ fed calls ++ later
        → IsInStep game (after game initial steps).journal (run game unfed calls) }
{}

/// The same of a client as a program runs it: with one world, the entries above its frame, and its last 128 words.
pub fn running_client<W, E>()
    // It does what the client of the theorem does, call for call, whoever wrote the stream that it is fed.
    ensures same { (game : Game W E) (calls : List (Call W E))
        → runner_of game (run game unfed calls) ≡ runner_run game RunnerJoining calls }
    // So where that one is in step with a journal, it is in step with it too;
    ensures carries { (game : Game W E) (journal : List E) (calls : List (Call W E))
        → IsInStep game journal (run game unfed calls) → IsRunnerInStep game journal (runner_run game RunnerJoining calls) }
    // and it is, with its server's.
    ensures in_step { (game : Game W E) (steps : List (Step E)) (calls : List (Call W E)) (later : List (Told W E))
        → stream game initial steps ≡ fed calls ++ later
        → IsRunnerInStep game (after game initial steps).journal (runner_run game RunnerJoining calls) }
{}
