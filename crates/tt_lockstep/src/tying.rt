//! How a real server is tied to the server of the theorem, piece by piece.

ghost use Rattle.std.specs.Prelude.{◌≡◌, ◌≤◌, ◌<◌, ◌+◌, ◌++◌, ℕ, suc, List, []};
ghost use Rattle.std.specs.List.{AllByRecursion, flat_map};
ghost use Rattle.tt_lockstep.specs.Game.{Game};
ghost use Rattle.tt_lockstep.specs.Told.{Told, Frame};
ghost use Rattle.tt_lockstep.specs.Server.{Server, Step, if_playing, initial, stepped, told};
ghost use Rattle.tt_lockstep.specs.Client.{Call, fed, run, unfed};
ghost use Rattle.tt_lockstep.specs.InStep.{IsInStep};
ghost use Rattle.tt_lockstep.specs.Leads.{AreStamped, Leads, entries_if_playing};
ghost use Rattle.tt_lockstep.specs.Dialog.{Dialog, things};
ghost use Rattle.tt_lockstep.specs.Wire.{IsReadBack, PieceCall, Wire, calls_of, fed_bytes};

/// The ways from one server to another, and what comes of a way from the start.
pub fn ways<W, E>()
    // Nothing is a way; a step is one; and one way goes on behind another.
    ensures none { (game : Game W E) (server : Server E) → Leads game server [] server }
    ensures step { (game : Game W E) (server : Server E) (step : Step E)
        → Leads game server (told game server step) (stepped game server step) }
    ensures on { (game : Game W E) (a b c : Server E) (xs ys : List (Told W E))
        → Leads game a xs b → Leads game b ys c → Leads game a (xs ++ ys) c }
    // All the stamps of a tick at once.
    ensures stamps { (game : Game W E) (server : Server E) (es : List E) → AreStamped game server.permitted es
        → Leads game server (entries_if_playing game server.stage es) (record server { journal = server.journal ++ es }) }
    // A frame up to the permitted one, and one above it.
    ensures run { (game : Game W E) (server : Server E) → suc server.frame ≤ server.permitted
        → Leads game server [] (record server { frame = suc server.frame }) }
    ensures frame { (game : Game W E) (server : Server E) → server.permitted < suc server.frame
        → Leads game server (if_playing server.stage (Frame (suc server.frame) (suc server.frame + game.lead)))
        (record server { frame = suc server.frame; permitted = suc server.frame + game.lead }) }
    // The theorem, for a server to which a way leads from the start.
    ensures in_step { (game : Game W E) (server : Server E) (ts : List (Told W E)) (calls : List (Call W E)) (later : List (Told W E))
        → Leads game initial ts server → ts ≡ fed calls ++ later
        → IsInStep game server.journal (run game unfed calls) }
{}

/// The theorem over bytes. A way leads from the start to the server, telling what its messages tell; each message is read
/// back from its spelling; and the client was fed a front of all spellings, in whatever pieces. Then it is in step.
pub fn however_cut<W, E, D, M, S>()
    ensures in_step { (game : Game W E) (dialog : Dialog D M W E) (wire : Wire S M) (server : Server E)
        (ms : List M) (calls : List PieceCall) (later : List ℕ)
        → Leads game initial (things dialog dialog.first ms) server
        → AllByRecursion (λ m. IsReadBack wire m) ms
        → flat_map wire.spelled ms ≡ fed_bytes calls ++ later
        → IsInStep game server.journal (run game unfed (calls_of wire dialog wire.empty dialog.first calls)) }
{}
