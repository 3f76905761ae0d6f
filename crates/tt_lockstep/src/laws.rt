//! What the lockstep theorem rests on, fact by fact: on worlds, on the server, on streams, and on the client.

ghost use Rattle.std.specs.Prelude.{◌≡◌, ◌≤◌, ◌<◌, ◌+◌, ◌++◌, ◌∷◌, ◌⊎◌, ℕ, suc, true, List, []};
ghost use Rattle.tt_lockstep.specs.Game.{Game};
ghost use Rattle.tt_lockstep.specs.Journal.{AreAbove, AreUpTo, IsJournal, above, applied_all, folded, of_frame, world_at};
ghost use Rattle.tt_lockstep.specs.Told.{Told, Sync};
ghost use Rattle.tt_lockstep.specs.Server.{Server, Step, after, initial, stream};
ghost use Rattle.tt_lockstep.specs.Shown.{Joining, Running, Shown, View, shown, world_of};
ghost use Rattle.tt_lockstep.specs.Client.{Call, Following, fed, is_recent, run, unfed};
ghost use Rattle.tt_lockstep.specs.InStep.{IsInStep};
ghost use Rattle.tt_lockstep.specs.Facts.{Agrees, Fits};

/// What holds of the worlds that a journal makes.
pub fn worlds<W, E>()
    // Entries above a frame change no world up to it.
    ensures stable { (game : Game W E) (f n : ℕ) (old more : List E)
        → AreAbove game n more → f ≤ n → world_at game (old ++ more) f ≡ world_at game old f }
    // A world may be taken up where it was left, and then the entries above it are enough.
    ensures goes_on { (game : Game W E) (s k : ℕ) (journal : List E)
        → world_at game journal (s + k) ≡ folded game (world_at game journal s) s (above game s journal) k }
    // The next world comes from the last one.
    ensures next { (game : Game W E) (journal : List E) (f : ℕ)
        → world_at game journal (suc f) ≡ game.framed (applied_all game (world_at game journal f) (of_frame game (suc f) journal)) }
{}

/// What every step of the server keeps.
pub fn server_facts<W, E>()
    // The permitted frame is never behind the frame, nor further ahead of it than the lead.
    ensures ahead { (game : Game W E) (steps : List (Step E)) → (after game initial steps).frame ≤ (after game initial steps).permitted }
    ensures near { (game : Game W E) (steps : List (Step E))
        → (after game initial steps).permitted ≤ (after game initial steps).frame + game.lead }
    // The frames of the journal do not fall, and are at most the one above the permitted frame.
    ensures rising { (game : Game W E) (steps : List (Step E)) → IsJournal game (after game initial steps).journal }
    ensures stamped { (game : Game W E) (steps : List (Step E))
        → AreUpTo game (suc (after game initial steps).permitted) (after game initial steps).journal }
    // The journal only grows, by entries above every frame that was permitted before.
    ensures grows { (game : Game W E) (server : Server E) (steps : List (Step E))
        → (more : List E) × ((after game server steps).journal ≡ server.journal ++ more) × AreAbove game server.permitted more }
    // What a connection was shown fits its stage: no entry before it plays, then exactly those above its map frame, in order.
    ensures fits { (game : Game W E) (steps : List (Step E))
        → Fits game (after game initial steps).journal (after game initial steps).frame (after game initial steps).permitted
        (after game initial steps).stage (shown game Joining (stream game initial steps)) }
{}

/// What holds of each front of a connection's stream.
pub fn stream_facts<W, E>()
    // It is permitted; and its map, its words and all entries up to its permitted frame are those of the final journal.
    ensures fronts { (game : Game W E) (steps : List (Step E)) (front later : List (Told W E))
        → stream game initial steps ≡ front ++ later
        → Agrees game (after game initial steps).journal (after game initial steps).permitted (shown game Joining front) }
    // No word comes too late to be compared: its frame is still to be run, or is not above the map frame, or was run recently.
    ensures compared { (game : Game W E) (steps : List (Step E)) (calls : List (Call W E)) (later : List (Told W E))
        (v : View W E) (f g w : ℕ)
        → game.lead < 128
        → stream game initial steps ≡ fed calls ++ Sync g w ∷ later
        → run game unfed calls ≡ Following (Running v) f
        → (f < g) ⊎ ((g ≤ v.map_frame) ⊎ (is_recent game v f g ≡ true)) }
{}

/// What holds of every client, whoever wrote the stream that it was fed.
pub fn client_facts<W, E>()
    // As long as it is not out of step, it has just what its stream shows.
    ensures follows { (game : Game W E) (calls : List (Call W E)) (h : Shown W E) (f : ℕ)
        → run game unfed calls ≡ Following h f → h ≡ shown game Joining (fed calls) }
    // It runs from its map frame on, and never past the permitted frame.
    ensures within { (game : Game W E) (calls : List (Call W E)) (v : View W E) (f : ℕ)
        → run game unfed calls ≡ Following (Running v) f → (v.map_frame ≤ f) × (f ≤ v.permitted) }
    // Where its stream agrees with a journal, it is in step with it.
    ensures agreeing { (game : Game W E) (journal : List E) (permitted : ℕ) (calls : List (Call W E))
        → Agrees game journal permitted (shown game Joining (fed calls)) → IsInStep game journal (run game unfed calls) }
{}

/// One running world is enough for a client, and of the entries those above its frame.
pub fn one_world<W, E>()
    // The next world comes from the one that it has.
    ensures next { (game : Game W E) (v : View W E) (f : ℕ) → v.map_frame ≤ f
        → world_of game v (suc f) ≡ game.framed (applied_all game (world_of game v f) (of_frame game (suc f) (above game f v.entries))) }
    // A new entry above its frame changes nothing of the world that it has.
    ensures entry { (game : Game W E) (v : View W E) (e : E) (last f : ℕ) → v.map_frame ≤ f → f < game.frame_of e
        → world_of game (record v { last_entry = last; entries = v.entries ++ e ∷ [] }) f ≡ world_of game v f }
{}
