//! Whatever packets, ticks and ends reach the game server, in whatever order, the client on each of its connections is in
//! step: the real table of `tt_log` is tied to the lockstep theorem of `tt_lockstep`.
//!
//! Each function is a theorem and has nothing to run: its clauses speak of every origin of a game, every list of events and
//! every connection. A proof that needs one calls the function.
#![tactic(auto)]

ghost use Rattle.std.specs.Prelude.{◌≡◌, ◌≤◌, ◌<◌, ◌+◌, ◌++◌, ◌∷◌, ◌⊎◌, ℕ, map, true, false, Some, List, []};
ghost use Rattle.std.specs.List.{AllByRecursion};
ghost use Rattle.tt_in_step.specs.Words.{Command, Entry, Event, Setup, World};
ghost use Rattle.tt_in_step.specs.Words.{AreBytes, CanBeTold, IsReadBack, MayBegin, ban, sync, tick};
ghost use Rattle.tt_lockstep.specs.Told.{Frame, Sync, Told};
ghost use Rattle.tt_lockstep.specs.Server.{initial};
ghost use Rattle.tt_lockstep.specs.Shown.{Joining, Running, View, WrongJoining, shown};
ghost use Rattle.tt_lockstep.specs.Client.{Call, Following, fed, is_recent, run, unfed};
ghost use Rattle.tt_lockstep.specs.InStep.{IsInStep};
ghost use Rattle.tt_lockstep.specs.Runner.{IsRunnerInStep, RunnerJoining, runner_run};
ghost use Rattle.tt_lockstep.specs.Facts.{Agrees, ViewAgrees};
ghost use Rattle.tt_lockstep.specs.Leads.{Leads};
ghost use Rattle.tt_lockstep.specs.Wire.{PieceCall, fed_bytes};
ghost use Rattle.tt_log.specs.Origin.{IsOrigin, Origin, above, at_frame, game_of, origin_of, world_at};
ghost use Rattle.tt_log.specs.Stamps.{accepted, ordered, owned, stamped_of};
ghost use Rattle.tt_log.specs.Saved.{IsSaved};
ghost use Rattle.tt_log.specs.Member.{Member, is_playing};
ghost use Rattle.tt_log.specs.Table.{member_of};
ghost use Rattle.tt_log.specs.History.{AreEvents, journal_of, table_of};
ghost use Rattle.tt_log.specs.Deed.{Said};
ghost use Rattle.tt_log.specs.Told.{sent, told};
ghost use Rattle.tt_log.specs.Shown.{items_in, things_in};
ghost use Rattle.tt_log.specs.Shown as book;
ghost use Rattle.tt_in_step.specs.Watched.{entries_in, things_told, watched};
ghost use Rattle.tt_in_step.specs.Ends.{AnyEnd, IsAt, IsRightPhase, IsRunnerAt};
ghost use Rattle.tt_in_step.specs.Fed.{IsPlayer, calls_of};
ghost use Rattle.tt_in_step.specs.Late.{late, late_events};
ghost use Rattle.tt_in_step.specs.Worked.{ahead, at_once, client_of, in_step_at, stands_at, two_clients};
ghost use Rattle.tt_in_step.specs.Wrong.{OutOfStepAt, StandsAt, ToldWrong, outcome, ruled_sent, true_rules};
ghost use Rattle.tt_in_step.specs.Wrong.{drops_stamped_commands, misses_stamped_commands, stamps_for_next_frame};
ghost use Rattle.tt_in_step.specs.Wrong.{tells_frame_first, tells_later_map, tells_whole_journal, tells_word_before};
ghost use Rattle.tt_in_step.specs.Wrong.{evening_ahead, evening_at_once, joins_late, leaves_early};

use tt_map::one_map;

/// There are steps of the abstract server, from the start on, behind which it has the frame, the permitted frame and the
/// journal of the table and the stage of the connection; and their stream is what the connection's messages tell.
pub fn table_is_tied()
    ensures leads { (o : Origin) (events : List Event) (conn : ℕ) → IsOrigin o → AreEvents events
        → Leads (game_of o) initial (things_told o events conn) (watched conn (table_of o events)) }
{
    one_map();
}

/// So a client that was fed any front of what its connection is told is in step with the journal: never out of step, never
/// wrong, and its world at its frame is that of the journal, once it has its map.
pub fn all_in_step()
    ensures in_step { (o : Origin) (events : List Event) (conn : ℕ) (calls : List (Call World Entry))
        (later : List (Told World Entry)) → IsOrigin o → AreEvents events
        → things_told o events conn ≡ fed calls ++ later
        → IsInStep (game_of o) (journal_of o events) (run (game_of o) unfed calls) }
    // The same of the client as a program runs it.
    ensures runs_in_step { (o : Origin) (events : List Event) (conn : ℕ) (calls : List (Call World Entry))
        (later : List (Told World Entry)) → IsOrigin o → AreEvents events
        → things_told o events conn ≡ fed calls ++ later
        → IsRunnerInStep (game_of o) (journal_of o events) (runner_run (game_of o) RunnerJoining calls) }
{
    one_map();
}

/// What a connection is told of entries.
pub fn entries_told()
    // A member that does not play yet was told none.
    ensures none { (o : Origin) (events : List Event) (conn : ℕ) (m : Member) → IsOrigin o → AreEvents events
        → member_of (table_of o events) conn ≡ Some m → is_playing m ≡ false → entries_in (things_told o events conn) ≡ [] }
    // One that plays was told exactly those above its map frame, in order.
    ensures all { (o : Origin) (events : List Event) (conn : ℕ) (m : Member) → IsOrigin o → AreEvents events
        → member_of (table_of o events) conn ≡ Some m → is_playing m ≡ true
        → entries_in (things_told o events conn) ≡ above o m.map_frame (journal_of o events) }
    // Before each FRAME stand all entries that the journal will ever have above the map frame and up to its maximum.
    ensures frames { (o : Origin) (events : List Event) (conn : ℕ) (front later : List (Told World Entry))
        (v : View World Entry) (f max g : ℕ) → IsOrigin o → AreEvents events
        → things_told o events conn ≡ front ++ Frame f max ∷ later → shown (game_of o) Joining front ≡ Running v
        → v.map_frame < g → g ≤ max → at_frame o g (entries_in front) ≡ at_frame o g (journal_of o events) }
{
    one_map();
}

/// What a connection is told of the words of worlds, whatever the event.
pub fn syncs_told()
    // A SYNC is told by the tick that makes its frame.
    ensures told_by_its_tick { (o : Origin) (events : List Event) (e : Event) (conn : ℕ) (front later : List Said) (g w : ℕ)
        → told o events e conn ≡ front ++ sync g w ∷ later → (e ≡ tick) × (g ≡ (table_of o (events ++ e ∷ [])).frame) }
    // Its word is that of the journal's world at that frame.
    ensures of_its_world { (o : Origin) (events : List Event) (e : Event) (conn : ℕ) (front later : List Said) (g w : ℕ)
        → told o events e conn ≡ front ++ sync g w ∷ later
        → w ≡ (world_at o (journal_of o (events ++ e ∷ [])) g).words.0 }
    // A member is on the connection that is told it, and the frame lies above its map frame.
    ensures above_the_map { (o : Origin) (events : List Event) (e : Event) (conn : ℕ) (front later : List Said) (g w : ℕ)
        → told o events e conn ≡ front ++ sync g w ∷ later
        → (m : Member) × (member_of (table_of o events) conn ≡ Some m) × (m.map_frame < g) }
{}

/// What each front of what a connection is told shows its client.
pub fn fronts_agree()
    // It is permitted; and its map is that of the journal's world at its map frame, each of its words that of the journal's
    // world at the word's frame, told while no client might run more than the lead beyond it.
    ensures agree { (o : Origin) (events : List Event) (conn : ℕ) (front later : List (Told World Entry))
        → IsOrigin o → AreEvents events → things_told o events conn ≡ front ++ later
        → Agrees (game_of o) (journal_of o events) (table_of o events).top (shown (game_of o) Joining front) }
    ensures view { (o : Origin) (events : List Event) (conn : ℕ) (front later : List (Told World Entry))
        (v : View World Entry) → IsOrigin o → AreEvents events → things_told o events conn ≡ front ++ later
        → shown (game_of o) Joining front ≡ Running v → ViewAgrees (game_of o) (journal_of o events) (table_of o events).top v }
    // No word comes too late to be compared.
    ensures compared { (o : Origin) (events : List Event) (conn : ℕ) (calls : List (Call World Entry))
        (later : List (Told World Entry)) (v : View World Entry) (f g w : ℕ) → IsOrigin o → AreEvents events
        → things_told o events conn ≡ fed calls ++ Sync g w ∷ later → run (game_of o) unfed calls ≡ Following (Running v) f
        → (f < g) ⊎ ((g ≤ v.map_frame) ⊎ (is_recent (game_of o) v f g ≡ true)) }
    // The map of each frame of the game is read back as its world.
    ensures map { (o : Origin) (events : List Event) (s : ℕ) → IsOrigin o → AreEvents events → s ≤ (table_of o events).frame
        → IsReadBack (world_at o (journal_of o events) s) }
{
    one_map();
}

/// The headline, over bytes. Whatever events come, a client on any connection of a player that was fed a front of the bytes
/// sent to it, in whatever pieces and with frames run between any two, is in step with the journal.
pub fn all_in_step_however_cut()
    ensures in_step { (o : Origin) (events : List Event) (conn : ℕ) (calls : List PieceCall) (later : List ℕ)
        → IsOrigin o → AreEvents events → IsPlayer events conn → AreBytes (fed_bytes calls)
        → sent o events conn ≡ fed_bytes calls ++ later
        → IsInStep (game_of o) (journal_of o events) (run (game_of o) unfed (calls_of calls)) }
    // The same of the client as a program runs it.
    ensures runs_in_step { (o : Origin) (events : List Event) (conn : ℕ) (calls : List PieceCall) (later : List ℕ)
        → IsOrigin o → AreEvents events → IsPlayer events conn → AreBytes (fed_bytes calls)
        → sent o events conn ≡ fed_bytes calls ++ later
        → IsRunnerInStep (game_of o) (journal_of o events) (runner_run (game_of o) RunnerJoining (calls_of calls)) }
    // Its calls feed just what the bytes tell, however they are cut.
    ensures fed { (o : Origin) (events : List Event) (conn : ℕ) (calls : List PieceCall) (later : List ℕ)
        → IsOrigin o → AreEvents events → IsPlayer events conn → AreBytes (fed_bytes calls)
        → sent o events conn ≡ fed_bytes calls ++ later
        → fed (calls_of calls) ≡ things_in (fed_bytes calls) }
    // It is joining, runs, or has ended by an end that stands in the bytes: an error with its code, that the server is full, or
    // that the game is over. So says the phase of what the bytes show.
    ensures phase { (o : Origin) (events : List Event) (conn : ℕ) (calls : List PieceCall) (later : List ℕ)
        → IsOrigin o → AreEvents events → IsPlayer events conn → AreBytes (fed_bytes calls)
        → sent o events conn ≡ fed_bytes calls ++ later
        → IsAt (run (game_of o) unfed (calls_of calls)) (book.shown o (fed_bytes calls)).phase (items_in (fed_bytes calls)) }
    ensures runs_phase { (o : Origin) (events : List Event) (conn : ℕ) (calls : List PieceCall) (later : List ℕ)
        → IsOrigin o → AreEvents events → IsPlayer events conn → AreBytes (fed_bytes calls)
        → sent o events conn ≡ fed_bytes calls ++ later
        → IsRunnerAt (runner_run (game_of o) RunnerJoining (calls_of calls)) (book.shown o (fed_bytes calls)).phase
        (items_in (fed_bytes calls)) }
{
    one_map();
}

/// Nobody is told that it is banned, whatever the event: a ban is a message of the protocol that this server never sends.
pub fn nobody_is_told_a_ban()
    ensures never { (o : Origin) (events : List Event) (e : Event) (conn : ℕ) (front later : List Said)
        → told o events e conn ≡ front ++ ban ∷ later → ⊥ }
{}

/// What a front of the bytes sent to a player shows its client.
pub fn fronts_show()
    // The things that it tells are the first of those that all messages tell.
    ensures tells { (o : Origin) (events : List Event) (conn : ℕ) (bytes later : List ℕ)
        → IsOrigin o → AreEvents events → IsPlayer events conn → AreBytes bytes
        → sent o events conn ≡ bytes ++ later
        → (more : List (Told World Entry)) × (things_told o events conn ≡ things_in bytes ++ more) }
    // It agrees with the journal: its map, its words, and all entries up to its permitted frame.
    ensures shows { (o : Origin) (events : List Event) (conn : ℕ) (bytes later : List ℕ)
        → IsOrigin o → AreEvents events → IsPlayer events conn → AreBytes bytes
        → sent o events conn ≡ bytes ++ later
        → Agrees (game_of o) (journal_of o events) (table_of o events).top (book.shown o bytes).seen }
    // It is never wrong: no bad size stands in it, no packet that spells nothing, and none that is not permitted where it stands.
    ensures right { (o : Origin) (events : List Event) (conn : ℕ) (bytes later : List ℕ) (at : ℕ)
        → IsOrigin o → AreEvents events → IsPlayer events conn → AreBytes bytes
        → sent o events conn ≡ bytes ++ later
        → (book.shown o bytes).phase ≡ book.WrongAt at → ⊥ }
    // It shows that its client is joining, is in the game, was ended with the code of an error that stands in it, was ended as
    // the server is full, where it says so, or that the game is over, where it says that. It shows nothing else.
    ensures ends { (o : Origin) (events : List Event) (conn : ℕ) (bytes later : List ℕ)
        → IsOrigin o → AreEvents events → IsPlayer events conn → AreBytes bytes
        → sent o events conn ≡ bytes ++ later
        → IsRightPhase (book.shown o bytes).phase (items_in bytes) }
    // What any stream shows of an end stands in it, whoever wrote it: a ban may be among them.
    ensures any_end { (o : Origin) (bytes : List ℕ) → AnyEnd (book.shown o bytes).phase (items_in bytes) }
{
    one_map();
}

/// Each command is stamped once, with the company for which it was allowed.
pub fn stamped_once()
    // While a player lives: what was accepted of its connection is, in order, what was stamped of it, and then what waits.
    ensures players { (o : Origin) (events : List Event) (conn : ℕ) (m : Member) → member_of (table_of o events) conn ≡ Some m
        → accepted o events conn ≡ stamped_of m.client (journal_of o events) ++ m.waiting }
    // Whatever comes after, also its end: what was stamped of it is a prefix of what was accepted of its connection.
    ensures fronts { (o : Origin) (events later : List Event) (conn : ℕ) (m : Member) → member_of (table_of o events) conn ≡ Some m
        → (rest : List (ℕ × Command)) × (accepted o (events ++ later) conn
        ≡ stamped_of m.client (journal_of o (events ++ later)) ++ rest) }
    // So for the server's own list: what it ordered is what was stamped of it, and then the commands that still wait.
    ensures servers { (o : Origin) (events : List Event)
        → map owned (ordered o events) ≡ stamped_of 1 (journal_of o events) ++ map owned (table_of o events).own }
    // Every sender is the server, or a client number that was given.
    ensures senders { (o : Origin) (events : List Event)
        → AllByRecursion (λ (e : Entry). e.sender ≤ (table_of o events).clients) (journal_of o events) }
{}

/// A game that begins anew, or from a saved map, is one of which all this holds.
pub fn every_game_may_begin()
    ensures anew { (setup : Setup) → MayBegin setup → IsOrigin (origin_of setup) }
    ensures saved { (setup : Setup) (bytes : List ℕ) (saved : IsSaved bytes) → MayBegin setup
        → IsOrigin (record { setup = setup; start = saved.world }) }
{}

/// Why a game starts no later than it may: on the last day that a map can tell, a map of the next day is refused, and an
/// honest client is wrong.
pub fn a_late_start_goes_wrong()
    ensures told { CanBeTold late.start }
    ensures wrong { (book.shown late (sent late late_events 1)).seen ≡ WrongJoining }
{}

/// Two games of two clients each, computed to the end of both: the second client joins in mid-stream, and each stands at the
/// permitted frame with the word of the journal's world and one entry.
pub fn two_games_are_in_step()
    ensures first { stands_at at_once (client_of at_once two_clients 1) ≡ in_step_at at_once two_clients 1 }
    ensures second { stands_at at_once (client_of at_once two_clients 2) ≡ in_step_at at_once two_clients 1 }
    ensures first_ahead { stands_at ahead (client_of ahead two_clients 1) ≡ in_step_at ahead two_clients 1 }
    ensures second_ahead { stands_at ahead (client_of ahead two_clients 2) ≡ in_step_at ahead two_clients 1 }
{}

/// The theorem is not blunt: servers whose rules are the true ones but for a single one, each on a small game. The client of
/// the true server comes to its permitted frame; that of each wrong one is out of step, or is told what is not permitted.
pub fn wrong_rules_go_wrong()
    // They are apart from the true server by their rule alone: by the true rules each connection is sent what it is sent.
    ensures true_rules { (o : Origin) (events : List Event) (conn : ℕ) → ruled_sent true_rules o events conn ≡ sent o events conn }
    // With the true rules the four clients below come to the end of their games.
    ensures true_joiner { outcome true_rules evening_ahead two_clients 2 ≡ StandsAt 8 }
    ensures true_late_joiner { outcome true_rules evening_at_once joins_late 2 ≡ StandsAt 5 }
    ensures true_first { outcome true_rules evening_at_once two_clients 1 ≡ StandsAt 6 }
    ensures true_stayer { outcome true_rules evening_ahead leaves_early 1 ≡ StandsAt 8 }
    // A joiner is not told the commands that are stamped and were not run: the company of frame 5 is missing.
    ensures joiner_misses_stamped_commands { outcome misses_stamped_commands evening_ahead two_clients 2 ≡ OutOfStepAt 5 }
    // A joiner is told the whole journal: it is told a command that is in its map.
    ensures joiner_told_whole_journal { outcome tells_whole_journal evening_at_once joins_late 2 ≡ ToldWrong }
    // A command is stamped for the next frame, to which a client may have run.
    ensures stamped_for_next_frame { outcome stamps_for_next_frame evening_ahead two_clients 1 ≡ ToldWrong }
    // FRAME is told before the commands of its tick: they are for the frame that it permits.
    ensures frame_told_before_commands { outcome tells_frame_first evening_at_once two_clients 1 ≡ ToldWrong }
    // The word is that of the world before the frame.
    ensures word_before_the_frame { outcome tells_word_before evening_ahead two_clients 1 ≡ OutOfStepAt 2 }
    // The map is that of the frame at which its bytes leave, and not of the one that it is said to be of.
    ensures map_of_a_later_frame { outcome tells_later_map evening_ahead two_clients 1 ≡ OutOfStepAt 2 }
    // Where another member leaves, a command is dropped that was stamped and told.
    ensures stamped_commands_dropped { outcome drops_stamped_commands evening_ahead leaves_early 1 ≡ OutOfStepAt 5 }
{}

#[cfg(test)]
mod tests;
