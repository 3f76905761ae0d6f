//! Small games, computed to their ends: the theorem is not empty, and not blunt.

ghost use Rattle.std.specs.Prelude.{◌≡◌, List};
ghost use Rattle.tt_lockstep.specs.Game.{Game};
ghost use Rattle.tt_lockstep.specs.Server.{Server, Step, initial, stepped, stream, told};
ghost use Rattle.tt_lockstep.specs.Client.{Call};
ghost use Rattle.tt_lockstep.specs.Runner.{Runner, runner_run};
ghost use Rattle.tt_lockstep.specs.Example.{OutOfStep, Ran, ToldWrong, ending, small, small_steps, small_stream};
ghost use Rattle.tt_lockstep.specs.Wrong.{applies_at_once, drops_stamped, ending_under, ending_with, keeps_test_runs};
ghost use Rattle.tt_lockstep.specs.Wrong.{misses_stamped, ruled_run, ruled_stepped, ruled_told, runs_past_permitted};
ghost use Rattle.tt_lockstep.specs.Wrong.{small_by_one, stamps_next_frame, stamps_permitted_frame, tells_above_own_frame};
ghost use Rattle.tt_lockstep.specs.Wrong.{tells_later_map, tells_whole_journal, tells_word_before, tick_steps};
ghost use Rattle.tt_lockstep.specs.Wrong.{true_client_rules, true_rules};

/// The theorem is not empty: a small game with one connection, computed to its end.
pub fn small_game()
    // What the connection is told, thing by thing.
    ensures told { stream small initial small_steps ≡ small_stream }
    // Its client runs to frame 9, and has there the world that the journal has.
    ensures client { ending small small_steps ≡ Ran 9 1903 1903 }
{}

/// The theorem is not blunt: the same small game, with servers that differ from the true one in a single rule.
/// The client of the true server comes out in step; that of each wrong one is out of step, or was told what is wrong.
pub fn wrong_servers()
    ensures true_server { ending small small_steps ≡ Ran 9 1903 1903 }
    // A joiner is not told the entries that are stamped and were not run: one of the two for frame 7 is missing.
    ensures misses_stamped { ending_under small (misses_stamped small) small_steps ≡ OutOfStep 7 461 475 }
    // A joiner is told the whole journal: it is told an entry that is in its map.
    ensures tells_whole_journal { ending_under small (tells_whole_journal small) small_steps ≡ ToldWrong }
    // A joiner is told the entries above the server's frame alone: the one for frame 4 is missing.
    ensures tells_above_own_frame { ending_under small (tells_above_own_frame small) small_steps ≡ OutOfStep 4 47 55 }
    // An entry is stamped for the next frame, to which a client may have run.
    ensures stamps_next_frame { ending_under small (stamps_next_frame small) small_steps ≡ ToldWrong }
    // An entry is stamped for the permitted frame.
    ensures stamps_permitted_frame { ending_under small (stamps_permitted_frame small) small_steps ≡ ToldWrong }
    // The word is that of the world before the frame.
    ensures tells_word_before { ending_under small (tells_word_before small) small_steps ≡ OutOfStep 4 55 23 }
    // The map is that of a later frame than its own.
    ensures tells_later_map { ending_under small (tells_later_map small) small_steps ≡ OutOfStep 4 103 55 }
    // Entries that were only tried have changed the server's world.
    ensures keeps_test_runs { ending_under small (keeps_test_runs small) small_steps ≡ OutOfStep 4 55 62 }
    // When another client leaves, an entry is dropped that was stamped and told.
    ensures drops_stamped { ending_under small (drops_stamped small) small_steps ≡ OutOfStep 7 475 461 }
    // FRAME is told before the commands of its tick: they are for the frame that it permits.
    ensures true_tick { ending small_by_one tick_steps ≡ Ran 2 11 11 }
    ensures frame_told_first { ending_under small_by_one (stamps_permitted_frame small_by_one) tick_steps ≡ ToldWrong }
{}

/// And with the true server, clients that differ from the true one in a single rule.
pub fn wrong_clients()
    ensures true_client { ending_with small (true_client_rules small) small_steps ≡ Ran 9 1903 1903 }
    // A client runs one frame past the permitted one, and so before the last entry for that frame has come.
    ensures runs_past_permitted { ending_with small (runs_past_permitted small) small_steps ≡ OutOfStep 7 461 475 }
    // A client applies an entry when it comes, and not at its frame.
    ensures applies_at_once { ending_with small (applies_at_once small) small_steps ≡ OutOfStep 4 135 55 }
{}

/// The wrong servers and clients are apart from the true ones by their rule alone: by the true rules, a server and a
/// client are the true ones.
pub fn one_rule_apart<W, E>()
    ensures stepped { (game : Game W E) (server : Server E) (step : Step E)
        → ruled_stepped game (true_rules game) server step ≡ stepped game server step }
    ensures told { (game : Game W E) (server : Server E) (step : Step E)
        → ruled_told game (true_rules game) server step ≡ told game server step }
    ensures run { (game : Game W E) (runner : Runner W E) (calls : List (Call W E))
        → ruled_run game (true_client_rules game) runner calls ≡ runner_run game runner calls }
{}
