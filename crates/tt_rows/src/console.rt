//! The console: each command, what it answers and what it does.
//! This function does nothing: its contract is the games.
ghost use Rattle.std.specs.Prelude.{◌≡◌, [], true, false};
ghost use Rattle.tt_rows.specs.Games.{ComesTo, world_of_game};
ghost use Rattle.tt_rows.specs.ConsoleGames.{goes_on_again, kick_is_spelled, kicks, kicks_nobody, kicks_the_downloader};
ghost use Rattle.tt_rows.specs.ConsoleGames.{kicks_the_unwelcomed, lists_clients, lists_companies, lists_no_companies, pauses};
ghost use Rattle.tt_rows.specs.ConsoleGames.{quit_at_both_doors, quits_before_joining, quits_the_game, says_to_all};
ghost use Rattle.tt_rows.specs.ConsoleGames.{stop_at_both_doors, unknown_lines};
ghost use Rattle.tt_rows.specs.Words.{world};

/// A line of the console is answered, and then done.
pub fn console_lines_come_to()
    ensures pauses { ComesTo pauses }
    ensures pauses_world { world_of_game pauses ≡ world (4263798957, 4294967295) 0 1 true [] [] }
    ensures goes_on_again { ComesTo goes_on_again }
    ensures goes_on_again_world { world_of_game goes_on_again ≡ world (1, 3217329428) 0 2 false [] [] }
    ensures kicks { ComesTo kicks }
    ensures kicks_the_unwelcomed { ComesTo kicks_the_unwelcomed }
    ensures kicks_the_downloader { ComesTo kicks_the_downloader }
    ensures kicks_nobody { ComesTo kicks_nobody }
    ensures kick_is_spelled { ComesTo kick_is_spelled }
    ensures says_to_all { ComesTo says_to_all }
    ensures unknown_lines { ComesTo unknown_lines }
    ensures lists_clients { ComesTo lists_clients }
    ensures lists_companies { ComesTo lists_companies }
    ensures lists_no_companies { ComesTo lists_no_companies }
    ensures quits_the_game { ComesTo quits_the_game }
    ensures quits_before_joining { ComesTo quits_before_joining }
    ensures quit_at_both_doors { ComesTo quit_at_both_doors }
    ensures stop_at_both_doors { ComesTo stop_at_both_doors }
{}
