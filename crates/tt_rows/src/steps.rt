//! First steps of members. This function does nothing: its contract is the games.
ghost use Rattle.std.specs.Prelude.{◌≡◌, [], ◌∷◌, ◌++◌, true, false, codes, Some, take};
ghost use Rattle.tt_log.specs.Table.{is_live};
ghost use Rattle.tt_log.specs.History.{table_of};
ghost use Rattle.tt_rows.specs.Words.{has_loaded, name_on, pieces_on, plain_game};
ghost use Rattle.tt_rows.specs.Games.{ComesTo};
ghost use Rattle.tt_rows.specs.StepsGames.{welcomed_and_quiet, told_of_the_game, another_revision, another_grf_version};
ghost use Rattle.tt_rows.specs.StepsGames.{no_such_company, files_unasked, broken_behind_the_welcome, shut_untold};
ghost use Rattle.tt_rows.specs.StepsGames.{name_too_long_with_a_number, name_with_a_number, map_asked_for_twice};
ghost use Rattle.tt_rows.specs.StepsGames.{map_loaded_before_it_came, joins_twice, quits_at_once, name_judged_before_company};
ghost use Rattle.tt_rows.specs.StepsGames.{stranger_ends_unheard, chat_in_the_game, map_told_whole, map_told_in_two_ticks, signs_game};

/// What first steps of members come to.
pub fn first_steps_come_to()
    ensures welcomed_and_quiet { ComesTo welcomed_and_quiet }
    ensures told_of_the_game { ComesTo told_of_the_game }
    ensures another_revision { ComesTo another_revision }
    ensures another_grf_version { ComesTo another_grf_version }
    ensures no_such_company { ComesTo no_such_company }
    ensures files_unasked { ComesTo files_unasked }
    ensures broken_behind_the_welcome { ComesTo broken_behind_the_welcome }
    ensures shut_untold { ComesTo shut_untold }
    ensures name_too_long_with_a_number { ComesTo name_too_long_with_a_number }
    ensures name_with_a_number { ComesTo name_with_a_number }
    ensures map_asked_for_twice { ComesTo map_asked_for_twice }
    ensures map_loaded_before_it_came { ComesTo map_loaded_before_it_came }
    ensures joins_twice { ComesTo joins_twice }
    ensures quits_at_once { ComesTo quits_at_once }
    ensures name_judged_before_company { ComesTo name_judged_before_company }
    ensures stranger_ends_unheard { ComesTo stranger_ends_unheard }
    ensures chat_in_the_game { ComesTo chat_in_the_game }
    ensures name_with_a_number_name { name_on (table_of name_with_a_number.origin name_with_a_number.events) 2
        ≡ Some (codes "aaaaaaaaaaaaaaaaaaaaa #1") }
    ensures map_told_whole_before { pieces_on (table_of plain_game (take 3 map_told_whole)) 1 ≡ Some 0 }
    ensures map_told_whole_behind { pieces_on (table_of plain_game map_told_whole) 1 ≡ Some 1 }
    ensures map_told_in_two_ticks_first { pieces_on (table_of signs_game (take 4 map_told_in_two_ticks)) 1 ≡ Some 4 }
    ensures map_told_in_two_ticks_behind { pieces_on (table_of signs_game map_told_in_two_ticks) 1 ≡ Some 6 }
    ensures map_told_in_two_ticks_early { is_live (table_of signs_game (take 4 map_told_in_two_ticks ++ has_loaded 1 ∷ [])) 1 ≡ false }
    ensures map_told_in_two_ticks_loaded { is_live (table_of signs_game (map_told_in_two_ticks ++ has_loaded 1 ∷ [])) 1 ≡ true }
{}
