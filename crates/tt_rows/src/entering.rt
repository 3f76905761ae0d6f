//! Ways into a game that the first games leave out. This function does nothing: its contract is the games.
ghost use Rattle.tt_rows.specs.Games.{ComesTo};
ghost use Rattle.tt_rows.specs.EnteringGames.{counts_of_a_game, three_want_one_name, an_unnamed_one_has_no_name};
ghost use Rattle.tt_rows.specs.EnteringGames.{a_waiting_one_leaves, no_number_is_free, both_passwords, shut_with_a_code};

/// What a join, a name, a password and a download come to where several members meet.
pub fn ways_in_come_to()
    ensures counts_of_a_game { ComesTo counts_of_a_game }
    ensures three_want_one_name { ComesTo three_want_one_name }
    ensures an_unnamed_one_has_no_name { ComesTo an_unnamed_one_has_no_name }
    ensures a_waiting_one_leaves { ComesTo a_waiting_one_leaves }
    ensures no_number_is_free { ComesTo no_number_is_free }
    ensures both_passwords { ComesTo both_passwords }
    ensures shut_with_a_code { ComesTo shut_with_a_code }
{}
