//! Streams, one by one. This function does nothing: its contract is what they show.
ghost use Rattle.std.specs.Prelude.{◌≡◌, [], ◌∷◌};
ghost use Rattle.tt_rows.specs.ShownGames.{seen_in};
ghost use Rattle.tt_rows.specs.StreamsGames.{Shows, anothers_name, game_password_without_id, company_password_without_id};
ghost use Rattle.tt_rows.specs.StreamsGames.{no_files, a_file, greatest_map, too_great_a_map, data_past_the_size};
ghost use Rattle.tt_rows.specs.StreamsGames.{done_before_the_size, no_map, full_in_the_game, wait_in_the_game, unknown_code};
ghost use Rattle.tt_rows.specs.StreamsGames.{frame_above_the_permitted, command_at_the_permitted_frame};
ghost use Rattle.tt_rows.specs.StreamsGames.{command_below_the_last, command_at_the_last, syncs_in, two_words};

/// Each message that is not permitted in its place is told by its first byte, and what may stand there goes on.
pub fn streams_show()
    ensures game_password_without_id { Shows game_password_without_id }
    ensures company_password_without_id { Shows company_password_without_id }
    ensures no_files { Shows no_files }
    ensures a_file { Shows a_file }
    ensures greatest_map { Shows greatest_map }
    ensures too_great_a_map { Shows too_great_a_map }
    ensures data_past_the_size { Shows data_past_the_size }
    ensures done_before_the_size { Shows done_before_the_size }
    ensures no_map { Shows no_map }
    ensures full_in_the_game { Shows full_in_the_game }
    ensures wait_in_the_game { Shows wait_in_the_game }
    ensures unknown_code { Shows unknown_code }
    ensures frame_above_the_permitted { Shows frame_above_the_permitted }
    ensures command_at_the_permitted_frame { Shows command_at_the_permitted_frame }
    ensures command_below_the_last { Shows command_below_the_last }
    ensures command_at_the_last { Shows command_at_the_last }
    ensures anothers_name { Shows anothers_name }
    // Another client's company is not this one's, and words are kept in the order in which they were told.
    ensures own_company { (seen_in anothers_name.bytes).company ≡ 255 }
    ensures words { syncs_in (seen_in two_words).seen ≡ record { frame = 1; word = 7; permitted = 2 }
        ∷ record { frame = 2; word = 9; permitted = 2 } ∷ [] }
{}
