//! Maps in pieces. This function does nothing: its contract is the games.
ghost use Rattle.tt_rows.specs.Games.{ComesTo};
ghost use Rattle.tt_rows.specs.MapsGames.{six_pieces, four_whole_pieces, one_whole_piece, too_long_a_map, map_of_its_frame};

/// A map is told in pieces, that of its own frame, and in time.
pub fn maps_come_to()
    ensures six_pieces { ComesTo six_pieces }
    ensures four_whole_pieces { ComesTo four_whole_pieces }
    ensures one_whole_piece { ComesTo one_whole_piece }
    ensures too_long_a_map { ComesTo too_long_a_map }
    ensures map_of_its_frame { ComesTo map_of_its_frame }
{}
