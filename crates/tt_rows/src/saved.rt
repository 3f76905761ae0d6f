//! Saved games. This function does nothing: its contract is the games.
ghost use Rattle.std.specs.Prelude.{◌≡◌, [], ◌∷◌, codes, false, pos};
ghost use Rattle.tt_rows.specs.Games.{ComesTo, world_of_game};
ghost use Rattle.tt_rows.specs.SavedGames.{goes_on, told_the_start};
ghost use Rattle.tt_rows.specs.Words.{company, world};

/// A game goes on from the world of a map, on its day.
pub fn saved_games_come_to()
    ensures goes_on { ComesTo goes_on }
    ensures world { world_of_game goes_on ≡ world (1, 3217329428) 30 0 false ((0, company (pos 249) 300000 (codes "A") (codes "B"))
        ∷ []) [] }
    ensures told_the_start { ComesTo told_the_start }
{}
