//! A week from the start: 518 ticks.
//! This function does nothing: its contract is the games.
ghost use Rattle.std.specs.Prelude.{◌≡◌};
ghost use Rattle.tt_rows.specs.Games.{ComesTo, world_of_game};
ghost use Rattle.tt_rows.specs.AdminWeekGames.{news_of_a_week};

/// A weekly type is told on day 7 and on no day before.
pub fn admin_week_come_to()
    ensures news_of_a_week { ComesTo news_of_a_week }
    ensures day { (world_of_game news_of_a_week).day ≡ 7 }
{}
