//! Limits of time and cost that the first games leave out. This function does nothing: its contract is the games.
ghost use Rattle.tt_rows.specs.Games.{ComesTo};
ghost use Rattle.tt_rows.specs.LastingGames.{acknowledged_twice, company_password_in_time, catches_up_in_time};
ghost use Rattle.tt_rows.specs.LastingGames.{acknowledging_is_no_joining, ticks_cost_nothing};

/// What each limit counts from, and that it is passed only behind its last frame.
pub fn limits_come_to()
    ensures acknowledged_twice { ComesTo acknowledged_twice }
    ensures company_password_in_time { ComesTo company_password_in_time }
    ensures catches_up_in_time { ComesTo catches_up_in_time }
    ensures acknowledging_is_no_joining { ComesTo acknowledging_is_no_joining }
    ensures ticks_cost_nothing { ComesTo ticks_cost_nothing }
{}
