//! Limits of time. This function does nothing: its contract is the games.
ghost use Rattle.std.specs.Prelude.{◌≡◌, [], false};
ghost use Rattle.tt_log.specs.History.{world_behind};
ghost use Rattle.tt_rows.specs.Words.{world};
ghost use Rattle.tt_rows.specs.Games.{ComesTo};
ghost use Rattle.tt_rows.specs.LimitsGames.{quiet_for_100_ticks, late_behind_101_ticks, limits_of_time, limits_of_map, lags};
ghost use Rattle.tt_rows.specs.LimitsGames.{acknowledged_in_time, bad_ack, late_acknowledgements};

/// What limits of time come to.
pub fn first_limits_come_to()
    ensures quiet_for_100_ticks { ComesTo quiet_for_100_ticks }
    ensures late_behind_101_ticks { ComesTo late_behind_101_ticks }
    ensures limits_of_time { ComesTo limits_of_time }
    ensures limits_of_map { ComesTo limits_of_map }
    ensures lags { ComesTo lags }
    ensures acknowledged_in_time { ComesTo acknowledged_in_time }
    ensures bad_ack { ComesTo bad_ack }
    ensures late_acknowledgements { ComesTo late_acknowledgements }
    ensures quiet_for_100_ticks_world { world_behind quiet_for_100_ticks.origin quiet_for_100_ticks.events
        ≡ world (4209934074, 3563899331) 1 26 false [] [] }
    ensures late_behind_101_ticks_world { world_behind late_behind_101_ticks.origin late_behind_101_ticks.events
        ≡ world (1954230330, 1599983582) 1 27 false [] [] }
    ensures limits_of_time_world { world_behind limits_of_time.origin limits_of_time.events ≡ world (681241812, 758195947) 0 6 false [] [] }
    ensures limits_of_map_world { world_behind limits_of_map.origin limits_of_map.events ≡ world (2881749840, 3631443386) 0 11 false [] [] }
    ensures lags_world { world_behind lags.origin lags.events ≡ world (507987406, 3391299317) 0 8 false [] [] }
    ensures acknowledged_in_time_world { world_behind acknowledged_in_time.origin acknowledged_in_time.events
        ≡ world (871855200, 3284723896) 0 9 false [] [] }
    ensures bad_ack_world { world_behind bad_ack.origin bad_ack.events ≡ world (3613123000, 536870911) 0 3 false [] [] }
    ensures late_acknowledgements_world { world_behind late_acknowledgements.origin late_acknowledgements.events
        ≡ world (581022216, 464774915) 1 3 false [] [] }
{}
