//! What admins are told on days that begin, by the periods that they asked for.
//! This function does nothing: its contract is the games.
ghost use Rattle.tt_rows.specs.Games.{ComesTo};
ghost use Rattle.tt_rows.specs.AdminDaysGames.{a_tick_in_order, each_day, each_month, each_quarter, each_week, each_year};
ghost use Rattle.tt_rows.specs.AdminDaysGames.{gone_before_its_day, only_asked, paused_days, told_once, types_in_order};

/// On a day that begins admins are told of what they asked for by periods that divide it.
pub fn admin_days_come_to()
    ensures each_day { ComesTo each_day }
    ensures each_week { ComesTo each_week }
    ensures each_month { ComesTo each_month }
    ensures each_quarter { ComesTo each_quarter }
    ensures each_year { ComesTo each_year }
    ensures told_once { ComesTo told_once }
    ensures types_in_order { ComesTo types_in_order }
    ensures only_asked { ComesTo only_asked }
    ensures paused_days { ComesTo paused_days }
    ensures a_tick_in_order { ComesTo a_tick_in_order }
    ensures gone_before_its_day { ComesTo gone_before_its_day }
{}
