//! Two lists of events side by side: what a player is told with an admin present, and without.
//! This function does nothing: its contract is the games.
ghost use Rattle.std.specs.Prelude.{◌≡◌};
ghost use Rattle.tt_log.specs.Told.{sent};
ghost use Rattle.tt_rows.specs.Games.{ComesTo};
ghost use Rattle.tt_rows.specs.AsideGames.{by_its_cost, console_ends_it, told_at_both_doors, with_admins, without_admins};

/// Admins change nothing that a player is told.
pub fn side_by_side_come_to()
    ensures without_admins { ComesTo without_admins }
    ensures with_admins { ComesTo with_admins }
    ensures same_told { sent with_admins.origin with_admins.events 1 ≡ sent without_admins.origin without_admins.events 1 }
    ensures console_ends_it { ComesTo console_ends_it }
    ensures told_at_both_doors { ComesTo told_at_both_doors }
    ensures by_its_cost { ComesTo by_its_cost }
{}
