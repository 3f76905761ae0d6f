//! What admins ask for: which types and bits they may, and what they are answered.
//! This function does nothing: its contract is the games.
ghost use Rattle.tt_rows.specs.Games.{ComesTo};
ghost use Rattle.tt_rows.specs.AdminPollsGames.{all_bits_allowed, asks_for_clients, asks_for_companies, asks_for_money};
ghost use Rattle.tt_rows.specs.AdminPollsGames.{asks_for_names, asks_for_signs, asks_for_the_day, polls_not_allowed};
ghost use Rattle.tt_rows.specs.AdminPollsGames.{updates_not_allowed};

/// An admin is told what it asks for, of all or of one.
pub fn admin_polls_come_to()
    ensures updates_not_allowed { ComesTo updates_not_allowed }
    ensures all_bits_allowed { ComesTo all_bits_allowed }
    ensures polls_not_allowed { ComesTo polls_not_allowed }
    ensures asks_for_the_day { ComesTo asks_for_the_day }
    ensures asks_for_clients { ComesTo asks_for_clients }
    ensures asks_for_companies { ComesTo asks_for_companies }
    ensures asks_for_money { ComesTo asks_for_money }
    ensures asks_for_signs { ComesTo asks_for_signs }
    ensures asks_for_names { ComesTo asks_for_names }
{}
