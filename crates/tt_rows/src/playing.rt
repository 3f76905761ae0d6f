//! What those that play do, where the first games leave it out. This function does nothing: its contract is the games.
ghost use Rattle.tt_rows.specs.Games.{ComesTo};
ghost use Rattle.tt_rows.specs.PlayingGames.{moves_and_digests, sync_each_frame, stamps_in_order, stamped_as_accepted};
ghost use Rattle.tt_rows.specs.PlayingGames.{sixteen_may_wait, no_company_to_lock, chats_of_companies, told_before_active};

/// What commands, moves, chats and stamps come to where several members meet.
pub fn plays_come_to()
    ensures moves_and_digests { ComesTo moves_and_digests }
    ensures sync_each_frame { ComesTo sync_each_frame }
    ensures stamps_in_order { ComesTo stamps_in_order }
    ensures stamped_as_accepted { ComesTo stamped_as_accepted }
    ensures sixteen_may_wait { ComesTo sixteen_may_wait }
    ensures no_company_to_lock { ComesTo no_company_to_lock }
    ensures chats_of_companies { ComesTo chats_of_companies }
    ensures told_before_active { ComesTo told_before_active }
{}
