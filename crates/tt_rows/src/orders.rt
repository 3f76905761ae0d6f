//! What was accepted, what the server ordered, and which events are a history.
//! This function does nothing: its contract is what they are of a few lists of events.
ghost use Rattle.std.specs.Prelude.{◌≡◌, [], ◌∷◌, codes};
ghost use Rattle.tt_world.specs.declared.command.Code.TheVariants.{IncreaseLoan, NewCompany, Pause, PlaceSign};
ghost use Rattle.tt_log.specs.History.{IsHistory};
ghost use Rattle.tt_log.specs.Stamps.{accepted, ordered};
ghost use Rattle.tt_rows.specs.AdminWords.{admin_game, admin_game_with};
ghost use Rattle.tt_rows.specs.OrdersGames.{a_history, after_the_end, command, named_too_early, named_too_late};
ghost use Rattle.tt_rows.specs.OrdersGames.{orders_of_the_server, orders_of_two};
ghost use Rattle.tt_rows.specs.Words.{plain_game};

/// Commands count as accepted once each, by connection and in order; the server's own count as they are ordered.
pub fn orders_come_to()
    ensures accepted_of_one { accepted (admin_game_with 1) orders_of_two 1
        ≡ (0, command IncreaseLoan 10000 []) ∷ (0, command PlaceSign 7 (codes "a")) ∷ (0, command IncreaseLoan 1 []) ∷ [] }
    ensures accepted_of_another { accepted (admin_game_with 1) orders_of_two 2 ≡ (0, command IncreaseLoan 20000 []) ∷ [] }
    ensures accepted_of_nobody { accepted (admin_game_with 1) orders_of_two 3 ≡ [] }
    ensures none_ordered { ordered (admin_game_with 1) orders_of_two ≡ [] }
    ensures ordered { ordered admin_game orders_of_the_server
        ≡ command NewCompany 2 [] ∷ command Pause 1 [] ∷ command Pause 0 [] ∷ [] }
    ensures history { IsHistory plain_game a_history }
    ensures too_early { IsHistory plain_game named_too_early → ⊥ }
    ensures too_late { IsHistory plain_game named_too_late → ⊥ }
    ensures after_the_end { IsHistory plain_game after_the_end → ⊥ }
{}
