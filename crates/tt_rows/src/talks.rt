//! Chats, names, passwords, moves and ends. This function does nothing: its contract is the games.
ghost use Rattle.std.specs.Prelude.{◌≡◌, [], ◌∷◌, take, true, false, pos, codes};
ghost use Rattle.tt_edge.specs.declared.event.Event.TheVariants.{Stop};
ghost use Rattle.tt_log.specs.Events.{deed};
ghost use Rattle.tt_log.specs.History.{table_of, world_behind};
ghost use Rattle.tt_rows.specs.Words.{ends_in, company, world};
ghost use Rattle.tt_rows.specs.Games.{ComesTo};
ghost use Rattle.tt_rows.specs.TalksGames.{chats, renamed, company_password, moves, stopped, cost_reached, quits_and_errors, cost_met};

/// What chats, names, passwords, moves and ends come to.
pub fn talks_come_to()
    ensures chats { ComesTo chats }
    ensures renamed { ComesTo renamed }
    ensures company_password { ComesTo company_password }
    ensures moves { ComesTo moves }
    ensures stopped { ComesTo stopped }
    ensures cost_reached { ComesTo cost_reached }
    ensures quits_and_errors { ComesTo quits_and_errors }
    ensures cost_met { ComesTo cost_met }
    ensures chats_world { world_behind chats.origin chats.events
        ≡ world (3613123000, 536870911) 0 3 false ((0, company (pos 100000) 100000 (codes "Company 1") (codes "President"))
        ∷ (1, company (pos 100000) 100000 (codes "Company 2") (codes "President")) ∷ []) [] }
    ensures renamed_world { world_behind renamed.origin renamed.events
        ≡ world (3613123000, 536870911) 0 3 false ((0, company (pos 100000) 100000 (codes "Company 1") (codes "President"))
        ∷ (1, company (pos 100000) 100000 (codes "Company 2") (codes "President")) ∷ []) [] }
    ensures company_password_world { world_behind company_password.origin company_password.events
        ≡ world (1, 3217329428) 0 2 false ((0, company (pos 100000) 100000 (codes "Company 1") (codes "President")) ∷ []) [] }
    ensures moves_world { world_behind moves.origin moves.events
        ≡ world (3614931212, 451640374) 0 4 false ((0, company (pos 100000) 100000 (codes "Company 1") (codes "President")) ∷ []) [] }
    ensures stopped_world { world_behind stopped.origin stopped.events
        ≡ world (3613123000, 536870911) 0 3 false ((0, company (pos 100000) 100000 (codes "Company 1") (codes "President"))
        ∷ (1, company (pos 100000) 100000 (codes "Company 2") (codes "President")) ∷ []) [] }
    ensures stopped_ends { ends_in (deed stopped.origin Stop (table_of stopped.origin (take 13 stopped.events))).told ≡ 1 ∷ 2 ∷ [] }
    ensures cost_reached_world { world_behind cost_reached.origin cost_reached.events ≡ world (0, 0) 0 0 false [] [] }
    ensures quits_and_errors_world { world_behind quits_and_errors.origin quits_and_errors.events
        ≡ world (3613123000, 536870911) 0 3 false [] [] }
    ensures cost_met_over { (table_of cost_met.origin cost_met.events).over ≡ true }
{}
