//! Commands and stamps. This function does nothing: its contract is the games.
ghost use Rattle.std.specs.Prelude.{◌≡◌, [], ◌∷◌, false, pos, codes};
ghost use Rattle.tt_log.specs.History.{world_behind};
ghost use Rattle.tt_rows.specs.Words.{company, sign, world};
ghost use Rattle.tt_rows.specs.Games.{ComesTo};
ghost use Rattle.tt_rows.specs.CommandsGames.{seventeen_commands, company_and_loan, other_company, sixteen_wait, two_founders};
ghost use Rattle.tt_rows.specs.CommandsGames.{gift_and_sign, three_stamped_in_two_ticks, ahead_of_time, sync_told, own_codes, a_day};

/// What commands and stamps come to.
pub fn commands_come_to()
    ensures seventeen_commands { ComesTo seventeen_commands }
    ensures company_and_loan { ComesTo company_and_loan }
    ensures other_company { ComesTo other_company }
    ensures sixteen_wait { ComesTo sixteen_wait }
    ensures two_founders { ComesTo two_founders }
    ensures gift_and_sign { ComesTo gift_and_sign }
    ensures three_stamped_in_two_ticks { ComesTo three_stamped_in_two_ticks }
    ensures ahead_of_time { ComesTo ahead_of_time }
    ensures sync_told { ComesTo sync_told }
    ensures own_codes { ComesTo own_codes }
    ensures a_day { ComesTo a_day }
    ensures seventeen_commands_world { world_behind seventeen_commands.origin seventeen_commands.events
        ≡ world (1, 3217329428) 0 2 false [] [] }
    ensures company_and_loan_world { world_behind company_and_loan.origin company_and_loan.events
        ≡ world (3613123000, 536870911) 0 3 false ((0, company (pos 110000) 110000 (codes "Company 1") (codes "President")) ∷ []) [] }
    ensures other_company_world { world_behind other_company.origin other_company.events
        ≡ world (3613123000, 536870911) 0 3 false ((0, company (pos 100000) 100000 (codes "Company 1") (codes "President")) ∷ []) [] }
    ensures sixteen_wait_world { world_behind sixteen_wait.origin sixteen_wait.events
        ≡ world (3613123000, 536870911) 0 3 false ((0, company (pos 100000) 100000 (codes "Company 1") (codes "President")) ∷ []) [] }
    ensures two_founders_world { world_behind two_founders.origin two_founders.events
        ≡ world (3613123000, 536870911) 0 3 false ((0, company (pos 100000) 100000 (codes "Company 1") (codes "President"))
        ∷ (1, company (pos 100000) 100000 (codes "Company 2") (codes "President")) ∷ []) [] }
    ensures gift_and_sign_world { world_behind gift_and_sign.origin gift_and_sign.events
        ≡ world (681241812, 758195947) 0 6 false ((0, company (pos 100000) 100000 (codes "Company 1") (codes "President"))
        ∷ (1, company (pos 90000) 90000 (codes "Rail") (codes "Eve")) ∷ []) (sign 0 0 77 (codes "Ho") ∷ []) }
    ensures three_stamped_in_two_ticks_world { world_behind three_stamped_in_two_ticks.origin three_stamped_in_two_ticks.events
        ≡ world (1770600289, 2599350048) 0 5 false ((0, company (pos 160000) 160000 (codes "Company 1") (codes "President"))
        ∷ (1, company (pos 100000) 100000 (codes "Company 2") (codes "President")) ∷ []) [] }
    ensures ahead_of_time_world { world_behind ahead_of_time.origin ahead_of_time.events
        ≡ world (4052806142, 2892817773) 0 14 false ((0, company (pos 110000) 110000 (codes "Company 1") (codes "President"))
        ∷ (1, company (pos 100000) 100000 (codes "Company 2") (codes "President")) ∷ []) [] }
    ensures sync_told_world { world_behind sync_told.origin sync_told.events ≡ world (681241812, 758195947) 0 6 false [] [] }
    ensures own_codes_world { world_behind own_codes.origin own_codes.events
        ≡ world (3614931212, 451640374) 0 4 false ((0, company (pos 100000) 100000 (codes "Company 1") (codes "President"))
        ∷ (1, company (pos 100000) 100000 (codes "Company 2") (codes "President")) ∷ []) [] }
    ensures a_day_world { world_behind a_day.origin a_day.events
        ≡ world (2157931576, 1937599719) 1 22 false ((0, company (pos 110747) 110000 (codes "Company 1") (codes "President")) ∷ []) [] }
{}
