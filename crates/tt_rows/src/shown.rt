//! What streams show a client. These functions do nothing: their contracts say what is shown.
ghost use Rattle.std.specs.Prelude.{◌≡◌, [], ◌∷◌, ◌++◌, codes};
ghost use Rattle.tt_log.specs.Told.{sent};
ghost use Rattle.tt_world.specs.declared.command.Code.TheVariants.{IncreaseLoan, NewCompany};
ghost use Rattle.tt_log.specs.Shown.{EndedWith, Joining, Loaded, ShutDown, WrongAt};
ghost use Rattle.tt_rows.specs.Words.{entry, hex};
ghost use Rattle.tt_rows.specs.JoinsGames.{whole_join};
ghost use Rattle.tt_rows.specs.CommandsGames.{company_and_loan, two_founders};
ghost use Rattle.tt_rows.specs.TalksGames.{moves, stopped};
ghost use Rattle.tt_rows.specs.ShownGames.{entries_in, frame_1, no_message, permitted_in, seen_in, welcome};

/// Each end is told apart from the others, and the first one stays.
pub fn shows_its_end()
    ensures nothing { (seen_in (hex (codes ""))).phase ≡ Joining }
    ensures full { (seen_in (hex (codes "030000"))).phase ≡ EndedWith 14 }
    ensures banned { (seen_in (hex (codes "030001"))).phase ≡ EndedWith 12 }
    ensures error { (seen_in (hex (codes "04000308"))).phase ≡ EndedWith 8 }
    ensures shutdown { (seen_in (hex (codes "030025"))).phase ≡ ShutDown }
    ensures first { (seen_in (hex (codes "04000308030025"))).phase ≡ EndedWith 8 }
{}

/// What is not permitted is told by its first byte: a message out of its place, a packet that spells nothing, a bad size.
pub fn shows_where_it_is_wrong()
    ensures message { (seen_in (welcome ++ frame_1)).phase ≡ WrongAt 14 }
    ensures malformed { (seen_in (welcome ++ no_message)).phase ≡ WrongAt 14 }
    ensures size { (seen_in (welcome ++ hex (codes "0200"))).phase ≡ WrongAt 14 }
    ensures second { (seen_in (welcome ++ frame_1 ++ no_message)).phase ≡ WrongAt 14 }
    ensures part { (seen_in (welcome ++ hex (codes "0c0015"))).phase ≡ Joining }
    // In the game: a permitted frame below the last one, behind the 135 bytes of a whole join.
    ensures falls { (seen_in (sent whole_join.origin whole_join.events 1 ++ frame_1)).phase ≡ WrongAt 135 }
{}

/// A client that has its map plays; it is in no company until one is named with its number.
pub fn shows_a_spectator()
    ensures phase { (seen_in (sent whole_join.origin whole_join.events 1)).phase ≡ Loaded }
    ensures client { (seen_in (sent whole_join.origin whole_join.events 1)).client ≡ 2 }
    ensures company { (seen_in (sent whole_join.origin whole_join.events 1)).company ≡ 255 }
    ensures permitted { permitted_in (seen_in (sent whole_join.origin whole_join.events 1)).seen ≡ 2 }
{}

/// A founder is shown its company by MOVE, and the commands of the journal.
pub fn shows_a_founder()
    ensures phase { (seen_in (sent company_and_loan.origin company_and_loan.events 1)).phase ≡ Loaded }
    ensures company { (seen_in (sent company_and_loan.origin company_and_loan.events 1)).company ≡ 0 }
    ensures entries { entries_in (seen_in (sent company_and_loan.origin company_and_loan.events 1)).seen
        ≡ entry 2 1 255 NewCompany 2 0 [] ∷ entry 3 2 0 IncreaseLoan 10000 0 [] ∷ [] }
{}

/// Of two founders each is shown its own company, and not the other one's.
pub fn shows_two_founders()
    ensures company_1 { (seen_in (sent two_founders.origin two_founders.events 1)).company ≡ 0 }
    ensures company_2 { (seen_in (sent two_founders.origin two_founders.events 2)).company ≡ 1 }
{}

/// A member that moves into a company and out of it is shown that it has none.
pub fn shows_moves()
    ensures company_1 { (seen_in (sent moves.origin moves.events 1)).company ≡ 0 }
    ensures company_3 { (seen_in (sent moves.origin moves.events 3)).company ≡ 255 }
{}

/// Behind the end of the game its last company stays.
pub fn shows_a_stop()
    ensures phase { (seen_in (sent stopped.origin stopped.events 1)).phase ≡ ShutDown }
    ensures company { (seen_in (sent stopped.origin stopped.events 1)).company ≡ 0 }
{}
