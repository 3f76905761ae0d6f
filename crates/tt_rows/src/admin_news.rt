//! What admins are told at once of clients and companies, where they have asked for it.
//! This function does nothing: its contract is the games.
ghost use Rattle.tt_rows.specs.Games.{ComesTo};
ghost use Rattle.tt_rows.specs.AdminNewsGames.{news_of_a_founder, news_of_a_locked_company, news_of_a_lost_founder};
ghost use Rattle.tt_rows.specs.AdminNewsGames.{news_of_a_name, news_of_a_password, news_of_a_quit, news_of_a_welcome};
ghost use Rattle.tt_rows.specs.AdminNewsGames.{news_of_an_entry, news_of_ends, news_of_moves, news_of_names, news_of_no_end};
ghost use Rattle.tt_rows.specs.AdminNewsGames.{news_of_one_founding};

/// Admins are told of clients and companies as events come.
pub fn admin_news_come_to()
    ensures news_of_a_welcome { ComesTo news_of_a_welcome }
    ensures news_of_an_entry { ComesTo news_of_an_entry }
    ensures news_of_a_name { ComesTo news_of_a_name }
    ensures news_of_moves { ComesTo news_of_moves }
    ensures news_of_a_founder { ComesTo news_of_a_founder }
    ensures news_of_a_quit { ComesTo news_of_a_quit }
    ensures news_of_ends { ComesTo news_of_ends }
    ensures news_of_no_end { ComesTo news_of_no_end }
    ensures news_of_names { ComesTo news_of_names }
    ensures news_of_a_locked_company { ComesTo news_of_a_locked_company }
    ensures news_of_a_lost_founder { ComesTo news_of_a_lost_founder }
    ensures news_of_a_password { ComesTo news_of_a_password }
    ensures news_of_one_founding { ComesTo news_of_one_founding }
{}
