//! What admins are told at once of chats, the console and commands; and what players are told of admins.
//! This function does nothing: its contract is the games.
ghost use Rattle.tt_rows.specs.Games.{ComesTo};
ghost use Rattle.tt_rows.specs.AdminTalksGames.{admins_chat, news_of_chats, news_of_commands, news_of_lines, news_of_own_chats};
ghost use Rattle.tt_rows.specs.AdminTalksGames.{no_news, scripts_and_other_chats};

/// Admins are told of chats, lines and commands as events come.
pub fn admin_talks_come_to()
    ensures news_of_chats { ComesTo news_of_chats }
    ensures news_of_own_chats { ComesTo news_of_own_chats }
    ensures admins_chat { ComesTo admins_chat }
    ensures news_of_lines { ComesTo news_of_lines }
    ensures news_of_commands { ComesTo news_of_commands }
    ensures no_news { ComesTo no_news }
    ensures scripts_and_other_chats { ComesTo scripts_and_other_chats }
{}
