//! The side door: how an admin joins, and what is refused before and after it.
//! This function does nothing: its contract is the games.
ghost use Rattle.tt_rows.specs.Games.{ComesTo};
ghost use Rattle.tt_rows.specs.AdminJoinsGames.{another_password, before_joining, doors_apart, greeted_and_answered};
ghost use Rattle.tt_rows.specs.AdminJoinsGames.{greeted_elsewhere, joins_twice, just_in_time, leaves, names_wanted};
ghost use Rattle.tt_rows.specs.AdminJoinsGames.{no_password_set, packets_of_servers, sixteen_aside, slow_to_join, spells_nothing};
ghost use Rattle.tt_rows.specs.AdminJoinsGames.{streams_break};

/// An admin joins with the password of admins, once, and in time.
pub fn admin_joins_come_to()
    ensures greeted_and_answered { ComesTo greeted_and_answered }
    ensures joins_twice { ComesTo joins_twice }
    ensures names_wanted { ComesTo names_wanted }
    ensures no_password_set { ComesTo no_password_set }
    ensures another_password { ComesTo another_password }
    ensures before_joining { ComesTo before_joining }
    ensures leaves { ComesTo leaves }
    ensures packets_of_servers { ComesTo packets_of_servers }
    ensures spells_nothing { ComesTo spells_nothing }
    ensures streams_break { ComesTo streams_break }
    ensures sixteen_aside { ComesTo sixteen_aside }
    ensures slow_to_join { ComesTo slow_to_join }
    ensures just_in_time { ComesTo just_in_time }
    ensures greeted_elsewhere { ComesTo greeted_elsewhere }
    ensures doors_apart { ComesTo doors_apart }
{}
