//! Tokens. This function does nothing: its contract is the games.
ghost use Rattle.tt_rows.specs.Games.{ComesTo};
ghost use Rattle.tt_rows.specs.TokensGames.{given_back, another_token, twice_given_back, none_given_back, late_given_back};
ghost use Rattle.tt_rows.specs.TokensGames.{wrong_frame_first, open_for_long, open_for_the_lag};

/// A token shows that its stream is read: it is given back once, in time, or its member ends.
pub fn tokens_come_to()
    ensures given_back { ComesTo given_back }
    ensures another_token { ComesTo another_token }
    ensures twice_given_back { ComesTo twice_given_back }
    ensures none_given_back { ComesTo none_given_back }
    ensures late_given_back { ComesTo late_given_back }
    ensures wrong_frame_first { ComesTo wrong_frame_first }
    ensures open_for_long { ComesTo open_for_long }
    ensures open_for_the_lag { ComesTo open_for_the_lag }
{}
