//! Attempts, way by way. What is wanted came from outside the definitions. These functions do nothing.
ghost use Rattle.std.specs.Prelude.{◌≡◌, [], ◌∷◌, true, false, codes};
ghost use Rattle.tt_attempts.specs.declared.attempt.Heard.TheVariants.{Failed, StunResult, Connected};
ghost use Rattle.tt_gc_rows.specs.Words.{plain, wayless, turned, without_stun, stun_alone, otherwise, lives, ended, outcome};
ghost use Rattle.tt_gc_rows.specs.AttemptsLists.{no_such_server, no_such_code, every_kind, all_ways_fail, addresses_fail};
ghost use Rattle.tt_gc_rows.specs.AttemptsLists.{addresses_fail_the_client, refused_by_the_server, without_the_second, second_alone};
ghost use Rattle.tt_gc_rows.specs.AttemptsLists.{turn_alone, no_way, another_turn_server, connected_in_time, strangers};
ghost use Rattle.tt_gc_rows.specs.AttemptsLists.{server_says_connected, of_itself, of_itself_by_stun, another_attempt};
ghost use Rattle.tt_gc_rows.specs.AttemptsLists.{connected_directly, connected_by_stun, connected_by_turn};

/// The code that is asked for names no server.
pub fn makes_no_such_server()
    ensures { outcome plain [] no_such_server ≡ record {
      connections = ended (codes "0c0000022b41414141414100" ∷ [])
          ∷ [];
      attempts = [];
      over = false;
    } }
{}

/// So is a text that is no code, and the code of a server that has ended; both are told again.
pub fn makes_no_such_code()
    ensures { outcome plain [] no_such_code ≡ record {
      connections = ended (codes "2d00022b395a44445646005333324135434158355755395a354255504b4c43475852394a575332325747480000" ∷ [])
          ∷ ended (codes "0a00000268656c6c6f00" ∷ [])
          ∷ ended (codes "0c0000022b395a4444564600" ∷ [])
          ∷ [];
      attempts = [];
      over = false;
    } }
{}

/// By its code a client is brought to a server of every kind.
pub fn makes_every_kind()
    ensures { outcome plain (codes "DANUE4V81" ∷ codes "A67GQCSG2" ∷ []) every_kind ≡ record {
      connections = lives (codes "2d00022b395a44445646005333324135434158355755395a354255504b4c43475852394a575332325747480000" ∷ [])
          ∷ lives (codes "2d00022b5950585944390039524c44525750343950514a3751523851595456374b57543951394a364b5a550000" ∷ [])
          ∷ lives (codes "15000744414e554534563831002b395a4444564600"
          ∷ codes "19000b44414e554534563831000131302e302e302e3100a10f"
          ∷ codes "150007413637475143534732002b59505859443900"
          ∷ codes "19000b413637475143534732000131302e302e302e3200a20f" ∷ [])
          ∷ [];
      attempts = record {
        ways = 1 ∷ [];
        heard = [];
      }
          ∷ record {
            ways = 1 ∷ [];
            heard = [];
          }
          ∷ [];
      over = false;
    } }
{}

/// All ways, each after the failure of the one before.
pub fn makes_all_ways_fail()
    ensures { outcome plain (codes "YPXYD99R1" ∷ []) all_ways_fail ≡ record {
      connections = lives (codes "2d00022b395a44445646005333324135434158355755395a354255504b4c43475852394a575332325747480000"
          ∷ codes "0d000c59505859443939523100"
          ∷ codes "1d00105950585944393952310003595058594439395231007475726e00" ∷ [])
          ∷ lives (codes "150007595058594439395231002b395a4444564600"
          ∷ codes "19000b595058594439395231000131302e302e302e31008b0f"
          ∷ codes "0d000c59505859443939523100"
          ∷ codes "1d00105950585944393952310003595058594439395231007475726e00"
          ∷ codes "0d000959505859443939523100" ∷ [])
          ∷ [];
      attempts = record {
        ways = 1 ∷ 2 ∷ 3 ∷ [];
        heard = Failed 1 ∷ StunResult 0 true ∷ StunResult 1 false ∷ StunResult 1 true ∷ Failed 3 ∷ [];
      }
          ∷ [];
      over = false;
    } }
{}

/// Once both are told where to connect the server, too, may say that STUN failed.
pub fn makes_addresses_fail()
    ensures { outcome plain (codes "YPXYD99R1" ∷ []) addresses_fail ≡ record {
      connections = lives (codes "2d00022b395a44445646005333324135434158355755395a354255504b4c43475852394a575332325747480000"
          ∷ codes "0d000c59505859443939523100"
          ∷ codes "1a000e59505859443939523100020031302e302e302e32007217"
          ∷ codes "1d00105950585944393952310003595058594439395231007475726e00" ∷ [])
          ∷ lives (codes "150007595058594439395231002b395a4444564600"
          ∷ codes "19000b595058594439395231000131302e302e302e31008b0f"
          ∷ codes "0d000c59505859443939523100"
          ∷ codes "1a000e59505859443939523100020131302e302e302e31007117"
          ∷ codes "1d00105950585944393952310003595058594439395231007475726e00"
          ∷ codes "0d000959505859443939523100" ∷ [])
          ∷ [];
      attempts = record {
        ways = 1 ∷ 2 ∷ 3 ∷ [];
        heard = Failed 1 ∷ Failed 2 ∷ StunResult 1 true ∷ StunResult 0 true ∷ Failed 2 ∷ Failed 3 ∷ [];
      }
          ∷ [];
      over = false;
    } }
{}

/// And so may the client.
pub fn makes_addresses_fail_the_client()
    ensures { outcome plain (codes "YPXYD99R1" ∷ []) addresses_fail_the_client ≡ record {
      connections = lives (codes "2d00022b395a44445646005333324135434158355755395a354255504b4c43475852394a575332325747480000"
          ∷ codes "0d000c59505859443939523100"
          ∷ codes "1a000e59505859443939523100020031302e302e302e32007217"
          ∷ codes "1d00105950585944393952310003595058594439395231007475726e00" ∷ [])
          ∷ lives (codes "150007595058594439395231002b395a4444564600"
          ∷ codes "19000b595058594439395231000131302e302e302e31008b0f"
          ∷ codes "0d000c59505859443939523100"
          ∷ codes "1a000e59505859443939523100020131302e302e302e31007117"
          ∷ codes "1d00105950585944393952310003595058594439395231007475726e00" ∷ [])
          ∷ [];
      attempts = record {
        ways = 1 ∷ 2 ∷ 3 ∷ [];
        heard = Failed 1 ∷ StunResult 0 true ∷ StunResult 1 true ∷ StunResult 1 false ∷ Failed 2 ∷ [];
      }
          ∷ [];
      over = false;
    } }
{}

/// A result of the server that isn't ok leads to TURN at once.
pub fn makes_refused_by_the_server()
    ensures { outcome plain (codes "YPXYD99R1" ∷ []) refused_by_the_server ≡ record {
      connections = lives (codes "2d00022b395a44445646005333324135434158355755395a354255504b4c43475852394a575332325747480000"
          ∷ codes "0d000c59505859443939523100"
          ∷ codes "1d00105950585944393952310003595058594439395231007475726e00" ∷ [])
          ∷ lives (codes "150007595058594439395231002b395a4444564600"
          ∷ codes "19000b595058594439395231000131302e302e302e31008b0f"
          ∷ codes "0d000c59505859443939523100"
          ∷ codes "1d00105950585944393952310003595058594439395231007475726e00" ∷ [])
          ∷ [];
      attempts = record {
        ways = 1 ∷ 2 ∷ 3 ∷ [];
        heard = Failed 1 ∷ StunResult 0 false ∷ StunResult 1 true ∷ [];
      }
          ∷ [];
      over = false;
    } }
{}

/// A way that doesn't apply is passed over: TURN comes after the direct way.
pub fn makes_without_the_second()
    ensures { outcome without_stun (codes "YPXYD99R1" ∷ []) without_the_second ≡ record {
      connections = lives (codes "2d00022b395a44445646005333324135434158355755395a354255504b4c43475852394a575332325747480000"
          ∷ codes "1d00105950585944393952310003595058594439395231007475726e00" ∷ [])
          ∷ lives (codes "150007595058594439395231002b395a4444564600"
          ∷ codes "19000b595058594439395231000131302e302e302e31008b0f"
          ∷ codes "1d00105950585944393952310003595058594439395231007475726e00"
          ∷ codes "0d000959505859443939523100" ∷ [])
          ∷ [];
      attempts = record {
        ways = 1 ∷ 3 ∷ [];
        heard = Failed 1 ∷ Failed 2 ∷ Failed 3 ∷ [];
      }
          ∷ [];
      over = false;
    } }
{}

/// Where STUN applies alone its failure ends the attempt.
pub fn makes_second_alone()
    ensures { outcome stun_alone (codes "YPXYD99R1" ∷ []) second_alone ≡ record {
      connections = lives (codes "2d00022b395a44445646005333324135434158355755395a354255504b4c43475852394a575332325747480000"
          ∷ codes "0d000c59505859443939523100" ∷ [])
          ∷ lives (codes "150007595058594439395231002b395a4444564600"
          ∷ codes "0d000c59505859443939523100"
          ∷ codes "0d000959505859443939523100" ∷ [])
          ∷ [];
      attempts = record {
        ways = 2 ∷ [];
        heard = StunResult 1 false ∷ [];
      }
          ∷ [];
      over = false;
    } }
{}

/// Ways that don't apply are passed over.
pub fn makes_turn_alone()
    ensures { outcome turned (codes "YPXYD99R1" ∷ []) turn_alone ≡ record {
      connections = lives (codes "2d00022b395a44445646005333324135434158355755395a354255504b4c43475852394a575332325747480000"
          ∷ codes "1d00105950585944393952310003595058594439395231007475726e00" ∷ [])
          ∷ lives (codes "150007595058594439395231002b395a4444564600"
          ∷ codes "1d00105950585944393952310003595058594439395231007475726e00"
          ∷ codes "0d000959505859443939523100" ∷ [])
          ∷ [];
      attempts = record {
        ways = 3 ∷ [];
        heard = Failed 3 ∷ [];
      }
          ∷ [];
      over = false;
    } }
{}

/// Where no way applies the attempt fails at once.
pub fn makes_no_way()
    ensures { outcome wayless (codes "YPXYD99R1" ∷ []) no_way ≡ record {
      connections = lives (codes "2d00022b395a44445646005333324135434158355755395a354255504b4c43475852394a575332325747480000" ∷ [])
          ∷ lives (codes "150007595058594439395231002b395a4444564600"
          ∷ codes "0d000959505859443939523100" ∷ [])
          ∷ [];
      attempts = record {
        ways = [];
        heard = [];
      }
          ∷ [];
      over = false;
    } }
{}

/// The TURN server that peers are told is the one that the coordinator was made with.
pub fn makes_another_turn_server()
    ensures { outcome otherwise (codes "N3MBZSCS1" ∷ []) another_turn_server ≡ record {
      connections = lives (codes "2d00022b44354d485a4b0045374e584b364b37384c564346363354454a4c565653423235584745453948330000"
          ∷ codes "0d000c4e334d425a5343533100"
          ∷ codes "2200104e334d425a5343533100034e334d425a5343533100742e6578616d706c6500" ∷ [])
          ∷ lives (codes "1500074e334d425a53435331002b44354d485a4b00"
          ∷ codes "19000b4e334d425a53435331000131302e302e302e31008b0f"
          ∷ codes "0d000c4e334d425a5343533100"
          ∷ codes "2200104e334d425a5343533100034e334d425a5343533100742e6578616d706c6500" ∷ [])
          ∷ [];
      attempts = record {
        ways = 1 ∷ 2 ∷ 3 ∷ [];
        heard = Failed 1 ∷ StunResult 1 false ∷ [];
      }
          ∷ [];
      over = false;
    } }
{}

/// After CLIENT_CONNECTED nothing more is told.
pub fn makes_connected_in_time()
    ensures { outcome plain (codes "YPXYD99R1" ∷ []) connected_in_time ≡ record {
      connections = lives (codes "2d00022b395a44445646005333324135434158355755395a354255504b4c43475852394a575332325747480000"
          ∷ codes "0d000c59505859443939523100" ∷ [])
          ∷ lives (codes "150007595058594439395231002b395a4444564600"
          ∷ codes "19000b595058594439395231000131302e302e302e31008b0f"
          ∷ codes "0d000c59505859443939523100" ∷ [])
          ∷ [];
      attempts = record {
        ways = 1 ∷ 2 ∷ [];
        heard = Failed 1 ∷ Connected ∷ [];
      }
          ∷ [];
      over = false;
    } }
{}

/// What a stranger says about a token changes nothing; neither does another tracking number, nor a result from the wrong
/// side, nor the server's failure of the direct way.
pub fn makes_strangers()
    ensures { outcome plain (codes "YPXYD99R1" ∷ []) strangers ≡ record {
      connections = lives (codes "2d00022b395a44445646005333324135434158355755395a354255504b4c43475852394a575332325747480000"
          ∷ codes "0d000c59505859443939523100" ∷ [])
          ∷ lives (codes "150007595058594439395231002b395a4444564600"
          ∷ codes "19000b595058594439395231000131302e302e302e31008b0f"
          ∷ codes "0d000c59505859443939523100" ∷ [])
          ∷ lives []
          ∷ [];
      attempts = record {
        ways = 1 ∷ 2 ∷ [];
        heard = Failed 2 ∷ Failed 1 ∷ [];
      }
          ∷ [];
      over = false;
    } }
{}

/// That it is connected counts from the client alone.
pub fn makes_server_says_connected()
    ensures { outcome plain (codes "YPXYD99R1" ∷ []) server_says_connected ≡ record {
      connections = lives (codes "2d00022b395a44445646005333324135434158355755395a354255504b4c43475852394a575332325747480000"
          ∷ codes "0d000c59505859443939523100" ∷ [])
          ∷ lives (codes "150007595058594439395231002b395a4444564600"
          ∷ codes "19000b595058594439395231000131302e302e302e31008b0f"
          ∷ codes "0d000c59505859443939523100" ∷ [])
          ∷ [];
      attempts = record {
        ways = 1 ∷ 2 ∷ [];
        heard = Failed 1 ∷ [];
      }
          ∷ [];
      over = false;
    } }
{}

/// A server connects to itself, and ends: all of it is silent.
pub fn makes_of_itself()
    ensures { outcome plain (codes "YPXYD99R1" ∷ []) of_itself ≡ record {
      connections = ended (codes "2d00022b395a44445646005333324135434158355755395a354255504b4c43475852394a575332325747480000"
          ∷ codes "150007595058594439395231002b395a4444564600"
          ∷ codes "19000b595058594439395231000131302e302e302e31008b0f"
          ∷ codes "0d000c59505859443939523100"
          ∷ codes "0d000c59505859443939523100" ∷ [])
          ∷ [];
      attempts = record {
        ways = 1 ∷ 2 ∷ [];
        heard = Failed 1 ∷ Connected ∷ [];
      }
          ∷ [];
      over = false;
    } }
{}

/// A server that connects to itself is told as both, as the server first.
pub fn makes_of_itself_by_stun()
    ensures { outcome plain (codes "YPXYD99R1" ∷ []) of_itself_by_stun ≡ record {
      connections = lives (codes "2d00022b395a44445646005333324135434158355755395a354255504b4c43475852394a575332325747480000"
          ∷ codes "150007595058594439395231002b395a4444564600"
          ∷ codes "19000b595058594439395231000131302e302e302e31008b0f"
          ∷ codes "0d000c59505859443939523100"
          ∷ codes "0d000c59505859443939523100"
          ∷ codes "1a000e59505859443939523100020031302e302e302e31007117"
          ∷ codes "1a000e59505859443939523100020131302e302e302e31007117" ∷ [])
          ∷ [];
      attempts = record {
        ways = 1 ∷ 2 ∷ [];
        heard = Failed 1 ∷ StunResult 0 true ∷ StunResult 1 true ∷ [];
      }
          ∷ [];
      over = false;
    } }
{}

/// A client may try again; the next attempt has a token of its own, and the number is not used up by a refusal.
pub fn makes_another_attempt()
    ensures { outcome plain (codes "YPXYD99R1" ∷ codes "LDRWP49P2" ∷ []) another_attempt ≡ record {
      connections = lives (codes "2d00022b395a44445646005333324135434158355755395a354255504b4c43475852394a575332325747480000"
          ∷ codes "0d000c4c445257503439503200" ∷ [])
          ∷ lives (codes "150007595058594439395231002b395a4444564600"
          ∷ codes "19000b595058594439395231000131302e302e302e31008b0f"
          ∷ codes "1500074c4452575034395032002b395a4444564600"
          ∷ codes "19000b4c4452575034395032000131302e302e302e31008b0f"
          ∷ codes "0d000c4c445257503439503200" ∷ [])
          ∷ ended (codes "0c0000022b41414141414100" ∷ [])
          ∷ [];
      attempts = record {
        ways = 1 ∷ [];
        heard = Failed 9 ∷ [];
      }
          ∷ record {
            ways = 1 ∷ 2 ∷ [];
            heard = Failed 1 ∷ [];
          }
          ∷ [];
      over = false;
    } }
{}

/// A client is brought to a server directly.
pub fn makes_connected_directly()
    ensures { outcome plain (codes "YPXYD99R1" ∷ []) connected_directly ≡ record {
      connections = lives (codes "2d00022b395a44445646005333324135434158355755395a354255504b4c43475852394a575332325747480000" ∷ [])
          ∷ lives (codes "150007595058594439395231002b395a4444564600"
          ∷ codes "19000b595058594439395231000131302e302e302e31008b0f" ∷ [])
          ∷ [];
      attempts = record {
        ways = 1 ∷ [];
        heard = Connected ∷ [];
      }
          ∷ [];
      over = false;
    } }
{}

/// By STUN, where both show themselves to the desk.
pub fn makes_connected_by_stun()
    ensures { outcome plain (codes "YPXYD99R1" ∷ []) connected_by_stun ≡ record {
      connections = lives (codes "2d00022b395a44445646005333324135434158355755395a354255504b4c43475852394a575332325747480000"
          ∷ codes "0d000c59505859443939523100"
          ∷ codes "1a000e59505859443939523100020031302e302e302e32005a1b" ∷ [])
          ∷ lives (codes "150007595058594439395231002b395a4444564600"
          ∷ codes "19000b595058594439395231000131302e302e302e31008b0f"
          ∷ codes "0d000c59505859443939523100"
          ∷ codes "1a000e59505859443939523100020131302e302e302e3100591b" ∷ [])
          ∷ ended []
          ∷ ended []
          ∷ [];
      attempts = record {
        ways = 1 ∷ 2 ∷ [];
        heard = Failed 1 ∷ StunResult 0 true ∷ StunResult 1 true ∷ Connected ∷ [];
      }
          ∷ [];
      over = false;
    } }
{}

/// And by TURN, where the server doesn't reach the desk.
pub fn makes_connected_by_turn()
    ensures { outcome plain (codes "YPXYD99R1" ∷ []) connected_by_turn ≡ record {
      connections = lives (codes "2d00022b395a44445646005333324135434158355755395a354255504b4c43475852394a575332325747480000"
          ∷ codes "0d000c59505859443939523100"
          ∷ codes "1d00105950585944393952310003595058594439395231007475726e00" ∷ [])
          ∷ lives (codes "150007595058594439395231002b395a4444564600"
          ∷ codes "19000b595058594439395231000131302e302e302e31008b0f"
          ∷ codes "0d000c59505859443939523100"
          ∷ codes "1d00105950585944393952310003595058594439395231007475726e00" ∷ [])
          ∷ [];
      attempts = record {
        ways = 1 ∷ 2 ∷ 3 ∷ [];
        heard = Failed 1 ∷ StunResult 0 false ∷ Connected ∷ [];
      }
          ∷ [];
      over = false;
    } }
{}
