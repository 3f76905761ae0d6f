//! Ends of connections and of all. What is wanted came from outside the definitions. These functions do nothing.
ghost use Rattle.std.specs.Prelude.{◌≡◌, [], ◌∷◌, true, false, codes};
ghost use Rattle.tt_attempts.specs.declared.attempt.Heard.TheVariants.{Failed, Connected, ServerGone};
ghost use Rattle.tt_gc_rows.specs.Words.{plain, cheap, lives, ended, outcome};
ghost use Rattle.tt_gc_rows.specs.EndsLists.{server_with_three, server_with_one_client, client_ends, server_errs, another_version};
ghost use Rattle.tt_gc_rows.specs.EndsLists.{coordinators_packet, ended_speaks, stopped, cost_reached, cost_not_reached};

/// The server of three open attempts ends: its clients are told so, in the order of the attempts' numbers.
pub fn makes_server_with_three()
    ensures { outcome plain (codes "YPXYD99R1" ∷ codes "LDRWP49P2" ∷ codes "QJ7QR8QY3" ∷ []) server_with_three ≡ record {
      connections = ended (codes "2d00022b395a44445646005333324135434158355755395a354255504b4c43475852394a575332325747480000"
          ∷ codes "0d000c4c445257503439503200" ∷ [])
          ∷ lives (codes "150007595058594439395231002b395a4444564600"
          ∷ codes "19000b595058594439395231000131302e302e302e31008b0f"
          ∷ codes "0d000959505859443939523100" ∷ [])
          ∷ lives (codes "1500074c4452575034395032002b395a4444564600"
          ∷ codes "19000b4c4452575034395032000131302e302e302e31008b0f"
          ∷ codes "0d000c4c445257503439503200"
          ∷ codes "0d00094c445257503439503200" ∷ [])
          ∷ lives (codes "150007514a37515238515933002b395a4444564600"
          ∷ codes "19000b514a37515238515933000131302e302e302e31008b0f"
          ∷ codes "0d0009514a3751523851593300" ∷ [])
          ∷ [];
      attempts = record {
        ways = 1 ∷ [];
        heard = ServerGone ∷ [];
      }
          ∷ record {
            ways = 1 ∷ 2 ∷ [];
            heard = Failed 1 ∷ ServerGone ∷ [];
          }
          ∷ record {
            ways = 1 ∷ [];
            heard = ServerGone ∷ [];
          }
          ∷ [];
      over = false;
    } }
{}

/// One client asks three times: it is told of the end of each attempt in the order of their numbers.
pub fn makes_server_with_one_client()
    ensures { outcome plain (codes "YPXYD99R1" ∷ codes "LDRWP49P2" ∷ codes "QJ7QR8QY3" ∷ []) server_with_one_client ≡ record {
      connections = ended (codes "2d00022b395a44445646005333324135434158355755395a354255504b4c43475852394a575332325747480000"
          ∷ codes "0500000000" ∷ [])
          ∷ lives (codes "150007595058594439395231002b395a4444564600"
          ∷ codes "19000b595058594439395231000131302e302e302e31008b0f"
          ∷ codes "1500074c4452575034395032002b395a4444564600"
          ∷ codes "19000b4c4452575034395032000131302e302e302e31008b0f"
          ∷ codes "150007514a37515238515933002b395a4444564600"
          ∷ codes "19000b514a37515238515933000131302e302e302e31008b0f"
          ∷ codes "0d000959505859443939523100"
          ∷ codes "0d00094c445257503439503200"
          ∷ codes "0d0009514a3751523851593300" ∷ [])
          ∷ [];
      attempts = record {
        ways = 1 ∷ [];
        heard = ServerGone ∷ [];
      }
          ∷ record {
            ways = 1 ∷ [];
            heard = ServerGone ∷ [];
          }
          ∷ record {
            ways = 1 ∷ [];
            heard = ServerGone ∷ [];
          }
          ∷ [];
      over = false;
    } }
{}

/// Its client's end ends an attempt untold, and the server is told nothing.
pub fn makes_client_ends()
    ensures { outcome plain (codes "YPXYD99R1" ∷ []) client_ends ≡ record {
      connections = lives (codes "2d00022b395a44445646005333324135434158355755395a354255504b4c43475852394a575332325747480000"
          ∷ codes "0d000c59505859443939523100" ∷ [])
          ∷ ended (codes "150007595058594439395231002b395a4444564600"
          ∷ codes "19000b595058594439395231000131302e302e302e31008b0f"
          ∷ codes "0d000c59505859443939523100" ∷ [])
          ∷ [];
      attempts = record {
        ways = 1 ∷ 2 ∷ [];
        heard = Failed 1 ∷ Connected ∷ [];
      }
          ∷ [];
      over = false;
    } }
{}

/// A server that says what spells nothing is told so, and its client is told of its end; nobody else is.
pub fn makes_server_errs()
    ensures { outcome plain (codes "YPXYD99R1" ∷ []) server_errs ≡ record {
      connections = ended (codes "2d00022b395a44445646005333324135434158355755395a354255504b4c43475852394a575332325747480000"
          ∷ codes "0500000000" ∷ [])
          ∷ lives (codes "150007595058594439395231002b395a4444564600"
          ∷ codes "19000b595058594439395231000131302e302e302e31008b0f"
          ∷ codes "0d000959505859443939523100" ∷ [])
          ∷ lives (codes "0500050000" ∷ [])
          ∷ [];
      attempts = record {
        ways = 1 ∷ [];
        heard = ServerGone ∷ [];
      }
          ∷ [];
      over = false;
    } }
{}

/// Another version of the protocol spells nothing; so does a number that no message has.
pub fn makes_another_version()
    ensures { outcome plain [] another_version ≡ record {
      connections = ended (codes "0500000000" ∷ [])
          ∷ ended (codes "0500000000" ∷ [])
          ∷ lives (codes "0500050000" ∷ [])
          ∷ [];
      attempts = [];
      over = false;
    } }
{}

/// A packet of the coordinator's ends its connection, and so does a broken stream; a connection that breaks at the desk
/// ends untold.
pub fn makes_coordinators_packet()
    ensures { outcome plain [] coordinators_packet ≡ record {
      connections = ended (codes "0500000000" ∷ [])
          ∷ ended (codes "0500000000" ∷ [])
          ∷ ended []
          ∷ [];
      attempts = [];
      over = false;
    } }
{}

/// What an ended connection says is nothing, and what one says that was never opened; a tick changes nothing.
pub fn makes_ended_speaks()
    ensures { outcome plain [] ended_speaks ≡ record {
      connections = ended (codes "2d00022b395a44445646005333324135434158355755395a354255504b4c43475852394a575332325747480000" ∷ [])
          ∷ lives (codes "0500050000" ∷ [])
          ∷ [];
      attempts = [];
      over = false;
    } }
{}

/// At a Stop all end untold, attempts too; what comes then is nothing.
pub fn makes_stopped()
    ensures { outcome plain (codes "YPXYD99R1" ∷ []) stopped ≡ record {
      connections = ended (codes "2d00022b395a44445646005333324135434158355755395a354255504b4c43475852394a575332325747480000" ∷ [])
          ∷ ended (codes "150007595058594439395231002b395a4444564600"
          ∷ codes "19000b595058594439395231000131302e302e302e31008b0f" ∷ [])
          ∷ ended []
          ∷ [];
      attempts = record {
        ways = 1 ∷ [];
        heard = [];
      }
          ∷ [];
      over = true;
    } }
{}

/// So they do after the event that brings the cost to the limit, which is still told what it asked for.
pub fn makes_cost_reached()
    ensures { outcome cheap [] cost_reached ≡ record {
      connections = ended (codes "0c0000022b41414141414100" ∷ [])
          ∷ ended []
          ∷ [];
      attempts = [];
      over = true;
    } }
{}

/// A tick costs nothing, and neither does an event that isn't taken.
pub fn makes_cost_not_reached()
    ensures { outcome cheap [] cost_not_reached ≡ record {
      connections = lives []
          ∷ lives []
          ∷ [];
      attempts = [];
      over = false;
    } }
{}
