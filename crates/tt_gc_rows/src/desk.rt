//! The STUN desk. What is wanted came from outside the definitions. These functions do nothing.
ghost use Rattle.std.specs.Prelude.{◌≡◌, [], ◌∷◌, true, false, codes};
ghost use Rattle.tt_attempts.specs.declared.attempt.Heard.TheVariants.{Failed, StunResult, Connected};
ghost use Rattle.tt_gc_rows.specs.Words.{plain, lives, ended, outcome};
ghost use Rattle.tt_gc_rows.specs.DeskLists.{shown_at_the_desk, both_shown, desk_too_early, nothing_noted, desk_broken};
ghost use Rattle.tt_gc_rows.specs.DeskLists.{desk_waits, shown_at_the_main_door};

/// What the desk noted of the server is told to the client; the client itself is named as it was seen. A connection at the
/// desk ends untold.
pub fn makes_shown_at_the_desk()
    ensures { outcome plain (codes "YPXYD99R1" ∷ []) shown_at_the_desk ≡ record {
      connections = lives (codes "2d00022b395a44445646005333324135434158355755395a354255504b4c43475852394a575332325747480000"
          ∷ codes "0d000c59505859443939523100"
          ∷ codes "1a000e59505859443939523100020031302e302e302e32007217" ∷ [])
          ∷ lives (codes "150007595058594439395231002b395a4444564600"
          ∷ codes "19000b595058594439395231000131302e302e302e31008b0f"
          ∷ codes "0d000c59505859443939523100"
          ∷ codes "1a000e59505859443939523100020131302e302e302e3100591b" ∷ [])
          ∷ ended []
          ∷ [];
      attempts = record {
        ways = 1 ∷ 2 ∷ [];
        heard = Failed 1 ∷ StunResult 0 true ∷ StunResult 1 true ∷ [];
      }
          ∷ [];
      over = false;
    } }
{}

/// Both are named as they showed themselves, also where somebody else showed for them.
pub fn makes_both_shown()
    ensures { outcome plain (codes "YPXYD99R1" ∷ []) both_shown ≡ record {
      connections = lives (codes "2d00022b395a44445646005333324135434158355755395a354255504b4c43475852394a575332325747480000"
          ∷ codes "0d000c59505859443939523100"
          ∷ codes "1a000e59505859443939523100020031302e302e302e3800601b" ∷ [])
          ∷ lives (codes "150007595058594439395231002b395a4444564600"
          ∷ codes "19000b595058594439395231000131302e302e302e31008b0f"
          ∷ codes "0d000c59505859443939523100"
          ∷ codes "1a000e59505859443939523100020131302e302e302e3900611b" ∷ [])
          ∷ ended []
          ∷ ended []
          ∷ [];
      attempts = record {
        ways = 1 ∷ 2 ∷ [];
        heard = Failed 1 ∷ StunResult 0 true ∷ StunResult 1 true ∷ [];
      }
          ∷ [];
      over = false;
    } }
{}

/// Before the attempt stands at STUN the desk notes nothing; a later note takes the place of an earlier one.
pub fn makes_desk_too_early()
    ensures { outcome plain (codes "YPXYD99R1" ∷ []) desk_too_early ≡ record {
      connections = lives (codes "2d00022b395a44445646005333324135434158355755395a354255504b4c43475852394a575332325747480000"
          ∷ codes "0d000c59505859443939523100"
          ∷ codes "1a000e59505859443939523100020031302e302e302e32007217" ∷ [])
          ∷ lives (codes "150007595058594439395231002b395a4444564600"
          ∷ codes "19000b595058594439395231000131302e302e302e31008b0f"
          ∷ codes "0d000c59505859443939523100"
          ∷ codes "1a000e59505859443939523100020131302e302e302e36005e1b" ∷ [])
          ∷ ended []
          ∷ ended []
          ∷ ended []
          ∷ ended []
          ∷ [];
      attempts = record {
        ways = 1 ∷ 2 ∷ [];
        heard = Failed 1 ∷ StunResult 0 true ∷ StunResult 1 true ∷ [];
      }
          ∷ [];
      over = false;
    } }
{}

/// A third side, a token of no attempt, another number and a packet to the coordinator note nothing; each ends its
/// connection untold.
pub fn makes_nothing_noted()
    ensures { outcome plain (codes "YPXYD99R1" ∷ []) nothing_noted ≡ record {
      connections = lives (codes "2d00022b395a44445646005333324135434158355755395a354255504b4c43475852394a575332325747480000"
          ∷ codes "0d000c59505859443939523100"
          ∷ codes "1a000e59505859443939523100020031302e302e302e32007217" ∷ [])
          ∷ lives (codes "150007595058594439395231002b395a4444564600"
          ∷ codes "19000b595058594439395231000131302e302e302e31008b0f"
          ∷ codes "0d000c59505859443939523100"
          ∷ codes "1a000e59505859443939523100020131302e302e302e31007117" ∷ [])
          ∷ ended []
          ∷ ended []
          ∷ ended []
          ∷ ended []
          ∷ [];
      attempts = record {
        ways = 1 ∷ 2 ∷ [];
        heard = Failed 1 ∷ StunResult 0 true ∷ StunResult 1 true ∷ [];
      }
          ∷ [];
      over = false;
    } }
{}

/// A connection at the desk that breaks or is shut ends untold; what it says afterwards is nothing.
pub fn makes_desk_broken()
    ensures { outcome plain (codes "YPXYD99R1" ∷ []) desk_broken ≡ record {
      connections = lives (codes "2d00022b395a44445646005333324135434158355755395a354255504b4c43475852394a575332325747480000"
          ∷ codes "0d000c59505859443939523100"
          ∷ codes "1a000e59505859443939523100020031302e302e302e32007217" ∷ [])
          ∷ lives (codes "150007595058594439395231002b395a4444564600"
          ∷ codes "19000b595058594439395231000131302e302e302e31008b0f"
          ∷ codes "0d000c59505859443939523100"
          ∷ codes "1a000e59505859443939523100020131302e302e302e31007117" ∷ [])
          ∷ ended []
          ∷ ended []
          ∷ [];
      attempts = record {
        ways = 1 ∷ 2 ∷ [];
        heard = Failed 1 ∷ StunResult 0 true ∷ StunResult 1 true ∷ [];
      }
          ∷ [];
      over = false;
    } }
{}

/// A connection at the desk stays as long as it says nothing.
pub fn makes_desk_waits()
    ensures { outcome plain [] desk_waits ≡ record {
      connections = lives []
          ∷ lives []
          ∷ [];
      attempts = [];
      over = false;
    } }
{}

/// At the main door SERCLI_STUN is no packet of the coordinator's protocol.
pub fn makes_shown_at_the_main_door()
    ensures { outcome plain (codes "YPXYD99R1" ∷ []) shown_at_the_main_door ≡ record {
      connections = lives (codes "2d00022b395a44445646005333324135434158355755395a354255504b4c43475852394a575332325747480000"
          ∷ codes "0d000c59505859443939523100" ∷ [])
          ∷ ended (codes "150007595058594439395231002b395a4444564600"
          ∷ codes "19000b595058594439395231000131302e302e302e31008b0f"
          ∷ codes "0d000c59505859443939523100"
          ∷ codes "0500000000" ∷ [])
          ∷ [];
      attempts = record {
        ways = 1 ∷ 2 ∷ [];
        heard = Failed 1 ∷ Connected ∷ [];
      }
          ∷ [];
      over = false;
    } }
{}
