//! What comes where as many are there as may be. These functions do nothing: their contracts are computed.
ghost use Rattle.std.specs.Prelude.{◌≡◌, [], ◌∷◌, codes};
ghost use Rattle.tt_edge.specs.declared.event.Event.TheVariants.{Tick};
ghost use Rattle.tt_gc_rows.specs.Words.{registers, connects, shows, lives, ended};
ghost use Rattle.tt_gc_rows.specs.LimitTables.{with_servers, with_attempts, with_sides, with_ticks, after};

/// Where 4,096 servers are registered a further one is refused by code 0, also where its kind is none.
pub fn makes_full_of_servers()
    ensures full { after (with_servers 4096) (registers 1 9 3979 [] []) 1 ≡ ended (codes "0500000000" ∷ []) }
    ensures room { after (with_servers 4095) (registers 1 9 3979 [] []) 1 ≡ ended (codes "0500000100" ∷ []) }
{}

/// Where 4,096 attempts are open a further one is refused by code 0, also where no server has the code.
pub fn makes_full_of_attempts()
    ensures full { after (with_attempts 4096) (connects 1 (codes "+BBBBBB")) 1 ≡ ended (codes "0500000000" ∷ []) }
    ensures room { after (with_attempts 4095) (connects 1 (codes "+BBBBBB")) 1 ≡ ended (codes "0c0000022b42424242424200" ∷ []) }
{}

/// Where 4,096 connections are live at the desk a further one ends untold at its opening.
pub fn makes_full_desk()
    ensures full { after (with_sides 4096) (shows 1) 2 ≡ ended [] }
    ensures room { after (with_sides 4095) (shows 1) 2 ≡ lives [] }
{}

/// The 4,000,000,000th tick ends all, untold.
pub fn makes_end_of_ticks()
    ensures last { after (with_ticks 3999999999) Tick 1 ≡ ended [] }
    ensures before { after (with_ticks 3999999998) Tick 1 ≡ lives [] }
{}
