//! What holds of every list of events. These functions do nothing: their contracts are the laws.
ghost use Rattle.std.specs.Prelude.{◌||◌, ◌+◌, cond, nat_le, ◌≡◌, filter, not, ◌<◌, ◌≤◌, ◌^◌, ◌⊎◌};
ghost use Rattle.std.specs.Prelude.{◌==◌, Bool, Some, None, length, ℕ, true, false, List, [], ◌∷◌, ◌++◌};
ghost use Rattle.tt_edge.specs.declared.event.Event.{Event};
ghost use Rattle.tt_edge.specs.Event.{opens, is_taken, is_tick, event_cost};
ghost use Rattle.tt_edge.specs.Core.{GrowsTo, IsUnopened};
ghost use Rattle.tt_gc_table.specs.declared.setup.GcSetup.{GcSetup};
ghost use Rattle.tt_attempts.specs.declared.attempt.Heard.{Heard};
ghost use Rattle.tt_attempts.specs.declared.attempt.Heard.TheVariants.{Connected};
ghost use Rattle.tt_attempts.specs.Runs.{told_in, applying};
ghost use Rattle.tt_gc_table.specs.Ways.{words_for, ways, hearings, numbers, IsCaused};
ghost use Rattle.tt_gc_table.specs.Table.{Table, Server, Meeting, is_servers, meeting_of, holders, NoneTwice, server_by, drawn_by};
ghost use Rattle.std.specs.Prelude.{is_some};
ghost use Rattle.tt_gc_table.specs.Deed.{Step, becomes};
ghost use Rattle.tt_gc_table.specs.Ending.{ends};
ghost use Rattle.tt_gc_table.specs.Codes.{IsOwners, new_code};
ghost use Rattle.tt_gc_table.specs.AllCodes.{all_codes};
ghost use Rattle.tt_gc_table.specs.Listing.{ListsServer, EndsListing};
ghost use Rattle.tt_gc_table.specs.Events.{table_of, is_stop, last_tick};
ghost use Rattle.tt_edge.specs.declared.event.Event.TheVariants.{Packet};
ghost use Rattle.std.specs.List.{Contains};
ghost use Rattle.tt_gc_table.specs.PacketRules.{is_empty, read_msg, on_register, on_listing};
ghost use Rattle.tt_gc_table.specs.PacketRules.{may_fail, is_side, on_failed, on_result, on_connected};
ghost use Rattle.tt_gc_table.specs.Told.{sent, is_live, is_over, takes};

/// The laws of a core, and of one that a server can be run over.
pub fn core_laws()
    ensures grows { (s : GcSetup) (es : List Event) (e : Event) (conn : ℕ) → GrowsTo (sent s es conn) (sent s (es ++ e ∷ []) conn) }
    ensures ended { (s : GcSetup) (es : List Event) (e : Event) (conn : ℕ) → conn ≤ opens es → is_live s es conn ≡ false
        → (is_live s (es ++ e ∷ []) conn ≡ false) × (sent s (es ++ e ∷ []) conn ≡ sent s es conn) }
    ensures unopened { (s : GcSetup) (es : List Event) (conn : ℕ) → IsUnopened es conn
        → (is_live s es conn ≡ false) × (sent s es conn ≡ []) }
    ensures over { (s : GcSetup) (es : List Event) (e : Event) (conn : ℕ) → is_over s es ≡ true
        → (is_live s es conn ≡ false) × (is_over s (es ++ e ∷ []) ≡ true) }
    // The table counts every opening, taken or not.
    ensures openings { (s : GcSetup) (es : List Event) → (table_of s es).openings ≡ opens es }
    ensures taken { (s : GcSetup) (es : List Event) (e : Event) → takes s es e ≡ is_taken (is_live s es) e }
{}

/// What is told for a token, of a list of fewer than 2^64 events.
pub fn ways_in_order()
    // It is what `tt_attempts` says of all that its attempt hears; where no attempt began with this token it is nothing.
    ensures told { (s : GcSetup) (es : List Event) (token : List ℕ) → length es < 2 ^ 64
        → ((words_for s es token ≡ []) × (hearings s es token ≡ []))
        ⊎ (words_for s es token ≡ numbers (told_in s.ways (hearings s es token))) }
    // The ways among it are Direct 1, STUN 2 and TURN 3 in this order, each at most once, and only those that apply.
    ensures order { (s : GcSetup) (es : List Event) (token : List ℕ) → length es < 2 ^ 64
        → (later : List ℕ) × (numbers (applying s.ways) ≡ ways s es token ++ later) }
    // What is told after the first word, a way or the end, is told only after the way before it has failed by its rule; the end
    // also where the server has gone.
    ensures caused { (s : GcSetup) (es : List Event) (token before : List ℕ) (word : ℕ) (after : List ℕ) → length es < 2 ^ 64
        → words_for s es token ≡ before ++ word ∷ after → (before ≡ [] → ⊥) → IsCaused s.ways (hearings s es token) before word }
    // That the attempt failed is told last, so at most once.
    ensures once { (s : GcSetup) (es : List Event) (token before after : List ℕ) → length es < 2 ^ 64
        → words_for s es token ≡ before ++ 4 ∷ after → after ≡ [] }
    // After CLIENT_CONNECTED, or its client's end, no further way is told, and no end.
    ensures connected { (s : GcSetup) (es : List Event) (token : List ℕ) (before after : List Heard) → length es < 2 ^ 64
        → hearings s es token ≡ before ++ Connected ∷ after → words_for s es token ≡ numbers (told_in s.ways before) }
{}

/// What a stranger says about an open attempt's token changes nothing and tells nothing.
pub fn strangers_change_nothing()
    ensures failed { (s : GcSetup) (t : Table) (m : Meeting) (conn : ℕ) (token : List ℕ) (tracking : ℕ) → meeting_of t token ≡ Some m
        → may_fail conn tracking m ≡ false → on_failed s conn token tracking t ≡ becomes t }
    ensures result { (s : GcSetup) (t : Table) (m : Meeting) (conn : ℕ) (token : List ℕ) (side : ℕ) (ok : Bool)
        → meeting_of t token ≡ Some m
        → is_side conn side m ≡ false → on_result s conn token side ok t ≡ becomes t }
    ensures connected { (s : GcSetup) (t : Table) (m : Meeting) (conn : ℕ) (token : List ℕ) → meeting_of t token ≡ Some m
        → (m.client.conn == conn) ≡ false → on_connected s conn token t ≡ becomes t }
    // So does all that is said about a token of no open attempt.
    ensures unknown { (s : GcSetup) (t : Table) (conn : ℕ) (token : List ℕ) (tracking : ℕ) → meeting_of t token ≡ None
        → on_failed s conn token tracking t ≡ becomes t }
    ensures unknown_result { (s : GcSetup) (t : Table) (conn : ℕ) (token : List ℕ) (side : ℕ) (ok : Bool) → meeting_of t token ≡ None
        → on_result s conn token side ok t ≡ becomes t }
    ensures unknown_connected { (s : GcSetup) (t : Table) (conn : ℕ) (token : List ℕ) → meeting_of t token ≡ None
        → on_connected s conn token t ≡ becomes t }
{}

/// A packet that spells nothing ends its own connection, and no other, whatever was said on it before; and so does any packet at
/// the desk. No other connection's server is touched. (Where the event is the last one by its cost, all end.)
pub fn a_bad_packet_ends_its_own_connection()
    ensures { (s : GcSetup) (es : List Event) (conn kind : ℕ) (body : List ℕ) → read_msg kind body ≡ None → is_live s es conn ≡ true
        → is_over s (es ++ Packet conn kind body ∷ []) ≡ false
        → (is_live s (es ++ Packet conn kind body ∷ []) conn ≡ false)
        × ((other : ℕ) → (other ≡ conn → ⊥) → is_live s (es ++ Packet conn kind body ∷ []) other ≡ is_live s es other)
        × (filter (λ v. not (is_servers conn v)) (table_of s (es ++ Packet conn kind body ∷ [])).servers
        ≡ filter (λ v. not (is_servers conn v)) (table_of s es).servers) }
{}

/// Each packet of a listing but the last tells one public server that is registered and whose last update has the revision that
/// is asked for; no server of another kind, and none of another revision.
pub fn only_asked_servers_are_listed()
    ensures { (conn : ℕ) (revision : List ℕ) (t : Table) (step : Step) → Contains (on_listing conn revision t).told step
        → EndsListing step ⊎ ListsServer t.servers revision step }
{}

/// A code that is live belongs to one server, as long as no code was drawn twice. `Parts` draws none
/// twice, as `Parts::drawn_count` says.
pub fn a_code_has_one_server()
    ensures { (s : GcSetup) (es : List Event) (code : List ℕ) → NoneTwice (table_of s es).drawn → holders (table_of s es) code ≤ 1 }
{}

/// No code is drawn twice, as long as no more are drawn than there are: whatever happens, a new code is one that wasn't drawn.
pub fn no_code_is_drawn_twice()
    ensures new { (t : Table) → length t.drawn < all_codes → is_some (drawn_by t (new_code t)) ≡ false }
    ensures once { (s : GcSetup) (es : List Event) → length (table_of s es).drawn ≤ all_codes → NoneTwice (table_of s es).drawn }
    // So a live code belongs to one server, and was drawn.
    ensures one_server { (s : GcSetup) (es : List Event) (code : List ℕ) → length (table_of s es).drawn ≤ all_codes
        → holders (table_of s es) code ≤ 1 }
    ensures drawn { (s : GcSetup) (es : List Event) (code : List ℕ) → length (table_of s es).drawn ≤ all_codes
        → is_some (drawn_by (table_of s es) code) ≡ false → is_some (server_by (table_of s es) code) ≡ false }
{}

/// Whoever registers by a code has its secret: a registration with a code is taken only where that code was drawn with the secret
/// that is given, and no server that lives has it.
pub fn a_code_is_its_owners()
    ensures { (s : GcSetup) (t : Table) (conn kind port : ℕ) (code secret : List ℕ) → is_empty code ≡ false
        → (on_register s conn kind port code secret t ≡ ends s conn 0 [] t)
        ⊎ ((on_register s conn kind port code secret t ≡ ends s conn 1 [] t) ⊎ IsOwners t code secret) }
{}

/// After an event that is taken all is over exactly where it is a stop, where the cost of the events reaches the limit by it, or where
/// it is the last tick.
pub fn all_is_over_exactly_then()
    ensures { (s : GcSetup) (es : List Event) (e : Event) → is_over s es ≡ false → takes s es e ≡ true
        → is_over s (es ++ e ∷ []) ≡ is_stop e || nat_le s.cost ((table_of s es).cost + event_cost e)
        || (((table_of s es).ticks + cond (is_tick e) 1 0) == last_tick) }
{}
