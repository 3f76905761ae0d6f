//! What holds of every run of an attempt. These functions do nothing: their contracts are the laws.
ghost use Rattle.std.specs.Prelude.{◌≡◌, ℕ, ◌⊎◌, true, List, [], ◌∷◌, ◌++◌, length, replicate};
ghost use Rattle.std.specs.List.{Contains};
ghost use Rattle.tt_attempts.specs.Runs.{told_in, ways_in, applying, last_word, fails, IsNewWay, next_way, is_foreign};
ghost use Rattle.tt_attempts.specs.Runs.{ChangesNothing, BothOk};
ghost use Rattle.tt_attempts.specs.declared.attempt.Ways.{Ways};
ghost use Rattle.tt_attempts.specs.declared.attempt.Heard.{Heard};
ghost use Rattle.tt_attempts.specs.declared.attempt.Heard.TheVariants.{StunResult, Connected, ServerGone};
ghost use Rattle.tt_attempts.specs.declared.attempt.Told.{Told};
ghost use Rattle.tt_attempts.specs.declared.attempt.Told.TheVariants.{Nothing, AskStun, Stun, AllFailed};

/// The ways that are told are the first of those that apply, direct before STUN before TURN: so each is told at most once,
/// and only those that don't apply are passed over.
pub fn ways_in_order()
    ensures { (ways : Ways) (heard : List Heard) → (later : List Told) × (applying ways ≡ ways_in (told_in ways heard) ++ later) }
{}

/// A way, or the end, is told only for the failure of the way told last, or where the server has gone.
pub fn next_only_after_failure()
    ensures way { (ways : Ways) (before : List Heard) (h : Heard) (word : Told) → IsNewWay word
        → told_in ways (before ++ h ∷ []) ≡ told_in ways before ++ word ∷ [] → fails (last_word ways before) h ≡ true }
    ensures end { (ways : Ways) (before : List Heard) (h : Heard)
        → told_in ways (before ++ h ∷ []) ≡ told_in ways before ++ AllFailed ∷ []
        → (fails (last_word ways before) h ≡ true) ⊎ (h ≡ ServerGone) }
    // And it is told at once for that failure, unless the client was connected before.
    ensures at_once { (ways : Ways) (before : List Heard) (h : Heard) → (Contains before Connected → ⊥)
        → fails (last_word ways before) h ≡ true
        → told_in ways (before ++ h ∷ []) ≡ told_in ways before ++ next_way ways (last_word ways before) ∷ [] }
    // Where the server has gone the end is told at once, unless it was told or the client was connected before.
    ensures gone { (ways : Ways) (before : List Heard) → (Contains before Connected → ⊥) → (last_word ways before ≡ AllFailed → ⊥)
        → told_in ways (before ++ ServerGone ∷ []) ≡ told_in ways before ++ AllFailed ∷ [] }
{}

/// Behind `Connected` or the end nothing more is told.
pub fn silent_at_the_end()
    ensures connected { (ways : Ways) (before after : List Heard)
        → told_in ways (before ++ Connected ∷ after) ≡ told_in ways before ++ Nothing ∷ replicate (length after) Nothing }
    ensures failed { (ways : Ways) (before after : List Heard) → last_word ways before ≡ AllFailed
        → told_in ways (before ++ after) ≡ told_in ways before ++ replicate (length after) Nothing }
{}

/// Both sides are told where to connect only at a result, once both have said ok behind the question.
pub fn addresses_after_both_results()
    ensures { (ways : Ways) (before : List Heard) (h : Heard)
        → told_in ways (before ++ h ∷ []) ≡ told_in ways before ++ Stun ∷ []
        → (last_word ways before ≡ AskStun) × BothOk ways (before ++ h ∷ []) }
{}

/// An event that doesn't speak of what is tried changes nothing, and neither does a repeated ok: one that the same side said
/// before, behind the same question. A result that isn't ok is no repetition, whoever says it.
pub fn other_events_change_nothing()
    ensures foreign { (ways : Ways) (before after : List Heard) (h : Heard) → is_foreign (last_word ways before) h ≡ true
        → ChangesNothing ways before h after }
    ensures repeated { (ways : Ways) (early late after : List Heard) (side : ℕ) → last_word ways early ≡ AskStun
        → ChangesNothing ways (early ++ StunResult side true ∷ late) (StunResult side true) after }
{}
