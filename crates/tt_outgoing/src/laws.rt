//! What follows for the book of a game.
ghost use Rattle.std.specs.Prelude.{◌≡◌, ℕ, List, [], ◌∷◌, ◌++◌, flat_map};
ghost use Rattle.tt_edge.specs.declared.event.Event.{Event};
ghost use Rattle.tt_log.specs.Deed.{spelled};
ghost use Rattle.tt_log.specs.Events.{deed};
ghost use Rattle.tt_log.specs.History.{table_of};
ghost use Rattle.tt_log.specs.Origin.{Origin};
ghost use Rattle.tt_log.specs.Tellings.{Telling, tellings};
ghost use Rattle.tt_log.specs.Told.{told_to};
ghost use Rattle.tt_outgoing.specs.Carrying.{IsCarriedOn};
ghost use Rattle.tt_outgoing.specs.Staging.{MayAllBeSaid, MayAllBeTold, bytes_for, packets_of};

/// What packets of tellings tell a connection are the spellings of what the tellings tell it.
pub fn packets_are_told()
    ensures { (conn : ℕ) (tellings : List Telling) → bytes_for conn (packets_of tellings) ≡ flat_map spelled (told_to conn tellings) }
{}

/// Where each telling is for connections that are opened, none twice, so is each packet: this is what `deliver` asks.
pub fn packets_may_be_told()
    ensures { (opened : ℕ) (tellings : List Telling) → MayAllBeSaid opened tellings → MayAllBeTold opened (packets_of tellings) }
{}

/// Whatever an event of a game tells, it tells to connections that are opened, none twice: so its packets may be delivered.
pub fn all_may_be_told()
    ensures { (o : Origin) (es : List Event) (e : Event)
        → MayAllBeSaid (table_of o (es ++ e ∷ [])).openings (tellings o (table_of o es) (deed o e (table_of o es))) }
{}

/// How the running download goes on by the rule of each event.
pub fn a_download_goes_on()
    ensures { (o : Origin) (es : List Event) (e : Event) → IsCarriedOn o e (table_of o es) }
{}
