//! Facts of the definitions that whoever stands on a stream or a table needs, for every origin and every list of events.
ghost use Rattle.std.specs.Prelude.{◌≡◌, ◌≤◌, ◌<◌, ◌+◌, ◌++◌, ◌==◌, true, false, Some, ◌^◌, ℕ, List, length};
ghost use Rattle.std.specs.List.{AllByRecursion};
ghost use Rattle.tt_edge.specs.declared.event.Event.{Event};
ghost use Rattle.tt_log.specs.Answered.{open_token, tokens_answered, tokens_told};
ghost use Rattle.tt_log.specs.Deed.{game};
ghost use Rattle.tt_log.specs.Downloads.{AreMapped, IsQueue};
ghost use Rattle.tt_log.specs.History.{AreEvents, journal_of, table_of};
ghost use Rattle.tt_log.specs.Member.{Member, is_named};
ghost use Rattle.tt_log.specs.Origin.{IsOrigin, Origin};
ghost use Rattle.tt_log.specs.PacketRules.{told_command};
ghost use Rattle.tt_log.specs.Ranges.{FitsEntry, FitsMember};
ghost use Rattle.tt_log.specs.Seats.{AreSeated, Lives, LockLive, WaitForLive};
ghost use Rattle.tt_log.specs.Senders.{IsKnown, IsOfSender};
ghost use Rattle.tt_log.specs.Spelled.{AreSpelled, IsReadAgain, IsSmall, IsSpelled};
ghost use Rattle.tt_log.specs.Table.{living_in, member_of};
ghost use Rattle.tt_log.specs.Told.{heard};
ghost use Rattle.tt_world.specs.declared.command.Command.{Command};
ghost use Rattle.tt_world.specs.declared.command.Entry.{Entry};

/// Each message that is told fits its row: what is sent spells it, who reads that reads the same message, and no packet has more
/// than 1,460 bytes.
pub fn all_is_spelled()
    ensures spelled { (o : Origin) (es : List Event) (conn : ℕ) → IsOrigin o → AreEvents es → AreSpelled (heard o es conn) }
    ensures read { (o : Origin) (es : List Event) (conn : ℕ) → IsOrigin o → AreEvents es → AllByRecursion IsReadAgain (heard o es conn) }
    ensures small { (o : Origin) (es : List Event) (conn : ℕ) → IsOrigin o → AreEvents es → AllByRecursion IsSmall (heard o es conn) }
{}

/// Client numbers are few, since each opening costs 64 and no game goes on at its cost.
pub fn few_clients()
    ensures { (o : Origin) (es : List Event) → IsOrigin o → (table_of o es).clients ≤ 2 ^ 24 + 1 }
{}

/// Each entry of the journal has a known code: the server orders pauses and new companies, and clients all else. What is told
/// of it has its spelling, so each that is told it makes the same command of it.
pub fn entries_are_of_senders()
    ensures senders { (o : Origin) (es : List Event) → AllByRecursion IsOfSender (journal_of o es) }
    ensures known { (c : Command) → IsKnown c }
    ensures spelled { (o : Origin) (es : List Event) → IsOrigin o → AreEvents es
        → AllByRecursion (λ (e : Entry). IsSpelled (game (told_command e))) (journal_of o es) }
{}

/// The first of the queue is told its map, or has it and has not entered yet; all others wait.
pub fn first_in_queue_downloads()
    ensures { (o : Origin) (es : List Event) → IsQueue (table_of o es) (table_of o es).queue }
{}

/// What of a table goes into messages is in range: client numbers and commands, the entries of the journal, and the name of each
/// member, which is a text of 1 to 24 bytes.
pub fn tables_are_in_range()
    ensures members { (o : Origin) (es : List Event) → IsOrigin o → AreEvents es → AllByRecursion FitsMember (table_of o es).members }
    ensures journal { (o : Origin) (es : List Event) → IsOrigin o → AreEvents es → AllByRecursion FitsEntry (journal_of o es) }
    ensures top { (o : Origin) (es : List Event) → IsOrigin o → (table_of o es).top + 1 < 2 ^ 32 }
{}

/// No two members past INACTIVE have one name.
pub fn names_differ()
    ensures { (o : Origin) (es : List Event) (x y : Member) (c d : ℕ) → IsOrigin o → member_of (table_of o es) c ≡ Some x
        → member_of (table_of o es) d ≡ Some y → (c == d) ≡ false → is_named x ≡ true → is_named y ≡ true → x.name ≡ y.name → ⊥ }
{}

/// At most one token of a member is open, and a token that was told and not given back is the open one.
pub fn tokens_are_answered()
    // What a member was told is, in order, what it gave back, and then its open token, if one is open.
    ensures open { (o : Origin) (es : List Event) (conn : ℕ) (m : Member) → member_of (table_of o es) conn ≡ Some m
        → tokens_told o es conn ≡ tokens_answered o es conn ++ open_token m }
    // Whatever has come of a connection, also where its member has ended: what it gave back is a prefix of what it was told.
    ensures ended { (o : Origin) (es : List Event) (conn : ℕ)
        → (rest : List ℕ) × (tokens_told o es conn ≡ tokens_answered o es conn ++ rest) × (length rest ≤ 1) }
    // At most one more was told than was given back.
    ensures one { (o : Origin) (es : List Event) (conn : ℕ)
        → length (tokens_told o es conn) ≤ length (tokens_answered o es conn) + 1 }
{}

/// Each company of which a table speaks lives: a member is in one that lives, or in none; commands wait for companies that live;
/// and only companies that live have a password.
pub fn companies_live()
    ensures members { (o : Origin) (es : List Event) → AreSeated o (table_of o es) }
    ensures waiting { (o : Origin) (es : List Event) → WaitForLive o (table_of o es) }
    ensures digests { (o : Origin) (es : List Event) → LockLive o (table_of o es) }
    // And whatever comes behind, a company that lives goes on living.
    ensures lasts { (o : Origin) (es fs : List Event) (company : ℕ) → Lives (living_in o (table_of o es)) company
        → Lives (living_in o (table_of o (es ++ fs))) company }
{}

/// The map of a member is that of no later frame than the table's, and of an earlier one once it was told whole; and until then
/// bytes of it are left: it has more than 1,400 for each piece that was told.
pub fn downloads_are_on_their_way()
    ensures { (o : Origin) (es : List Event) → AreMapped o (table_of o es) }
{}
