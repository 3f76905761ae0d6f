//! What follows for what a hub tells and keeps: laws over what it was made from and the events that it has taken.
ghost use Rattle.std.specs.Prelude.{◌≡◌, ◌==◌, ◌++◌, ◌∷◌, [], ℕ, List, Some, false, map};
ghost use Rattle.tt_admin.specs.declared.message.AdminMsg.TheVariants as admins;
ghost use Rattle.tt_edge.specs.declared.event.Event.{Event};
ghost use Rattle.tt_game.specs.declared.message.GameMsg.TheVariants as games;
ghost use Rattle.tt_log.specs.Admin.{Admin};
ghost use Rattle.tt_log.specs.Deed.{admin, game, spelled};
ghost use Rattle.tt_log.specs.Doors.{AdminEndsWith};
ghost use Rattle.tt_log.specs.Endings.{EndsWith, IsEcho};
ghost use Rattle.tt_log.specs.History.{table_of};
ghost use Rattle.tt_log.specs.Member.{Member};
ghost use Rattle.tt_log.specs.Stamps.{accepted, ordered, owned, stamped_of};
ghost use Rattle.tt_log.specs.Table.{member_of};
ghost use Rattle.tt_world.specs.declared.setup.Setup.{Setup};
ghost use Rattle.tt_world.specs.World.{WorldState};
ghost use Rattle.tt_hub.specs.Hub.{HubState, is_live, is_over, origin, origin_made, sent};
ghost use Rattle.tt_hub.specs.Isolation.{IsLast, SendsMore};

/// A packet that spells nothing, a stream of no packets, and a refusal end their own connection with their code. All others are
/// sent at most that it ended and what they have become in the queue; and that the game is over, where it is.
pub fn a_bad_packet_ends_its_own()
    ensures own { (made : Setup × WorldState) (es : List Event) (e : Event) (m : Member) (code : ℕ)
        → EndsWith (origin_made made) (table_of (origin_made made) es) e m code
        → sent made (es ++ e ∷ []) m.conn ≡ sent made es m.conn ++ spelled (game (games.ServerError code)) }
    ensures ended { (made : Setup × WorldState) (es : List Event) (e : Event) (m : Member) (code : ℕ)
        → EndsWith (origin_made made) (table_of (origin_made made) es) e m code → is_live made (es ++ e ∷ []) m.conn ≡ false }
    ensures others { (made : Setup × WorldState) (es : List Event) (e : Event) (m : Member) (code other : ℕ)
        → EndsWith (origin_made made) (table_of (origin_made made) es) e m code → (m.conn == other) ≡ false
        → SendsMore made es e other (IsEcho m code (is_over made (es ++ e ∷ []))) }
    // Where the game goes on, they live on.
    ensures live { (made : Setup × WorldState) (es : List Event) (e : Event) (m : Member) (code other : ℕ)
        → EndsWith (origin_made made) (table_of (origin_made made) es) e m code → is_over made (es ++ e ∷ []) ≡ false
        → (m.conn == other) ≡ false → is_live made (es ++ e ∷ []) other ≡ is_live made es other }
{}

/// So it is of an admin, and nobody else is sent anything but that the game is over, where it is.
pub fn a_bad_packet_of_an_admin_ends_its_own()
    ensures own { (made : Setup × WorldState) (es : List Event) (e : Event) (a : Admin) (code : ℕ)
        → AdminEndsWith (origin_made made) (table_of (origin_made made) es) e a code
        → sent made (es ++ e ∷ []) a.conn ≡ sent made es a.conn ++ spelled (admin (admins.ServerError code)) }
    ensures ended { (made : Setup × WorldState) (es : List Event) (e : Event) (a : Admin) (code : ℕ)
        → AdminEndsWith (origin_made made) (table_of (origin_made made) es) e a code → is_live made (es ++ e ∷ []) a.conn ≡ false }
    ensures others { (made : Setup × WorldState) (es : List Event) (e : Event) (a : Admin) (code other : ℕ)
        → AdminEndsWith (origin_made made) (table_of (origin_made made) es) e a code → (a.conn == other) ≡ false
        → SendsMore made es e other (IsLast (is_over made (es ++ e ∷ []))) }
{}

/// Each command of a player was stamped once: of the journal, its own are, in order, the front of what was accepted of its
/// connection, and the rest waits. Of what the server ordered itself it is the same.
pub fn stamped_once()
    ensures clients { (h : HubState) (conn : ℕ) (m : Member) → member_of (table_of (origin h) h.events) conn ≡ Some m
        → accepted (origin h) h.events conn ≡ stamped_of m.client (table_of (origin h) h.events).journal ++ m.waiting }
    ensures servers { (h : HubState) → map owned (ordered (origin h) h.events)
        ≡ stamped_of 1 (table_of (origin h) h.events).journal ++ map owned (table_of (origin h) h.events).own }
{}
