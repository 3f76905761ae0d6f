//! What holds of all messages. These functions do nothing: their contracts are the laws.
ghost use Rattle.std.specs.Prelude.{◌≡◌, ◌≢◌, ℕ, ◌+◌, ◌<◌, ◌≤◌, ◌^◌, List, ◌++◌, length, Ok};
ghost use Rattle.tt_frame.specs.Packet.{Packet, packet, largest_packet, largest_sent};
ghost use Rattle.tt_frame.specs.Framing.{BeginsWith};
ghost use Rattle.tt_frame.specs.Unread.{whole};
ghost use Rattle.tt_frame.specs.Tables.{read_by};
ghost use Rattle.tt_coord.specs.Coord.{coord_messages, CoordSpells};
ghost use Rattle.tt_coord.specs.declared.coord.CoordMsg.{CoordMsg};
ghost use Rattle.tt_coord.specs.Stun.{stun_messages, StunSpells};
ghost use Rattle.tt_coord.specs.declared.stun.StunMsg.{StunMsg};
ghost use Rattle.tt_coord.specs.Turn.{turn_messages, TurnSpells};
ghost use Rattle.tt_coord.specs.declared.turn.TurnMsg.{TurnMsg};

/// A message has one spelling.
pub fn one_spelling()
    ensures coord { (m : CoordMsg) (kind other : ℕ) (body bytes : List ℕ)
        → CoordSpells m kind body → CoordSpells m other bytes → (kind ≡ other) × (body ≡ bytes) }
    ensures stun { (m : StunMsg) (kind other : ℕ) (body bytes : List ℕ)
        → StunSpells m kind body → StunSpells m other bytes → (kind ≡ other) × (body ≡ bytes) }
    ensures turn { (m : TurnMsg) (kind other : ℕ) (body bytes : List ℕ)
        → TurnSpells m kind body → TurnSpells m other bytes → (kind ≡ other) × (body ≡ bytes) }
{}

/// A message's packet has at most 32,767 bytes, and at most 1,460 but for the two lists: of servers (5) and of files (15).
pub fn small_packets()
    ensures coord { (m : CoordMsg) (kind : ℕ) (body : List ℕ) → CoordSpells m kind body → length body + 3 ≤ largest_packet }
    ensures stun { (m : StunMsg) (kind : ℕ) (body : List ℕ) → StunSpells m kind body → length body + 3 ≤ largest_packet }
    ensures turn { (m : TurnMsg) (kind : ℕ) (body : List ℕ) → TurnSpells m kind body → length body + 3 ≤ largest_packet }
    ensures coord_sent { (m : CoordMsg) (kind : ℕ) (body : List ℕ) → CoordSpells m kind body → kind ≢ 5 → kind ≢ 15
        → length body + 3 ≤ largest_sent }
    ensures stun_sent { (m : StunMsg) (kind : ℕ) (body : List ℕ) → StunSpells m kind body → length body + 3 ≤ largest_sent }
    ensures turn_sent { (m : TurnMsg) (kind : ℕ) (body : List ℕ) → TurnSpells m kind body → length body + 3 ≤ largest_sent }
{}

/// What is spelled is read.
pub fn round_trip()
    ensures coord { (m : CoordMsg) (kind : ℕ) (body : List ℕ) → CoordSpells m kind body → read_by coord_messages kind (whole body) ≡ Ok m }
    ensures stun { (m : StunMsg) (kind : ℕ) (body : List ℕ) → StunSpells m kind body → read_by stun_messages kind (whole body) ≡ Ok m }
    ensures turn { (m : TurnMsg) (kind : ℕ) (body : List ℕ) → TurnSpells m kind body → read_by turn_messages kind (whole body) ≡ Ok m }
    // So is the first packet of a stream that begins with the message's packet, whatever follows it.
    ensures coord_followed { (m : CoordMsg) (kind : ℕ) (body more : List ℕ) (limit : ℕ) (p : Packet) (rest : List ℕ)
        → CoordSpells m kind body → length body + 3 ≤ limit → limit < 2 ^ 16
        → BeginsWith limit (packet kind body ++ more) p rest
        → (read_by coord_messages p.kind (whole p.body) ≡ Ok m) × (rest ≡ more) }
    ensures stun_followed { (m : StunMsg) (kind : ℕ) (body more : List ℕ) (limit : ℕ) (p : Packet) (rest : List ℕ)
        → StunSpells m kind body → length body + 3 ≤ limit → limit < 2 ^ 16
        → BeginsWith limit (packet kind body ++ more) p rest
        → (read_by stun_messages p.kind (whole p.body) ≡ Ok m) × (rest ≡ more) }
    ensures turn_followed { (m : TurnMsg) (kind : ℕ) (body more : List ℕ) (limit : ℕ) (p : Packet) (rest : List ℕ)
        → TurnSpells m kind body → length body + 3 ≤ limit → limit < 2 ^ 16
        → BeginsWith limit (packet kind body ++ more) p rest
        → (read_by turn_messages p.kind (whole p.body) ≡ Ok m) × (rest ≡ more) }
{}
