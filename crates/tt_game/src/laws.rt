//! What holds of all messages. These functions do nothing: their contracts are the laws.
ghost use Rattle.std.specs.Prelude.{◌≡◌, ℕ, ◌+◌, ◌<◌, ◌≤◌, ◌^◌, List, ◌++◌, length, Ok};
ghost use Rattle.tt_frame.specs.Packet.{Packet, packet, largest_sent};
ghost use Rattle.tt_frame.specs.Framing.{BeginsWith};
ghost use Rattle.tt_frame.specs.Unread.{whole};
ghost use Rattle.tt_frame.specs.Tables.{read_by};
ghost use Rattle.tt_game.specs.Messages.{messages, Spells};
ghost use Rattle.tt_game.specs.declared.message.GameMsg.{GameMsg};

/// A message has one spelling.
pub fn one_spelling()
    ensures { (m : GameMsg) (kind other : ℕ) (body bytes : List ℕ)
        → Spells m kind body → Spells m other bytes → (kind ≡ other) × (body ≡ bytes) }
{}

/// A message's packet has at most 1,460 bytes: as many as a program of this project sends in one packet.
pub fn small_packets()
    ensures { (m : GameMsg) (kind : ℕ) (body : List ℕ) → Spells m kind body → length body + 3 ≤ largest_sent }
{}

/// What is spelled is read.
pub fn round_trip()
    ensures whole { (m : GameMsg) (kind : ℕ) (body : List ℕ) → Spells m kind body → read_by messages kind (whole body) ≡ Ok m }
    // So is the first packet of a stream that begins with the message's packet, whatever follows it.
    ensures followed { (m : GameMsg) (kind : ℕ) (body more : List ℕ) (limit : ℕ) (p : Packet) (rest : List ℕ)
        → Spells m kind body → length body + 3 ≤ limit → limit < 2 ^ 16
        → BeginsWith limit (packet kind body ++ more) p rest
        → (read_by messages p.kind (whole p.body) ≡ Ok m) × (rest ≡ more) }
{}
