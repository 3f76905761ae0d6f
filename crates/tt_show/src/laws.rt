//! What the line of a packet is. These functions do nothing: their contracts are the laws.
ghost use Rattle.std.specs.Prelude.{◌≡◌, ℕ, List, Some};
ghost use Rattle.tt_frame.specs.Packet.{IsBytes};
ghost use Rattle.tt_game.specs.declared.message.GameMsg.{GameMsg};
ghost use Rattle.tt_game.specs.Messages.{Spells as GameSpells};
ghost use Rattle.tt_admin.specs.declared.message.AdminMsg.{AdminMsg};
ghost use Rattle.tt_admin.specs.Messages.{Spells as AdminSpells};
ghost use Rattle.tt_coord.specs.declared.coord.CoordMsg.{CoordMsg};
ghost use Rattle.tt_coord.specs.Coord.{CoordSpells};
ghost use Rattle.tt_coord.specs.declared.stun.StunMsg.{StunMsg};
ghost use Rattle.tt_coord.specs.Stun.{StunSpells};
ghost use Rattle.tt_coord.specs.declared.turn.TurnMsg.{TurnMsg};
ghost use Rattle.tt_coord.specs.Turn.{TurnSpells};
ghost use Rattle.tt_show.specs.declared.family.Family.TheVariants.{Game, Admin, Coord, Stun, Turn};
ghost use Rattle.tt_lines.specs.Lines.{lines_of, IsFirstBad};
ghost use Rattle.tt_show.specs.Lists.{IsList};
ghost use Rattle.tt_show.specs.Packets.{game, admin, coord, stun, turn, message_text, packet_text};

/// The line of a packet of a game is the line of the message that it spells, and only a packet that spells one has a line.
pub fn one_line()
    ensures line { (m : GameMsg) (kind : ℕ) (body : List ℕ) → GameSpells m kind body
        → packet_text Game (record { kind = kind; body = body }) ≡ Some (message_text game m) }
    ensures only { (kind : ℕ) (body line : List ℕ) → IsBytes body → packet_text Game (record { kind = kind; body = body }) ≡ Some line
        → (m : GameMsg) × GameSpells m kind body × (line ≡ message_text game m) }
{}

/// The line of a packet between an admin and the server is the line of the message that it spells, and only a packet that
/// spells one has a line.
pub fn one_admin_line()
    ensures line { (m : AdminMsg) (kind : ℕ) (body : List ℕ) → AdminSpells m kind body
        → packet_text Admin (record { kind = kind; body = body }) ≡ Some (message_text admin m) }
    ensures only { (kind : ℕ) (body line : List ℕ) → IsBytes body → packet_text Admin (record { kind = kind; body = body }) ≡ Some line
        → (m : AdminMsg) × AdminSpells m kind body × (line ≡ message_text admin m) }
{}

/// The line of a packet of the coordinator is the line of the message that it spells, and only a packet that spells one has a line.
pub fn one_coord_line()
    ensures line { (m : CoordMsg) (kind : ℕ) (body : List ℕ) → CoordSpells m kind body
        → packet_text Coord (record { kind = kind; body = body }) ≡ Some (message_text coord m) }
    ensures only { (kind : ℕ) (body line : List ℕ) → IsBytes body → packet_text Coord (record { kind = kind; body = body }) ≡ Some line
        → (m : CoordMsg) × CoordSpells m kind body × (line ≡ message_text coord m) }
{}

/// The line of a packet to the STUN desk is the line of the message that it spells, and only a packet that spells one has a line.
pub fn one_stun_line()
    ensures line { (m : StunMsg) (kind : ℕ) (body : List ℕ) → StunSpells m kind body
        → packet_text Stun (record { kind = kind; body = body }) ≡ Some (message_text stun m) }
    ensures only { (kind : ℕ) (body line : List ℕ) → IsBytes body → packet_text Stun (record { kind = kind; body = body }) ≡ Some line
        → (m : StunMsg) × StunSpells m kind body × (line ≡ message_text stun m) }
{}

/// The line of a packet of the TURN server is the line of the message that it spells, and only a packet that spells one has a line.
pub fn one_turn_line()
    ensures line { (m : TurnMsg) (kind : ℕ) (body : List ℕ) → TurnSpells m kind body
        → packet_text Turn (record { kind = kind; body = body }) ≡ Some (message_text turn m) }
    ensures only { (kind : ℕ) (body line : List ℕ) → IsBytes body → packet_text Turn (record { kind = kind; body = body }) ≡ Some line
        → (m : TurnMsg) × TurnSpells m kind body × (line ≡ message_text turn m) }
{}

/// An input has at most one first bad line: what `show` answers by `Line` is determined by the input.
pub fn one_bad_line()
    ensures { (input : List ℕ) (l k : ℕ) → IsFirstBad IsList (lines_of input) l → IsFirstBad IsList (lines_of input) k → l ≡ k }
{}
