//! The families that are shown.
ghost use Rattle.std.specs.Prelude.{◌≡◌, ℕ, List, length, take, ◌++◌, OnOk, OnErr};
ghost use Rattle.tt_frame.specs.Unread.{whole};
ghost use Rattle.tt_frame.specs.Tables.{MessageReadOrMemory, SpelledBy, name_by, read_by};
ghost use Rattle.tt_frame.specs.Said.{each_said};
ghost use Rattle.tt_frame.specs.Families.{family_kind, family_said};
ghost use Rattle.tt_frame.proofs.FamilyLaws.{kind_is};
ghost use Rattle.tt_game.specs.declared.message.GameMsg.{GameMsg};
ghost use Rattle.tt_game.specs.Apart.{game_family};
ghost use Rattle.tt_game.proofs.MessageLaws.{game_lawful};
ghost use Rattle.tt_admin.specs.declared.message.AdminMsg.{AdminMsg};
ghost use Rattle.tt_admin.specs.Apart.{admin_family};
ghost use Rattle.tt_admin.proofs.MessageLaws.{admin_lawful};
ghost use Rattle.tt_coord.specs.declared.coord.CoordMsg.{CoordMsg};
ghost use Rattle.tt_coord.specs.Coord.{coord_family};
ghost use Rattle.tt_coord.proofs.CoordLaws.{coord_lawful};
ghost use Rattle.tt_coord.specs.declared.stun.StunMsg.{StunMsg};
ghost use Rattle.tt_coord.specs.Stun.{stun_family};
ghost use Rattle.tt_coord.proofs.StunLaws.{stun_lawful};
ghost use Rattle.tt_coord.specs.declared.turn.TurnMsg.{TurnMsg};
ghost use Rattle.tt_coord.specs.Turn.{turn_family};
ghost use Rattle.tt_coord.proofs.TurnLaws.{turn_lawful};

use crate::shown::Shown;
use std::alloc::Global;
use tt_admin::AdminMsg;
use tt_coord::{CoordMsg, StunMsg, TurnMsg};
use tt_frame::{Bad, OutOfMemory, PartWriter};
use tt_game::GameMsg;

impl Shown for GameMsg {
    ghost family = { game_family };

    fn read(alloc: Global, kind: u8, body: &[u8]) -> Result<GameMsg, Bad> {
        GameMsg::decode(alloc, kind, body)
    }

    fn name(kind: u8) -> &'static [u8] {
        GameMsg::name_of(kind)
    }

    fn tell_to<W: PartWriter>(&self, to: &mut W) -> Result<(), OutOfMemory> {
        self.tell(to)
    }

    ghost same_kind = { λ m kind body spelled. kind_is GameMsg game_family game_lawful m kind body spelled };
}

impl Shown for AdminMsg {
    ghost family = { admin_family };

    fn read(alloc: Global, kind: u8, body: &[u8]) -> Result<AdminMsg, Bad> {
        AdminMsg::decode(alloc, kind, body)
    }

    fn name(kind: u8) -> &'static [u8] {
        AdminMsg::name_of(kind)
    }

    fn tell_to<W: PartWriter>(&self, to: &mut W) -> Result<(), OutOfMemory> {
        self.tell(to)
    }

    ghost same_kind = { λ m kind body spelled. kind_is AdminMsg admin_family admin_lawful m kind body spelled };
}

impl Shown for CoordMsg {
    ghost family = { coord_family };

    fn read(alloc: Global, kind: u8, body: &[u8]) -> Result<CoordMsg, Bad> {
        CoordMsg::decode(alloc, kind, body)
    }

    fn name(kind: u8) -> &'static [u8] {
        CoordMsg::name_of(kind)
    }

    fn tell_to<W: PartWriter>(&self, to: &mut W) -> Result<(), OutOfMemory> {
        self.tell(to)
    }

    ghost same_kind = { λ m kind body spelled. kind_is CoordMsg coord_family coord_lawful m kind body spelled };
}

impl Shown for StunMsg {
    ghost family = { stun_family };

    fn read(alloc: Global, kind: u8, body: &[u8]) -> Result<StunMsg, Bad> {
        StunMsg::decode(alloc, kind, body)
    }

    fn name(kind: u8) -> &'static [u8] {
        StunMsg::name_of(kind)
    }

    fn tell_to<W: PartWriter>(&self, to: &mut W) -> Result<(), OutOfMemory> {
        self.tell(to)
    }

    ghost same_kind = { λ m kind body spelled. kind_is StunMsg stun_family stun_lawful m kind body spelled };
}

impl Shown for TurnMsg {
    ghost family = { turn_family };

    fn read(alloc: Global, kind: u8, body: &[u8]) -> Result<TurnMsg, Bad> {
        TurnMsg::decode(alloc, kind, body)
    }

    fn name(kind: u8) -> &'static [u8] {
        TurnMsg::name_of(kind)
    }

    fn tell_to<W: PartWriter>(&self, to: &mut W) -> Result<(), OutOfMemory> {
        self.tell(to)
    }

    ghost same_kind = { λ m kind body spelled. kind_is TurnMsg turn_family turn_lawful m kind body spelled };
}
