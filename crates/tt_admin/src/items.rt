//! The items of the messages that have several of them: types that may be asked for, and names of commands.
ghost use Rattle.std.specs.Prelude.{◌≡◌, ℕ, List, ◌++◌, length, take, OnErr, refl};
ghost use Rattle.tt_frame.specs.ItemForms.{Item, ItemFits, item_at};
ghost use Rattle.tt_frame.specs.Reading.{FieldRead};
ghost use Rattle.tt_frame.specs.Said.{each_said, item_said};
ghost use Rattle.tt_frame.specs.Families.{if_done};
ghost use Rattle.tt_admin.specs.Items.{update_type, command_name};

use std::marker::Model;
use tt_frame::{
    Bad, Fields, Items, ListItem, OutOfMemory, Part, PartWriter, Text, number16, tell, text,
};

/// A type that an admin may ask for, and the bits of when it may be told: 1 when it is polled, 2 each day, 4 each week, 8 each
/// month, 16 each quarter, 32 each year, 64 at once.
///
/// Contracts see it as an item of the message: the number of the type, and the bits.
#[derive(Clone, Copy, Debug, Default, PartialEq, Eq, PartialOrd, Ord, Hash)]
pub struct UpdateType {
    /// Its number.
    pub kind: u16,
    /// Its bits.
    pub bits: u16,
}

impl Model for UpdateType {
    ghost Value = { ℕ × (ℕ × Unit {0}) };

    ghost view = { λ t. (t.kind, (t.bits, tt)) };

    ghost inverse = { λ value. record { kind = value.0; bits = value.1.0 } };
}

impl ListItem for UpdateType {
    ghost fields = { update_type };

    ghost values = { λ t. t };

    ghost listed = { λ types. types };

    ghost none = { refl };

    ghost more = { λ types t. refl };

    ghost as_long = { λ types. refl };

    fn read(f: &mut Fields) -> Result<UpdateType, Bad> {
        Ok(UpdateType {
            kind: number16(f)?,
            bits: number16(f)?,
        })
    }

    fn tell<W: PartWriter>(&self, writer: &mut W) -> Result<(), OutOfMemory> {
        tell(writer, &[Part::U16(self.kind), Part::U16(self.bits)])
    }

    fn fits(&self) {
        let (_kind, _bits) = (self.kind, self.bits);
    }
}

/// At most 255 types.
pub type UpdateTypes = Items<UpdateType, 255>;

/// A command of a game: its code, and its name.
///
/// Contracts see it as an item of the message: the code, and the name.
#[derive(Debug, PartialEq, Eq, PartialOrd, Ord, Hash, Drop)]
pub struct CommandName {
    /// Its code.
    pub code: u16,
    /// Its name.
    pub name: Text<31>,
}

impl Model for CommandName {
    ghost Value = { ℕ × (List ℕ × Unit {0}) };

    ghost view = { λ command. (command.code, (command.name, tt)) };

    ghost inverse = { λ value. record { code = value.0; name = value.1.0 } };
}

impl ListItem for CommandName {
    ghost fields = { command_name };

    ghost values = { λ command. command };

    ghost listed = { λ commands. commands };

    ghost none = { refl };

    ghost more = { λ commands command. refl };

    ghost as_long = { λ commands. refl };

    fn read(f: &mut Fields) -> Result<CommandName, Bad> {
        Ok(CommandName {
            code: number16(f)?,
            name: text(f)?,
        })
    }

    fn tell<W: PartWriter>(&self, writer: &mut W) -> Result<(), OutOfMemory> {
        tell(
            writer,
            &[Part::U16(self.code), Part::Words(self.name.bytes())],
        )
    }

    fn fits(&self) {
        let _code = self.code;
        let _name = self.name.bytes();
    }
}

/// At most 255 commands.
pub type CommandNames = Items<CommandName, 255>;
