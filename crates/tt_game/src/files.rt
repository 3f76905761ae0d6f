//! The files of a game, as SERVER_CHECK_NEWGRFS lists them.
ghost use Rattle.std.specs.Prelude.{◌≡◌, ℕ, List, ◌++◌, length, take, OnErr, refl};
ghost use Rattle.tt_frame.specs.FieldForms.{Named};
ghost use Rattle.tt_frame.specs.ItemForms.{Item, ItemFits, item_at};
ghost use Rattle.tt_frame.specs.Reading.{FieldRead};
ghost use Rattle.tt_frame.specs.Said.{each_said, item_said};
ghost use Rattle.tt_frame.specs.Families.{if_done};
ghost use Rattle.tt_game.specs.Items.{file};

use std::marker::Model;
use tt_frame::{Bad, Fields, Items, ListItem, OutOfMemory, Part, PartWriter, number32, raw, tell};

/// A file of a game: its number, and the sum over its content.
///
/// Contracts see it as an item of the message: the number, and the 16 bytes.
#[derive(Clone, Copy, Debug, Default, PartialEq, Eq, PartialOrd, Ord, Hash)]
pub struct File {
    /// Its number.
    pub id: u32,
    /// The sum over its content.
    pub sum: [u8; 16],
}

impl Model for File {
    ghost Value = { ℕ × (List ℕ × Unit {0}) };

    ghost view = { λ file. (file.id, (file.sum, tt)) };

    ghost inverse = { λ value. record { id = value.0; sum = value.1.0 } };
}

impl ListItem for File {
    ghost fields = { file };

    ghost values = { λ file. file };

    ghost listed = { λ files. files };

    ghost none = { refl };

    ghost more = { λ files file. refl };

    ghost as_long = { λ files. refl };

    fn read(f: &mut Fields) -> Result<File, Bad> {
        Ok(File {
            id: number32(f)?,
            sum: raw(f)?,
        })
    }

    fn tell<W: PartWriter>(&self, to: &mut W) -> Result<(), OutOfMemory> {
        tell(to, &[Part::U32(self.id), Part::Raw(&self.sum)])
    }

    fn fits(&self) {
        // A file that is read is known to have a number of 32 bits and a sum of 16 bytes.
        let (_id, _sum) = (self.id, self.sum);
    }
}

/// At most 62 files.
pub type Files = Items<File, 62>;
