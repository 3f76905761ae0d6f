//! The files that are looked up, as GC_NEWGRF_LOOKUP lists them.
ghost use Rattle.std.specs.Prelude.{◌≡◌, List, length, take, ◌++◌, OnErr, refl};
ghost use Rattle.tt_frame.specs.FieldForms.{Named};
ghost use Rattle.tt_frame.specs.ItemForms.{Item, ItemFits, item_at};
ghost use Rattle.tt_frame.specs.Reading.{FieldRead};
ghost use Rattle.tt_frame.specs.Said.{each_said, item_said};
ghost use Rattle.tt_frame.specs.Families.{if_done};
ghost use Rattle.tt_coord.specs.Items.{file};

use std::marker::Model;
use tt_frame::{
    Bad, Fields, Items, ListItem, OutOfMemory, Part, PartWriter, Text, array_bytes, number32, raw,
    tell, text,
};

/// A file that is looked up.
///
/// Contracts see it as an item of the message: its fields in order.
#[derive(Debug, PartialEq, Eq, Drop)]
pub struct LookupFile {
    /// Its index.
    pub index: u32,
    /// Its number.
    pub id: u32,
    /// The sum over its content.
    pub sum: [u8; 16],
    /// Its name.
    pub name: Text<31>,
}

impl Model for LookupFile {
    ghost use Rattle.std.specs.Prelude.{ℕ, List};

    ghost Value = { ℕ × (ℕ × (List ℕ × (List ℕ × Unit {0}))) };

    ghost view = { λ file. (file.index, (file.id, (file.sum, (file.name, tt)))) };

    ghost inverse = { λ value. record { index = value.0; id = value.1.0; sum = value.1.1.0; name = value.1.1.1.0 } };
}

/// At most 62 files.
pub type LookupFiles = Items<LookupFile, 62>;

impl ListItem for LookupFile {
    ghost fields = { file };

    ghost values = { λ file. file };

    ghost listed = { λ files. files };

    fn read(f: &mut Fields) -> Result<LookupFile, Bad> {
        Ok(LookupFile {
            index: number32(f)?,
            id: number32(f)?,
            sum: raw(f)?,
            name: text(f)?,
        })
    }

    fn tell<W: PartWriter>(&self, to: &mut W) -> Result<(), OutOfMemory> {
        tell(
            to,
            &[
                Part::U32(self.index),
                Part::U32(self.id),
                Part::Raw(&self.sum),
                Part::Words(self.name.bytes()),
            ],
        )
    }

    fn fits(&self) {
        let _index = self.index;
        let _id = self.id;
        let _sum = array_bytes(&self.sum);
        let _name = self.name.bytes();
    }

    ghost none = { refl };

    ghost more = { λ xs x. refl };

    ghost as_long = { λ xs. refl };
}
