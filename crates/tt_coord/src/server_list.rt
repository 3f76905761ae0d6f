//! The servers that are listed, as GC_LISTING tells them.
ghost use Rattle.std.specs.Prelude.{◌≡◌, List, length, take, ◌++◌, OnErr, refl};
ghost use Rattle.tt_frame.specs.FieldForms.{Named};
ghost use Rattle.tt_frame.specs.ItemForms.{Item, ItemFits, item_at};
ghost use Rattle.tt_frame.specs.Reading.{FieldRead};
ghost use Rattle.tt_frame.specs.Said.{each_said, item_said};
ghost use Rattle.tt_frame.specs.Families.{if_done};
ghost use Rattle.tt_coord.specs.Items.{listed};

use crate::info::Info;
use std::marker::Model;
use tt_frame::{
    Bad, Fields, Items, ListItem, OutOfMemory, Part, PartWriter, Text, number8, number32, tell,
    text, truth,
};

/// A server that is listed: its code, and what it says of its game.
///
/// Contracts see it as an item of the message: the code, and then the game's fields in order.
#[derive(Debug, PartialEq, Eq, Drop)]
pub struct Listed {
    /// Its code.
    pub code: Text<31>,
    /// What it says of its game.
    pub info: Info,
}

impl Model for Listed {
    ghost use Rattle.std.specs.Prelude.{ℕ, Bool, List};

    ghost Value = { List ℕ × (List ℕ × (List ℕ × (ℕ × (ℕ × (ℕ × (Bool × (ℕ × Unit {0}))))))) };

    ghost view = { λ server. (
      server.code,
      (
        server.info.name,
        (
          server.info.revision,
          (
            server.info.clients,
            (
              server.info.max,
              (server.info.companies, (server.info.password, (server.info.frame, tt))),
            ),
          ),
        ),
      ),
    ) };

    ghost inverse = { λ value. record {
      code = value.0;
      info = record {
        name = value.1.0;
        revision = value.1.1.0;
        clients = value.1.1.1.0;
        max = value.1.1.1.1.0;
        companies = value.1.1.1.1.1.0;
        password = value.1.1.1.1.1.1.0;
        frame = value.1.1.1.1.1.1.1.0;
      };
    } };
}

/// At most 255 servers.
pub type Servers = Items<Listed, 255>;

impl ListItem for Listed {
    ghost fields = { listed };

    ghost values = { λ server. server };

    ghost listed = { λ servers. servers };

    fn read(f: &mut Fields) -> Result<Listed, Bad> {
        Ok(Listed {
            code: text(f)?,
            info: Info {
                name: text(f)?,
                revision: text(f)?,
                clients: number8(f)?,
                max: number8(f)?,
                companies: number8(f)?,
                password: truth(f)?,
                frame: number32(f)?,
            },
        })
    }

    fn tell<W: PartWriter>(&self, to: &mut W) -> Result<(), OutOfMemory> {
        let info = &self.info;
        tell(
            to,
            &[
                Part::Words(self.code.bytes()),
                Part::Words(info.name.bytes()),
                Part::Words(info.revision.bytes()),
                Part::U8(info.clients),
                Part::U8(info.max),
                Part::U8(info.companies),
                Part::Truth(info.password),
                Part::U32(info.frame),
            ],
        )
    }

    fn fits(&self) {
        let info = &self.info;
        let _clients = info.clients;
        let _max = info.max;
        let _companies = info.companies;
        let _frame = info.frame;
        let _code = self.code.bytes();
        let _name = info.name.bytes();
        let _revision = info.revision.bytes();
    }

    ghost none = { refl };

    ghost more = { λ xs x. refl };

    ghost as_long = { λ xs. refl };
}
