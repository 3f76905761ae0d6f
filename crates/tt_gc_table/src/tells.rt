//! What an event is going to tell: bytes for connections, in order. They are made before anything is changed.
ghost use Rattle.std.specs.Prelude.{◌≡◌, ◌++◌, ◌∷◌, [], ℕ, OnOk, IfOk};
ghost use Rattle.tt_gc_table.specs.declared.setup.GcSetup.{GcSetup};
ghost use Rattle.tt_gc_table.specs.Deed.{tells};
ghost use Rattle.tt_gc_table.specs.Told.{bytes_to};
ghost use Rattle.tt_gc_table.specs.Tells.{told_to};

use crate::parts::Parts;
use std::alloc::Global;
use std::marker::Model;
use tt_coord::CoordMsg;
use tt_frame::OutOfMemory;

/// Bytes for a connection.
#[derive(Drop)]
pub struct Tell {
    pub conn: u32,
    bytes: Vec<u8>,
}

impl Model for Tell {
    ghost use Rattle.tt_gc_table.specs.Tells as book;

    ghost Value = { book.Tell };

    ghost view = { λ t. record { conn = t.conn; bytes = t.bytes.items } };
}

impl Tell {
    /// The bytes.
    pub fn bytes(&self) -> &[u8]
        ensures { result.now ≡ self.now.bytes }
    {
        self.bytes.as_slice()
    }
}

/// Bytes for connections.
#[derive(Drop)]
pub struct Tells {
    tells: Vec<Tell>,
}

impl Model for Tells {
    ghost use Rattle.std.specs.Prelude.{List};
    ghost use Rattle.tt_gc_table.specs.Tells.{Tell};

    ghost Value = { List Tell };

    ghost view = { λ t. t.tells.items };
}

impl Tells {
    /// Nothing is told. It takes no memory.
    pub fn new(alloc: Global) -> Tells
        ensures { result ≡ [] }
    {
        Tells {
            tells: Vec::new(alloc),
        }
    }

    /// All of them, in order.
    pub fn as_slice(&self) -> &[Tell]
        ensures { result.now ≡ self.now }
    {
        self.tells.as_slice()
    }

    /// A connection is told a message, if it is live.
    pub fn tell(
        &mut self,
        alloc: Global,
        parts: &Parts,
        conn: u32,
        message: &CoordMsg,
    ) -> Result<(), OutOfMemory>
        ensures told { OnOk result ((c : ℕ) → told_to c self.new
            ≡ told_to c self.old ++ bytes_to c (tells (conn ∷ []) message.now parts.now).told) }
    {
        let told = &mut self.tells;
        if !parts.is_live(conn) {
            return Ok(());
        }
        let mut bytes = Vec::new(alloc);
        message.encode(&mut bytes)?;
        told.push(Tell { conn, bytes })?;
        Ok(())
    }

    /// Two connections are told one message, each if it is live.
    pub fn both(
        &mut self,
        alloc: Global,
        parts: &Parts,
        first: u32,
        second: u32,
        message: &CoordMsg,
    ) -> Result<(), OutOfMemory>
        ensures told { OnOk result ((c : ℕ) → told_to c self.new
            ≡ told_to c self.old ++ bytes_to c (tells (first ∷ second ∷ []) message.now parts.now).told) }
    {
        self.tell(alloc, parts, first, message)?;
        self.tell(alloc, parts, second, message)?;
        Ok(())
    }
}
