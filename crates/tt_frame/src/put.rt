//! A writer of fields: each call appends exactly one field to a vector, or leaves it as it was.
ghost use Rattle.std.specs.Prelude.{◌≡◌, ◌++◌, length, OnOk, OnErr};
ghost use Rattle.std.specs.Int.{w8, w16, w32, w64, to_le_bytes};
ghost use Rattle.tt_frame.specs.Text.{IsText, text_bytes};
ghost use Rattle.tt_frame.specs.FieldForms.{truth_number};

use crate::memory::OutOfMemory;

/// Appends fields to a vector.
pub struct Put;

impl Put {
    /// The bytes as they are.
    pub fn raw(out: &mut Vec<u8>, v: &[u8]) -> Result<(), OutOfMemory>
        ensures ok { OnOk result (out.new.items ≡ out.old.items ++ v.now) }
        ensures err { OnErr result (out.new.items ≡ out.old.items) }
    {
        out.extend_from_slice(v)?;
        Ok(())
    }

    /// One byte.
    pub fn u8(out: &mut Vec<u8>, v: u8) -> Result<(), OutOfMemory>
        ensures ok { OnOk result (out.new.items ≡ out.old.items ++ to_le_bytes w8 v) }
        ensures err { OnErr result (out.new.items ≡ out.old.items) }
    {
        Put::raw(out, &v.to_le_bytes())
    }

    /// Two bytes, the low one first.
    pub fn u16(out: &mut Vec<u8>, v: u16) -> Result<(), OutOfMemory>
        ensures ok { OnOk result (out.new.items ≡ out.old.items ++ to_le_bytes w16 v) }
        ensures err { OnErr result (out.new.items ≡ out.old.items) }
    {
        Put::raw(out, &v.to_le_bytes())
    }

    /// Four bytes, the low one first.
    pub fn u32(out: &mut Vec<u8>, v: u32) -> Result<(), OutOfMemory>
        ensures ok { OnOk result (out.new.items ≡ out.old.items ++ to_le_bytes w32 v) }
        ensures err { OnErr result (out.new.items ≡ out.old.items) }
    {
        Put::raw(out, &v.to_le_bytes())
    }

    /// Eight bytes, the low one first.
    pub fn u64(out: &mut Vec<u8>, v: u64) -> Result<(), OutOfMemory>
        ensures ok { OnOk result (out.new.items ≡ out.old.items ++ to_le_bytes w64 v) }
        ensures err { OnErr result (out.new.items ≡ out.old.items) }
    {
        Put::raw(out, &v.to_le_bytes())
    }

    /// One byte: 1 for true, 0 for false.
    pub fn bool(out: &mut Vec<u8>, v: bool) -> Result<(), OutOfMemory>
        ensures ok { OnOk result (out.new.items ≡ out.old.items ++ to_le_bytes w8 (truth_number v)) }
        ensures err { OnErr result (out.new.items ≡ out.old.items) }
    {
        Put::u8(out, v as u8)
    }

    /// A text, and a zero byte behind it.
    pub fn text(out: &mut Vec<u8>, v: &[u8]) -> Result<(), OutOfMemory>
        requires { IsText v.now }
        ensures ok { OnOk result (out.new.items ≡ out.old.items ++ text_bytes v.now) }
        ensures err { OnErr result (out.new.items ≡ out.old.items) }
    {
        out.reserve(v.len() + 1)?;
        out.extend_from_slice(v)?;
        out.push_reserved(0);
        Ok(())
    }
}
