//! What a text is made of: plain bytes, numbers in decimal, and bytes in hexadecimal digits.
ghost use Rattle.std.specs.Prelude.{◌≡◌, ◌++◌, OnOk, OnErr};
ghost use Rattle.tt_lines.specs.Digits.{bytes_text};

use itoa::{Buffer, Integer};
use std::alloc::Global;
use tt_frame::OutOfMemory;

/// Appends bytes, or nothing where memory runs out.
pub fn put(text: &mut Vec<u8>, bytes: &[u8]) -> Result<(), OutOfMemory>
    ensures text { OnOk result (text.new.items ≡ text.old.items ++ bytes.now) }
    ensures err { OnErr result (text.new.items ≡ text.old.items) }
{
    text.extend_from_slice(bytes)?;
    Ok(())
}

/// Appends a number in decimal, with a minus where it is below 0, or nothing where memory runs out.
pub fn put_number<I: Integer>(text: &mut Vec<u8>, number: I) -> Result<(), OutOfMemory>
    ensures text { OnOk result (text.new.items ≡ text.old.items ++ I.text number) }
    ensures err { OnErr result (text.new.items ≡ text.old.items) }
{
    let mut buffer = Buffer::new();
    put(text, buffer.format(number).as_bytes())
}

/// Appends bytes in hexadecimal digits, or a dash for none; or nothing where memory runs out.
pub fn put_bytes(alloc: Global, text: &mut Vec<u8>, bytes: &[u8]) -> Result<(), OutOfMemory>
    ensures text { OnOk result (text.new.items ≡ text.old.items ++ bytes_text bytes.now) }
    ensures err { OnErr result (text.new.items ≡ text.old.items) }
{
    if bytes.is_empty() {
        return put(text, b"-");
    }
    let digits = hex::encode(alloc, bytes)?;
    put(text, digits.as_bytes())
}
