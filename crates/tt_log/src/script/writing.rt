//! What printing writes a line with: a word, and parts behind it.
ghost use Rattle.std.specs.Prelude.{◌≡◌, ◌++◌, ◌∷◌, [], OnOk};
ghost use Rattle.std.specs.Fmt.{decimal};
ghost use Rattle.hex.specs.Hex.{encode_lower};
ghost use Rattle.tt_log.specs.Forms.{text_spelled};
ghost use Rattle.tt_log.specs.Written.{part_text, behind_blank, parts_text};

use itoa::Buffer;
use std::alloc::Global;
use tt_frame::OutOfMemory;

/// A part of a line behind its first word.
#[derive(Clone, Copy)]
pub enum Part<'a> {
    /// A number in decimal.
    Number(u64),
    /// A text in hexadecimal digits, or a dash.
    Text(&'a [u8]),
    /// Bytes in hexadecimal digits.
    Hex(&'a [u8]),
    /// Bytes as they are.
    Plain(&'a [u8]),
}

/// Appends a number in decimal.
fn put_number(out: &mut Vec<u8>, n: u64) -> Result<(), OutOfMemory>
    ensures ok { OnOk result (out.new.items ≡ out.old.items ++ decimal n) }
{
    let mut buffer = Buffer::new();
    out.extend_from_slice(buffer.format(n).as_bytes())?;
    Ok(())
}

/// Appends bytes as pairs of digits.
fn put_hex(alloc: Global, out: &mut Vec<u8>, bytes: &[u8]) -> Result<(), OutOfMemory>
    ensures ok { OnOk result (out.new.items ≡ out.old.items ++ encode_lower bytes.now) }
{
    let digits = hex::encode(alloc, bytes)?;
    out.extend_from_slice(digits.as_bytes())?;
    Ok(())
}

/// Appends a text as pairs of digits, or a dash for the empty one.
fn put_text(alloc: Global, out: &mut Vec<u8>, bytes: &[u8]) -> Result<(), OutOfMemory>
    ensures ok { OnOk result (out.new.items ≡ out.old.items ++ text_spelled bytes.now) }
{
    if bytes.is_empty() {
        out.push(b'-')?;
        return Ok(());
    }
    put_hex(alloc, out, bytes)
}

/// Appends a part.
fn put_part(alloc: Global, out: &mut Vec<u8>, part: &Part) -> Result<(), OutOfMemory>
    ensures ok { OnOk result (out.new.items ≡ out.old.items ++ part_text part.now) }
{
    match part {
        Part::Number(n) => put_number(out, *n),
        Part::Text(bytes) => put_text(alloc, out, bytes),
        Part::Hex(bytes) => put_hex(alloc, out, bytes),
        Part::Plain(bytes) => {
            out.extend_from_slice(bytes)?;
            Ok(())
        }
    }
}

/// Appends a blank and a part.
fn put_behind(alloc: Global, out: &mut Vec<u8>, part: &Part) -> Result<(), OutOfMemory>
    ensures ok { OnOk result (out.new.items ≡ out.old.items ++ behind_blank part.now) }
{
    out.push(b' ')?;
    put_part(alloc, out, part)
}

/// Appends parts, each behind a blank.
fn put_parts(alloc: Global, out: &mut Vec<u8>, parts: &[Part]) -> Result<(), OutOfMemory>
    ensures ok { OnOk result (out.new.items ≡ out.old.items ++ parts_text parts.now) }
{
    for part in parts {
        if let Err(e) = put_behind(alloc, out, part) {
            return Err(e);
        }
    }
    Ok(())
}

/// Appends a line: its word, its parts, and a line feed.
pub fn put_line(
    alloc: Global,
    out: &mut Vec<u8>,
    word: &[u8],
    parts: &[Part],
) -> Result<(), OutOfMemory>
    ensures ok { OnOk result (out.new.items ≡ out.old.items ++ ((word.now ++ parts_text parts.now) ++ 10 ∷ [])) }
{
    out.extend_from_slice(word)?;
    put_parts(alloc, out, parts)?;
    out.push(b'\n')?;
    Ok(())
}
