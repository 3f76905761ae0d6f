//! What a decoder of messages calls: a field, or the place where it isn't.
//!
//! A message's fields are one struct literal of these, `text(f)?`, `number32(f)?` and so on in the order of its row; `ended`
//! sees that nothing stands behind them.
ghost use Rattle.std.specs.Prelude.{◌≡◌, ℕ, ◌≤◌, Result, Err, IfOk};
ghost use Rattle.tt_frame.specs.declared.bad.Bad.TheVariants.{Memory};
ghost use Rattle.std.specs.Int.{w8, w16, w32, w64};
ghost use Rattle.tt_frame.specs.Reading.{FieldRead, number_at, within_at, truth_at, text_at, digest_at, optional_digest_at, raw_at};
ghost use Rattle.tt_frame.specs.Reading.{fixed_at, FixedRead};
ghost use Rattle.tt_frame.specs.Tables.{MessageRead, MessageReadOrMemory, FieldsRead, FieldsReadOrMemory};

use crate::bad::Bad;
use crate::digests::Digest;
use crate::fields::Fields;
use crate::ranges::UpTo;
use crate::texts::Text;

/// A number of one byte.
pub fn number8(f: &mut Fields) -> Result<u8, Bad>
    ensures { FieldRead (λ n. n) result f.new (number_at w8 f.old) }
{
    match f.u8() {
        Some(n) => Ok(n),
        None => Err(Bad::Malformed { at: f.at() }),
    }
}

/// A number of two bytes.
pub fn number16(f: &mut Fields) -> Result<u16, Bad>
    ensures { FieldRead (λ n. n) result f.new (number_at w16 f.old) }
{
    match f.u16() {
        Some(n) => Ok(n),
        None => Err(Bad::Malformed { at: f.at() }),
    }
}

/// A number of four bytes.
pub fn number32(f: &mut Fields) -> Result<u32, Bad>
    ensures { FieldRead (λ n. n) result f.new (number_at w32 f.old) }
{
    match f.u32() {
        Some(n) => Ok(n),
        None => Err(Bad::Malformed { at: f.at() }),
    }
}

/// A number of eight bytes.
pub fn number64(f: &mut Fields) -> Result<u64, Bad>
    ensures { FieldRead (λ n. n) result f.new (number_at w64 f.old) }
{
    match f.u64() {
        Some(n) => Ok(n),
        None => Err(Bad::Malformed { at: f.at() }),
    }
}

/// A byte that is 0 for false or 1 for true.
pub fn truth(f: &mut Fields) -> Result<bool, Bad>
    ensures { FieldRead (λ b. b) result f.new (truth_at f.old) }
{
    match f.bool() {
        Some(b) => Ok(b),
        None => Err(Bad::Malformed { at: f.at() }),
    }
}

/// A number of one byte from 0 to `M`.
#[tactic(auto, unfolding(crate::specs::Reading::within_at))]
pub fn up_to<const M: u8>(f: &mut Fields) -> Result<UpTo<M>, Bad>
    ensures { FieldRead (λ n. n) result f.new (within_at w8 M f.old) }
{
    let at = f.at();
    let v = number8(f)?;
    match UpTo::new(v) {
        Some(n) => Ok(n),
        None => Err(Bad::Malformed { at }),
    }
}

/// A number of two bytes from 0 to `max`.
#[tactic(auto, unfolding(crate::specs::Reading::within_at))]
pub fn number16_up_to(f: &mut Fields, max: u16) -> Result<u16, Bad>
    ensures read { FieldRead (λ n. n) result f.new (within_at w16 max f.old) }
    ensures few { IfOk result (λ n. n ≤ max) }
{
    let at = f.at();
    let n = number16(f)?;
    if n > max {
        return Err(Bad::Malformed { at });
    }
    Ok(n)
}

/// A byte that is always this one, and that a message doesn't keep.
#[tactic(auto, unfolding(crate::specs::Reading::fixed_at))]
pub fn fixed(f: &mut Fields, byte: u8) -> Result<(), Bad>
    ensures { FixedRead result f.new (fixed_at byte f.old) }
{
    let at = f.at();
    if number8(f)? != byte {
        return Err(Bad::Malformed { at });
    }
    Ok(())
}

/// A text of at most `N` bytes.
#[tactic(auto, unfolding(crate::specs::Reading::text_at))]
pub fn text<const N: usize>(f: &mut Fields) -> Result<Text<N>, Bad>
    ensures { FieldRead (λ t. t) result f.new (text_at N f.old) }
{
    let Some(bytes) = f.ahead(N) else {
        return Err(Bad::Malformed { at: f.at() });
    };
    match Text::new(bytes) {
        Some(text) => {
            f.pass(bytes.len() + 1);
            Ok(text)
        }
        None => Err(Bad::Malformed { at: f.at() }),
    }
}

/// A digest.
pub fn digest(f: &mut Fields) -> Result<Digest, Bad>
    ensures { FieldRead (λ digest. digest) result f.new (digest_at f.old) }
{
    match f.digest() {
        Some(digest) => Ok(digest),
        None => Err(Bad::Malformed { at: f.at() }),
    }
}

/// A digest, or None where the text in its place is empty.
pub fn optional_digest(f: &mut Fields) -> Result<Option<Digest>, Bad>
    ensures { FieldRead (λ digest. digest) result f.new (optional_digest_at f.old) }
{
    match f.optional_digest() {
        Some(digest) => Ok(digest),
        None => Err(Bad::Malformed { at: f.at() }),
    }
}

/// The next `N` bytes, as they are.
pub fn raw<const N: usize>(f: &mut Fields) -> Result<[u8; N], Bad>
    ensures { FieldRead (λ bytes. bytes) result f.new (raw_at N f.old) }
{
    let mut kept = [0; N];
    match f.raw(N) {
        Some(bytes) => {
            kept.copy_from_slice(bytes);
            Ok(kept)
        }
        None => Err(Bad::Malformed { at: f.at() }),
    }
}

/// The message whose fields were read, where nothing stands behind the last of them.
pub fn ended<M: Drop>(fields: Result<M, Bad>, f: &Fields) -> Result<M, Bad>
    ensures read { (reading : Result M ℕ) → FieldsRead fields f.now reading → MessageRead result reading }
    ensures or_memory { (reading : Result M ℕ) → FieldsReadOrMemory fields f.now reading → MessageReadOrMemory result reading }
    ensures memory { result ≡ Err Memory → fields ≡ Err Memory }
{
    match fields {
        Ok(message) => {
            if f.done() {
                Ok(message)
            } else {
                Err(Bad::Malformed { at: f.at() })
            }
        }
        Err(e) => Err(e),
    }
}

/// A message whose fields are read in order, each by its reader: `read!(f; GameMsg::ServerSync { frame: number32, word: number32 })`.
#[macro_export]
macro_rules! read {
    ($f:ident; $message:ident::$variant:ident { $($field:ident: $reader:ident),+ }) => {
        Ok($message::$variant { $($field: $reader($f)?),+ })
    };
}
