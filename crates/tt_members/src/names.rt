//! The name that a member gets: the one that it wants, with a number behind it where another member has it.
ghost use Rattle.std.specs.Prelude.{◌≡◌, ◌≢◌, ◌≤◌, ◌<◌, ◌^◌, ◌↔◌, [], true, false, not, ◌&&◌, bytes_eq, length, IfOk, IfErr, IsErrOf};
ghost use Rattle.std.specs.List.{list_any};
ghost use Rattle.tt_frame.specs.Text.{IsText, is_text};
ghost use Rattle.tt_log.specs.Member.{is_named};
ghost use Rattle.tt_log.specs.Names.{first_free_name, given_name, is_too_long, numbered};
ghost use Rattle.tt_log.specs.Table.{Table, is_on};
ghost use Rattle.tt_members.specs.Places.{seated};
ghost use Rattle.tt_members.specs.declared.names.NameBad.TheVariants.{Empty, InUse};

use crate::member::Member;
use arrayvec::ArrayVec;
use itoa::Buffer;
use thiserror::Error;
use tt_frame::Text;

/// How long a name with a number behind it may be: 24 bytes, two, and at most 20 digits.
const LONGEST: usize = 46;

/// Why a name is refused.
#[derive(Clone, Copy, Debug, PartialEq, Eq, Error)]
pub enum NameBad {
    /// It has no bytes.
    #[error("the name is empty")]
    Empty,
    /// Another member has it, and with the first free number behind it it passes 24 bytes.
    #[error("another member has the name")]
    InUse,
}

/// The name that the member on a connection gets where it wants this one: the same, where no other member past INACTIVE has
/// it, and else with the first free number behind it. It takes no memory.
pub fn name_for(wanted: &[u8], taken: &[Member], conn: u32) -> Result<Text<24>, NameBad>
    requires text { is_text 24 wanted.now ≡ true }
    ensures given { (t : Table) → IfOk result (λ name. name ≡ given_name (seated t taken.now) conn wanted.now) }
    ensures empty { IsErrOf result Empty ↔ (wanted.now ≡ []) }
    ensures in_use { (t : Table) → IsErrOf result InUse
        ↔ ((wanted.now ≢ []) × (is_too_long (given_name (seated t taken.now) conn wanted.now) ≡ true)) }
{
    if wanted.is_empty() {
        return Err(NameBad::Empty);
    }
    if !is_taken(wanted, taken, conn) {
        return as_name(wanted);
    }
    as_name(first_free(wanted, taken, conn).as_slice())
}

/// A text as a name, where it is not too long.
fn as_name(text: &[u8]) -> Result<Text<24>, NameBad>
    requires text { IsText text.now }
    ensures same { IfOk result (λ name. name ≡ text.now) }
    ensures long { IsErrOf result InUse ↔ (is_too_long text.now ≡ true) }
    ensures cause { IfErr result (λ bad. bad ≡ InUse) }
{
    match Text::new(text) {
        Some(name) => Ok(name),
        None => Err(NameBad::InUse),
    }
}

/// The first free one of the names with a number behind them: among one more than there are members one is free.
fn first_free(wanted: &[u8], taken: &[Member], conn: u32) -> ArrayVec<u8, LONGEST>
    requires text { IsText wanted.now }
    requires short { length wanted.now ≤ 24 }
    ensures text { IsText result.items }
    ensures free { (t : Table) → result.items ≡ first_free_name (seated t taken.now) conn wanted.now 1 (length taken.now) }
{
    for tried in 0..taken.len() {
        let name = numbered(wanted, tried + 1);
        if !is_taken(name.as_slice(), taken, conn) {
            return name;
        }
    }
    numbered(wanted, taken.len() + 1)
}

/// A name with a number behind it.
fn numbered(name: &[u8], number: usize) -> ArrayVec<u8, LONGEST>
    requires text { IsText name.now }
    requires short { length name.now ≤ 24 }
    ensures text { IsText result.items }
    ensures numbered { result.items ≡ numbered name.now number }
{
    let mut digits = Buffer::new();
    let mut text = ArrayVec::new();
    if text.try_extend_from_slice(name).is_err() {
        unreachable!();
    }
    if text.try_extend_from_slice(b" #").is_err() {
        unreachable!();
    }
    if text
        .try_extend_from_slice(digits.format(number).as_bytes())
        .is_err()
    {
        unreachable!();
    }
    text
}

/// Whether another member past INACTIVE has a name.
fn is_taken(name: &[u8], members: &[Member], conn: u32) -> bool
    ensures taken { result ≡ list_any (λ m. is_named m && not (is_on conn m) && bytes_eq m.name name.now) members.now }
{
    members.iter().any(|m| has_name(m, name, conn))
}

/// Whether a member is past INACTIVE, not on this connection, and has a name.
fn has_name(m: &Member, name: &[u8], conn: u32) -> bool
    ensures has { result ≡ (is_named m.now && not (is_on conn m.now) && bytes_eq m.now.name name.now) }
{
    m.is_named() && m.conn() != conn && m.name().bytes() == name
}
