//! Who is told a step.
ghost use Rattle.std.specs.Prelude.{◌≡◌, ◌&&◌, IfOk, slice_index};
ghost use Rattle.tt_log.specs.Admin.{is_automatic, has_bit, automatic_bit};
ghost use Rattle.tt_members.specs.Steps.{watching};

use std::alloc::Global;
use tt_admin_desk::Admin;
use tt_frame::OutOfMemory;

/// The bit of a type that is told at once with an event.
const AUTOMATIC: u16 = 64;

/// The admins that are told a type of updates at once, in order of arrival, by their connections.
pub(crate) fn watching(alloc: Global, admins: &[Admin], kind: u16) -> Result<Vec<u32>, OutOfMemory>
    ensures conns { IfOk result (λ conns. conns.items ≡ watching kind admins.now) }
{
    let mut conns = Vec::new(alloc);
    for admin in admins {
        if is_automatic(admin, kind) {
            conns.push(admin.conn)?;
        }
    }
    Ok(conns)
}

/// Whether an admin is told a type of updates at once.
fn is_automatic(admin: &Admin, kind: u16) -> bool
    ensures automatic { result ≡ is_automatic kind admin.now }
{
    admin.joined && has_automatic(bits_of(admin, kind))
}

/// Whether the bit is set.
fn has_automatic(bits: u16) -> bool
    ensures set { result ≡ has_bit automatic_bit bits }
{
    bits & AUTOMATIC != 0
}

/// The bits that are set of a type; none of a number that no type has.
fn bits_of(admin: &Admin, kind: u16) -> u16
    ensures bits { result ≡ slice_index admin.now.bits kind }
{
    let bits = &admin.bits;
    let kind = usize::from(kind);
    if kind < bits.len() { bits[kind] } else { 0 }
}
