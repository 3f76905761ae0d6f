//! One admin: its bits, and when they make it due.
ghost use Rattle.std.specs.Prelude.{◌≡◌, ◌<◌, ◌%◌, ◌&&◌, ◌==◌, slice_index, slice_set};
ghost use Rattle.tt_log.specs.Admin.{allowed_of, has_bit, is_due, may_be_polled, may_be_told, new_admin};

use std::marker::Model;

/// How many types of updates there are.
pub(crate) const TYPES: usize = 10;

/// The bits that may be set of each type, by its number.
const ALLOWED: [u16; TYPES] = [63, 65, 65, 61, 61, 64, 64, 1, 64, 64];

/// The bit of a type that may be asked for.
const POLLED: u16 = 1;

/// The bits of the periods.
const DAILY: u16 = 2;

const WEEKLY: u16 = 4;

const MONTHLY: u16 = 8;

const QUARTERLY: u16 = 16;

const ANNUALLY: u16 = 32;

/// An admin: a connection that came in by the side door and has not ended.
///
/// Contracts see it as the admin of the game's table.
#[derive(Clone, Copy, Debug, PartialEq, Eq)]
pub struct Admin {
    /// Its connection.
    pub conn: u32,
    /// The frame of its opening.
    pub since: u32,
    /// Whether its JOIN was allowed.
    pub joined: bool,
    /// Of each type of updates, by its number, the bits that are set.
    pub bits: [u16; TYPES],
}

impl Model for Admin {
    ghost use Rattle.tt_log.specs.Admin.{Admin};

    ghost Value = { Admin };

    ghost view = { λ a. record { conn = a.conn; since = a.since; joined = a.joined; bits = a.bits } };

    ghost inverse = { λ a. record { conn = a.conn; since = a.since; joined = a.joined; bits = a.bits } };
}

impl Admin {
    /// A connection that was just opened: no bit is set.
    pub(crate) fn new(conn: u32, since: u32) -> Admin
        ensures new { result ≡ new_admin conn since }
    {
        Admin {
            conn,
            since,
            joined: false,
            bits: [0; TYPES],
        }
    }

    /// The bits that are set of a type; none of a number that no type has.
    fn bits_of(&self, kind: u16) -> u16
        ensures bits { result ≡ slice_index self.now.bits kind }
    {
        let bits = &self.bits;
        let kind = usize::from(kind);
        if kind < bits.len() { bits[kind] } else { 0 }
    }

    /// The bits of a type are these from now on; of a number that no type has, nothing is set.
    pub(crate) fn set_bits(&mut self, kind: u16, bits: u16)
        ensures set { self.new ≡ record self.old { bits = slice_set self.old.bits kind bits } }
    {
        let kind = usize::from(kind);
        if kind < TYPES {
            self.bits[kind] = bits;
        }
    }

    /// Whether it has joined and a bit of the type is set whose period divides the day.
    pub(crate) fn is_due(&self, kind: u16, day: u32) -> bool
        ensures due { result ≡ self.now.joined && is_due day (slice_index self.now.bits kind) }
    {
        self.joined && is_due(day, self.bits_of(kind))
    }
}

/// Whether a type has this number, and these are bits of those that may be set.
pub(crate) fn may_be_told(kind: u16, bits: u16) -> bool
    ensures told { result ≡ may_be_told kind bits }
{
    usize::from(kind) < TYPES && bits & allowed(kind) == bits
}

/// Whether a type may be asked for.
pub(crate) fn may_be_polled(kind: u8) -> bool
    ensures polled { result ≡ may_be_polled kind }
{
    has_bit(POLLED, allowed(u16::from(kind)))
}

/// The bits that may be set of a type; none of a number that no type has.
fn allowed(kind: u16) -> u16
    ensures allowed { result ≡ allowed_of kind }
{
    let kind = usize::from(kind);
    if kind < TYPES { ALLOWED[kind] } else { 0 }
}

/// Whether a bit is set.
fn has_bit(bit: u16, bits: u16) -> bool
    ensures set { result ≡ has_bit bit bits }
{
    bits & bit != 0
}

/// Whether a bit is set whose period divides the day.
fn is_due(day: u32, bits: u16) -> bool
    ensures due { result ≡ is_due day bits }
{
    falls_on(day, bits, DAILY, 1)
        || falls_on(day, bits, WEEKLY, 7)
        || falls_on(day, bits, MONTHLY, 30)
        || falls_on(day, bits, QUARTERLY, 90)
        || falls_on(day, bits, ANNUALLY, 360)
}

/// Whether a bit is set, and so many days divide the day.
fn falls_on(day: u32, bits: u16, bit: u16, days: u32) -> bool
    requires some { 0 < days }
    ensures falls { result ≡ has_bit bit bits && (day % days == 0) }
{
    has_bit(bit, bits) && day % days == 0
}
