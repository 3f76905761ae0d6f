//! The admins that are there.
ghost use Rattle.std.specs.Prelude.{◌≡◌, [], ◌∷◌, find, not, Some, None, IfOk, IsSome, OnErr, OnOk};
ghost use Rattle.tt_world.specs.World.{WorldState};
ghost use Rattle.tt_log.specs.Admin.{Admin as TableAdmin};
ghost use Rattle.tt_log.specs.Desk.{admin_arrives};
ghost use Rattle.tt_log.specs.Table.{Table, is_admin_on, without_admin};
ghost use Rattle.tt_admin_desk.specs.Hearing.{begun, hears};
ghost use Rattle.tt_admin_desk.specs.Seats.{committed, is_full, opening, placed, seats, told_on};

use crate::admin::Admin;
use crate::heard::{Heard, heard_of};
use std::alloc::Global;
use std::marker::Model;
use tt_admin::AdminMsg;
use tt_frame::OutOfMemory;
use tt_world::Setup;

/// How many admins may be there.
const MOST_ADMINS: usize = 16;

/// The admins that are there, in order of arrival.
///
/// Contracts see it as the admins of the game's table. Where a clause speaks of each table `t`, only the admins of `t` matter.
#[derive(Drop)]
pub struct Desk {
    admins: Vec<Admin>,
}

impl Model for Desk {
    ghost use Rattle.std.specs.Prelude.{List};
    ghost use Rattle.tt_log.specs.Admin.{Admin};

    ghost Value = { List Admin };

    ghost view = { λ desk. desk.admins.items };
}

impl Desk {
    /// Nobody is there. It takes no memory.
    pub fn new(alloc: Global) -> Desk
        ensures empty { result ≡ [] }
    {
        Desk {
            admins: Vec::new(alloc),
        }
    }

    /// A connection comes in, at this frame: it stands behind the others. False exactly where sixteen are there, and then it
    /// is no admin. At an error nothing has changed.
    pub fn open(&mut self, conn: u32, since: u32) -> Result<bool, OutOfMemory>
        ensures room { IfOk result (λ stays. stays ≡ not (is_full self.old)) }
        ensures arrives { (t : Table) → OnOk result (self.new
            ≡ (admin_arrives (is_full self.old) (opening conn since (seats self.old t))).table.admins) }
        ensures err { OnErr result (self.new ≡ self.old) }
    {
        if self.admins.len() >= MOST_ADMINS {
            return Ok(false);
        }
        self.admins.push(Admin::new(conn, since))?;
        Ok(true)
    }

    /// A connection has ended: it is an admin no longer.
    pub fn close(&mut self, conn: u32)
        ensures closed { (t : Table) → self.new ≡ (without_admin conn (seats self.old t)).admins }
    {
        self.admins.retain(|admin| {
            let admin: &Admin = admin;
            admin.conn != conn
        });
    }

    /// The admins that are there, in order of arrival.
    pub fn all(&self) -> &[Admin]
        ensures all { result.now ≡ self.now }
    {
        self.admins.as_slice()
    }

    /// What a message of an admin that is there asks for, or the code that ends it. Nothing changes.
    pub fn heard(&self, setup: &Setup, conn: u32, msg: &AdminMsg) -> Heard
        requires live { IsSome (find (is_admin_on conn) self.now) }
        ensures heard { (start : WorldState) (a : TableAdmin) → find (is_admin_on conn) self.now ≡ Some a
            → result ≡ hears (begun setup.now start) a msg.now }
    {
        match admin_on(&self.admins, conn) {
            Some(admin) => heard_of(setup, &admin, msg),
            None => unreachable!(),
        }
    }

    /// Puts in force what was heard of an admin that is there: that it has joined, and its bits of a type. All else leaves the
    /// desk as it is; an admin that leaves or is ended is taken away by `close`.
    pub fn commit(&mut self, conn: u32, heard: &Heard)
        ensures committed { (t : Table) (a : TableAdmin) → find (is_admin_on conn) self.old ≡ Some a
            → self.new ≡ (committed heard.now a (seats self.old t)).admins }
        // Where nobody is on the connection, nothing changes.
        ensures absent { find (is_admin_on conn) self.old ≡ None → self.new ≡ self.old }
    {
        let Some(mut admin) = admin_on(&self.admins, conn) else {
            return;
        };
        match heard {
            Heard::Joined => {
                admin.joined = true;
                place(&mut self.admins, admin);
            }
            Heard::Bits { kind, bits } => {
                admin.set_bits(*kind, *bits);
                place(&mut self.admins, admin);
            }
            _ => {}
        }
    }

    /// Whether an admin is told of a type of updates on a day: it is there, has joined, and a bit of the type is set whose
    /// period divides the day.
    pub fn due(&self, conn: u32, kind: u16, day: u32) -> bool
        ensures due { result ≡ told_on day kind (find (is_admin_on conn) self.now) }
    {
        match admin_on(&self.admins, conn) {
            Some(admin) => admin.is_due(kind, day),
            None => false,
        }
    }
}

/// The admin on a connection.
fn admin_on(admins: &[Admin], conn: u32) -> Option<Admin>
    ensures found { result ≡ find (is_admin_on conn) admins.now }
{
    for admin in admins.iter() {
        if admin.conn == conn {
            return Some(*admin);
        }
    }
    None
}

/// An admin takes the place of the one on its connection.
fn place(admins: &mut [Admin], next: Admin)
    ensures placed { admins.new ≡ placed next admins.old }
{
    for admin in admins.iter_mut() {
        place_one(admin, next);
    }
}

/// An admin takes the place of another one, if that is on its connection.
fn place_one(admin: &mut Admin, next: Admin)
    ensures placed { admin.new ∷ [] ≡ placed next (admin.old ∷ []) }
{
    if admin.conn == next.conn {
        *admin = next;
    }
}
