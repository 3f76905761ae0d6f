//! A map that is written in pieces of any sizes.
ghost use Rattle.std.specs.Prelude.{◌≡◌, ◌≤◌, ◌<◌, ◌^◌, ◌+◌, ◌-◌, ◌++◌, length, take, drop, min};
ghost use Rattle.tt_world.specs.World.{WorldState};
ghost use Rattle.tt_world.specs.Sound.{IsSound};
ghost use Rattle.tt_map.specs.declared.version.Version.TheVariants.{Second};
ghost use Rattle.tt_map.specs.Layout.{body_of, CMPY, SIGN, map_of};
ghost use Rattle.tt_map.specs.Writing.{Writing, unwritten, begun, size_given, given, wrote, IsAt};
ghost use Rattle.tt_map.specs.declared.place.Place.TheVariants.{Front};

use crate::pieces;
use crate::place::Place;
use std::marker::Model;
use tt_world::{COMPANIES, World};

/// How many bytes of a map are written, and where that is: so many bytes of the piece at a place are written.
#[derive(Clone, Copy, Debug, PartialEq, Eq)]
struct Cursor {
    written: u32,
    place: Place,
    within: usize,
}

/// A writer of a world's map, into room of any sizes.
///
/// It owns the world, and makes each piece of the map as it is asked for, so the map's bytes never stand anywhere as a
/// whole. `size` is the map's length; `write` gives the next bytes, until `left` is 0. No call takes memory. Contracts see
/// it as the world and the number of bytes that are written.
#[derive(Drop)]
pub struct MapWriter {
    world: World,
    companies: u32,
    signs: u32,
    size: u32,
    cursor: Cursor,
}

impl Model for MapWriter {
    ghost use Rattle.std.specs.Prelude.{◌≡◌, ◌≤◌, length};
    ghost use Rattle.tt_map.specs.declared.version.Version.TheVariants.{Second};
    ghost use Rattle.tt_map.specs.Layout.{body_of, CMPY, SIGN, map_of};
    ghost use Rattle.tt_map.specs.Writing.{Writing, IsAt};

    ghost Value = { Writing };

    ghost view = { λ writer. record { world = writer.world; written = writer.cursor.written } };

    ghost invariant = { λ writer.
        (writer.companies ≡ length (body_of Second CMPY writer.world.companies))
        × (writer.signs ≡ length (body_of Second SIGN writer.world.signs))
        × (writer.size ≡ length (map_of writer.world))
        × IsAt writer.world writer.cursor.written writer.cursor.place writer.cursor.within };
}

/// The length of the body of the companies.
fn companies_length(world: &World) -> u32
    ensures length { result ≡ length (body_of Second CMPY world.now.companies) }
    ensures fits { result ≤ 1216 }
{
    let _signs = world.signs();
    let mut size = 1;
    for n in 0..COMPANIES as u8 {
        size += pieces::place(n, world.company(n)).len() as u32;
    }
    size
}

/// The length of the body of the signs.
fn signs_length(world: &World) -> u32
    ensures length { result ≡ length (body_of Second SIGN world.now.signs) }
    ensures fits { result ≤ 39002 }
    ensures sound { IsSound world.now }
{
    let mut size = 2;
    for sign in world.signs() {
        size += pieces::sign(sign).len() as u32;
    }
    size
}

/// Puts bytes at a place, as many as there is room for, and answers how many.
fn put_at(out: &mut [u8], at: usize, bytes: &[u8]) -> usize
    requires { at ≤ length out.old }
    ensures count { result ≡ min (length bytes.now) (length out.old - at) }
    ensures bytes { out.new ≡ take at out.old ++ take result bytes.now ++ drop (at + result) out.old }
{
    let n = bytes.len().min(out.len() - at);
    out[at..at + n].copy_from_slice(&bytes[..n]);
    n
}

/// Writes from the cursor on, as much as there is room for or is left.
fn write_on(world: &World, companies: u32, signs: u32, cursor: &mut Cursor, out: &mut [u8]) -> usize
    requires companies { companies ≡ length (body_of Second CMPY world.now.companies) }
    requires signs { signs ≡ length (body_of Second SIGN world.now.signs) }
    requires fits { length (map_of world.now) < 2 ^ 32 }
    requires at { IsAt world.now cursor.old.written cursor.old.place cursor.old.within }
    ensures count { result ≡ min (length out.old) (length (map_of world.now) - cursor.old.written) }
    ensures bytes { out.new ≡ take result (drop cursor.old.written (map_of world.now)) ++ drop result out.old }
    ensures written { cursor.new.written ≡ cursor.old.written + result }
    ensures at { IsAt world.now cursor.new.written cursor.new.place cursor.new.within }
{
    // A world whose signs are read is known to be sound.
    let _signs = world.signs();
    let mut filled = 0;
    while cursor.place != Place::Over {
        let piece = pieces::piece(world, companies, signs, cursor.place);
        let rest = &piece.as_slice()[cursor.within..];
        let n = put_at(out, filled, rest);
        filled += n;
        cursor.written += n as u32;
        if n < rest.len() {
            cursor.within += n;
            return filled;
        }
        cursor.place = pieces::next(world, cursor.place);
        cursor.within = 0;
    }
    filled
}

impl MapWriter {
    /// A writer that has written nothing yet.
    pub fn new(world: World) -> MapWriter
        ensures { result ≡ begun world }
    {
        let companies = companies_length(&world);
        let signs = signs_length(&world);
        let cursor = Cursor {
            written: 0,
            place: Place::Front,
            within: 0,
        };
        MapWriter {
            world,
            companies,
            signs,
            size: 62 + companies + signs,
            cursor,
        }
    }

    /// The length of the map.
    pub fn size(&self) -> u32
        ensures { result ≡ length (map_of self.now.world) }
    {
        self.size
    }

    /// Writes the next bytes, as many as there is room for or are left, and answers how many. The room behind them stays
    /// as it is.
    pub fn write(&mut self, out: &mut [u8]) -> usize
        ensures count { result ≡ size_given (length out.old) self.old }
        ensures bytes { out.new ≡ given (length out.old) self.old ++ drop result out.old }
        ensures now { self.new ≡ wrote (length out.old) self.old }
    {
        write_on(
            &self.world,
            self.companies,
            self.signs,
            &mut self.cursor,
            out,
        )
    }

    /// How many bytes are left.
    pub fn left(&self) -> u32
        ensures { result ≡ length (unwritten self.now) }
    {
        self.size - self.cursor.written
    }
}
