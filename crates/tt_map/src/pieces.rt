//! The pieces of a map, each made on the stack.
ghost use Rattle.std.specs.Prelude.{◌≡◌, ◌≤◌, ◌+◌, ◌++◌, ◌∷◌, [], length, option_copied};
ghost use Rattle.std.specs.List.{flat_map};
ghost use Rattle.tt_map.specs.declared.version.Version.TheVariants.{Second};
ghost use Rattle.tt_map.specs.Layout.{text_body, i64, u32, live_from, company_bytes, sign_bytes, body_of, chunk, part_of, CMPY, SIGN, ENDC};
ghost use Rattle.tt_map.specs.Writing.{piece_at, next};
ghost use Rattle.tt_map.specs.declared.place.Place.TheVariants.{Front, Between};

use crate::encoding::{game_body, live_count, words_body};
use crate::place::Place;
use crate::version::{SECOND_NUMBER, TAG};
use arrayvec::ArrayVec;
use tt_frame::Name;
use tt_world::{COMPANIES, Company, Sign, World};

/// The bytes of a piece.
pub(crate) type Piece = ArrayVec<u8, 88>;

/// Bytes more.
fn put(piece: &mut Piece, bytes: &[u8])
    requires { length piece.old.items + length bytes.now ≤ 88 }
    ensures items { piece.new.items ≡ piece.old.items ++ bytes.now }
    ensures length { length piece.new.items ≡ length piece.old.items + length bytes.now }
{
    match piece.try_extend_from_slice(bytes) {
        Ok(()) => (),
        Err(_) => unreachable!(),
    }
}

/// A chunk: its tag, the length of its body, and the front of the body.
fn put_chunk(piece: &mut Piece, tag: &[u8; 4], size: u32, body: &[u8])
    requires { length piece.old.items + 8 + length body.now ≤ 88 }
    ensures items { piece.new.items ≡ piece.old.items ++ (tag.now ++ u32 size ++ body.now) }
    ensures length { length piece.new.items ≡ length piece.old.items + 8 + length body.now }
{
    put(piece, tag);
    put(piece, &size.to_be_bytes());
    put(piece, body);
}

/// A text behind its length.
fn put_name(piece: &mut Piece, name: &Name)
    requires { length piece.old.items + 32 ≤ 88 }
    ensures items { piece.new.items ≡ piece.old.items ++ text_body name.now }
    ensures length { length piece.new.items ≤ length piece.old.items + 32 }
{
    let text = name.bytes();
    put(piece, &[text.len() as u8]);
    put(piece, text);
}

/// The number of a company, its money, its loan and the greatest one.
fn put_sums(piece: &mut Piece, number: u8, company: &Company)
    requires { length piece.old.items + 17 ≤ 88 }
    ensures items { piece.new.items ≡ piece.old.items ++ (number ∷ i64 company.now.money ++ u32 company.now.loan ++ u32 company.now.most) }
    ensures length { length piece.new.items ≡ length piece.old.items + 17 }
{
    put(piece, &[number]);
    put(piece, &company.money.to_be_bytes());
    put(piece, &company.loan.to_be_bytes());
    put(piece, &company.most.to_be_bytes());
}

/// A company behind its number.
fn company(number: u8, company: &Company) -> Piece
    ensures { result.items ≡ company_bytes Second (number, company.now) }
{
    let mut piece = Piece::new();
    put_sums(&mut piece, number, company);
    put_name(&mut piece, &company.name);
    put_name(&mut piece, &company.president);
    piece
}

/// The company at a place, where there is one.
pub(crate) fn place(number: u8, found: Option<&Company>) -> Piece
    ensures { result.items ≡ flat_map (company_bytes Second) (live_from number (option_copied found.entry ∷ [])) }
{
    match found {
        Some(found) => company(number, found),
        None => Piece::new(),
    }
}

/// A sign.
pub(crate) fn sign(sign: &Sign) -> Piece
    ensures { result.items ≡ sign_bytes sign.now }
{
    let mut piece = Piece::new();
    put(&mut piece, &sign.id.to_be_bytes());
    put(&mut piece, &[sign.owner]);
    put(&mut piece, &sign.tile.to_be_bytes());
    put_name(&mut piece, &sign.text);
    piece
}

/// What stands before the companies.
fn front(world: &World, companies: u32) -> Piece
    requires { companies ≡ length (body_of Second CMPY world.now.companies) }
    ensures { result.items ≡ piece_at world.now Front }
{
    let _signs = world.signs();
    let mut piece = Piece::new();
    put(&mut piece, &TAG);
    put(&mut piece, &SECOND_NUMBER.to_be_bytes());
    put_chunk(&mut piece, b"GAME", 6, &game_body(world));
    put_chunk(&mut piece, b"RAND", 8, &words_body(world.random()));
    put_chunk(&mut piece, b"CMPY", companies, &[live_count(world)]);
    piece
}

/// What stands before the signs.
fn between(world: &World, signs: u32) -> Piece
    requires { signs ≡ length (body_of Second SIGN world.now.signs) }
    ensures { result.items ≡ piece_at world.now Between }
{
    let count = world.signs().len() as u16;
    let mut piece = Piece::new();
    put_chunk(&mut piece, b"SIGN", signs, &count.to_be_bytes());
    piece
}

/// The sign with this place in the list, where there is one.
fn sign_at(world: &World, i: u16) -> Piece
    ensures { result.items ≡ piece_at world.now (Place.SignAt i) }
{
    match world.signs().get(usize::from(i)) {
        Some(found) => sign(found),
        None => Piece::new(),
    }
}

/// What stands behind the signs.
fn back() -> Piece
    ensures { result.items ≡ chunk Second ENDC tt }
{
    let mut piece = Piece::new();
    put_chunk(&mut piece, b"ENDC", 0, &[]);
    piece
}

/// The piece at a place; the bodies of companies and signs have these lengths.
pub(crate) fn piece(world: &World, companies: u32, signs: u32, at: Place) -> Piece
    requires companies { companies ≡ length (body_of Second CMPY world.now.companies) }
    requires signs { signs ≡ length (body_of Second SIGN world.now.signs) }
    ensures { result.items ≡ piece_at world.now at }
{
    match at {
        Place::Front => front(world, companies),
        Place::CompanyAt(n) => place(n, world.company(n)),
        Place::Between => between(world, signs),
        Place::SignAt(i) => sign_at(world, i),
        Place::Back => back(),
        Place::Over => Piece::new(),
    }
}

/// The place behind a place.
pub(crate) fn next(world: &World, at: Place) -> Place
    ensures { result ≡ next world.now at }
{
    match at {
        Place::Front => Place::CompanyAt(0),
        Place::CompanyAt(n) if usize::from(n) < COMPANIES => Place::CompanyAt(n + 1),
        Place::CompanyAt(_) => Place::Between,
        Place::Between => Place::SignAt(0),
        Place::SignAt(i) if usize::from(i) < world.signs().len() => Place::SignAt(i + 1),
        Place::SignAt(_) => Place::Back,
        Place::Back => Place::Over,
        Place::Over => Place::Over,
    }
}
