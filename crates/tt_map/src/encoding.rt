//! The encoding of a world as its map.
ghost use Rattle.std.specs.Prelude.{◌≡◌, ◌≤◌, ◌<◌, ◌^◌, ◌++◌, ◌∷◌, length, IfOk, OnOk, option_copied, []};
ghost use Rattle.std.specs.List.{flat_map};
ghost use Rattle.tt_world.specs.Sound.{IsSound};
ghost use Rattle.tt_map.specs.declared.version.Version.TheVariants.{Second};
ghost use Rattle.tt_map.specs.Layout.{text_body, i64, live_from, company_bytes, sign_bytes, u32, GAME, RAND, CMPY, SIGN, ENDC};
ghost use Rattle.tt_map.specs.Layout.{body_of, part_of, chunk, head, map_of};
ghost use Rattle.tt_map.specs.Maps.{IsMap};

use crate::version::{SECOND_NUMBER, TAG};
use std::alloc::Global;
use tt_frame::{Name, OutOfMemory, Put};
use tt_world::{COMPANIES, Company, Random, Sign, World};

/// The greatest map has so many bytes.
const GREATEST: usize = 40_280;

/// A text behind its length.
fn put_name(out: &mut Vec<u8>, name: &Name) -> Result<(), OutOfMemory>
    ensures { OnOk result (out.new.items ≡ out.old.items ++ text_body name.now) }
{
    let text = name.bytes();
    Put::raw(out, &[text.len() as u8])?;
    Put::raw(out, text)
}

/// The number of a company, its money, its loan and the greatest one.
fn put_sums(out: &mut Vec<u8>, number: u8, company: &Company) -> Result<(), OutOfMemory>
    ensures { OnOk result (out.new.items ≡ out.old.items ++ (number ∷ i64 company.now.money ++ u32 company.now.loan
        ++ u32 company.now.most)) }
{
    Put::raw(out, &[number])?;
    Put::raw(out, &company.money.to_be_bytes())?;
    Put::raw(out, &company.loan.to_be_bytes())?;
    Put::raw(out, &company.most.to_be_bytes())?;
    Ok(())
}

/// A company behind its number.
fn put_company(out: &mut Vec<u8>, number: u8, company: &Company) -> Result<(), OutOfMemory>
    ensures { OnOk result (out.new.items ≡ out.old.items ++ company_bytes Second (number, company.now)) }
{
    put_sums(out, number, company)?;
    put_name(out, &company.name)?;
    put_name(out, &company.president)
}

/// The company at a place, where there is one.
fn put_place(out: &mut Vec<u8>, number: u8, company: Option<&Company>) -> Result<(), OutOfMemory>
    ensures { OnOk result (out.new.items
        ≡ out.old.items ++ flat_map (company_bytes Second) (live_from number (option_copied company.entry ∷ []))) }
{
    match company {
        Some(company) => put_company(out, number, company),
        None => Ok(()),
    }
}

/// A sign.
fn put_sign(out: &mut Vec<u8>, sign: &Sign) -> Result<(), OutOfMemory>
    ensures { OnOk result (out.new.items ≡ out.old.items ++ sign_bytes sign.now) }
{
    Put::raw(out, &sign.id.to_be_bytes())?;
    Put::raw(out, &[sign.owner])?;
    Put::raw(out, &sign.tile.to_be_bytes())?;
    put_name(out, &sign.text)
}

/// The day, its part, and whether the world is paused.
pub(crate) fn game_body(world: &World) -> [u8; 6]
    ensures { result ≡ body_of Second GAME (part_of GAME world.now) }
{
    let day = world.day().to_be_bytes();
    let paused = if world.paused() { 1 } else { 0 };
    [day[0], day[1], day[2], day[3], world.part(), paused]
}

/// The random words.
pub(crate) fn words_body(random: &Random) -> [u8; 8]
    ensures { result ≡ body_of Second RAND random.now }
{
    let (first, second) = random.words();
    let first = first.to_be_bytes();
    let second = second.to_be_bytes();
    [
        first[0], first[1], first[2], first[3], second[0], second[1], second[2], second[3],
    ]
}

/// How many companies are live.
pub(crate) fn live_count(world: &World) -> u8
    requires { IsSound world.now }
    ensures { result ≡ length (live_from 0 world.now.companies) }
{
    let mut count = 0;
    for number in 0..COMPANIES as u8 {
        if world.company(number).is_some() {
            count += 1;
        }
    }
    count
}

/// The companies, each behind its number.
fn companies_body(alloc: Global, world: &World) -> Result<Vec<u8>, OutOfMemory>
    requires { IsSound world.now }
    ensures { IfOk result (λ body. body.items ≡ body_of Second CMPY (part_of CMPY world.now)) }
{
    let mut body = Vec::new(alloc);
    Put::raw(&mut body, &[live_count(world)])?;
    for number in 0..COMPANIES as u8 {
        put_place(&mut body, number, world.company(number))?;
    }
    Ok(body)
}

/// The signs.
fn signs_body(alloc: Global, signs: &[Sign]) -> Result<Vec<u8>, OutOfMemory>
    requires { length signs.now ≤ 1000 }
    ensures { IfOk result (λ body. body.items ≡ body_of Second SIGN signs.now) }
{
    let mut body = Vec::new(alloc);
    let count = signs.len() as u16;
    Put::raw(&mut body, &count.to_be_bytes())?;
    for sign in signs {
        put_sign(&mut body, sign)?;
    }
    Ok(body)
}

/// A chunk: its tag, the length of its body, and the body.
fn put_chunk(out: &mut Vec<u8>, tag: &[u8; 4], body: &[u8]) -> Result<(), OutOfMemory>
    requires { length body.now < 2 ^ 32 }
    ensures { OnOk result (out.new.items ≡ out.old.items ++ (tag.now ++ u32 (length body.now) ++ body.now)) }
{
    Put::raw(out, tag)?;
    let length = body.len() as u32;
    Put::raw(out, &length.to_be_bytes())?;
    Put::raw(out, body)
}

/// Tag and version, and the chunks with these bodies for random words, companies and signs.
fn put_chunks(
    out: &mut Vec<u8>,
    world: &World,
    words: &[u8],
    companies: &[u8],
    signs: &[u8],
) -> Result<(), OutOfMemory>
    requires sound { IsSound world.now }
    requires empty { out.old.items ≡ [] }
    requires words { words.now ≡ body_of Second RAND (part_of RAND world.now) }
    requires companies { companies.now ≡ body_of Second CMPY (part_of CMPY world.now) }
    requires signs { signs.now ≡ body_of Second SIGN (part_of SIGN world.now) }
    ensures { OnOk result (out.new.items ≡ map_of world.now) }
{
    Put::raw(out, &TAG)?;
    Put::raw(out, &SECOND_NUMBER.to_be_bytes())?;
    put_chunk(out, b"GAME", &game_body(world))?;
    put_chunk(out, b"RAND", words)?;
    put_chunk(out, b"CMPY", companies)?;
    put_chunk(out, b"SIGN", signs)?;
    put_chunk(out, b"ENDC", &[])?;
    Ok(())
}

/// The map of a world, of at most 40,280 bytes. Where its day is at most 1,000,000,000, `decode_map` gives it back; no
/// game comes to a later one.
pub fn encode_map(alloc: Global, world: &World) -> Result<Vec<u8>, OutOfMemory>
    ensures map { IfOk result (λ bytes. bytes.items ≡ map_of world.now) }
    ensures fits { IfOk result (λ bytes. length bytes.items ≤ 40280) }
    ensures told { world.now.day ≤ 1000000000 → IfOk result (λ bytes. IsMap bytes.items world.now) }
{
    let signs = signs_body(alloc, world.signs())?;
    let companies = companies_body(alloc, world)?;
    let words = words_body(world.random());
    let mut out = Vec::with_capacity(alloc, GREATEST)?;
    put_chunks(
        &mut out,
        world,
        &words,
        companies.as_slice(),
        signs.as_slice(),
    )?;
    Ok(out)
}
