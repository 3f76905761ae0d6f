//! The text of a world.
ghost use Rattle.std.specs.Prelude.{◌≡◌, ◌++◌, OnOk};
ghost use Rattle.std.specs.List.{flat_map};
ghost use Rattle.tt_world.specs.World.{company_of};
ghost use Rattle.tt_report.specs.Worlds.{word_text, words_text, world_text, server_line, holding_lines, company_lines};
ghost use Rattle.tt_report.specs.Worlds.{place_line, company_line, sign_place, sign_line};

use std::alloc::Global;
use tt_frame::OutOfMemory;
use tt_lines::{put, put_bytes, put_number};
use tt_world::{Company, Random, Sign, World};

/// Appends the server's line: the frame, the greatest permitted frame, and the world.
pub fn put_server(
    text: &mut Vec<u8>,
    frame: u32,
    top: u32,
    world: &World,
) -> Result<(), OutOfMemory>
    ensures text { OnOk result (text.new.items ≡ text.old.items ++ server_line frame top world.now) }
{
    put(text, b"server ")?;
    put_number(text, frame)?;
    put(text, b" ")?;
    put_number(text, top)?;
    put(text, b" ")?;
    put_world(text, world)?;
    put(text, b"\n")?;
    Ok(())
}

/// Appends what a world holds: its live companies by number, and its signs by id.
pub fn put_holdings(alloc: Global, text: &mut Vec<u8>, world: &World) -> Result<(), OutOfMemory>
    ensures text { OnOk result (text.new.items ≡ text.old.items ++ holding_lines world.now) }
{
    put_companies(alloc, text, world)?;
    put_signs(alloc, text, world.signs())?;
    Ok(())
}

/// Appends a line for each live company, in order.
fn put_companies(alloc: Global, text: &mut Vec<u8>, world: &World) -> Result<(), OutOfMemory>
    ensures text { OnOk result (text.new.items ≡ text.old.items ++ company_lines world.now 15) }
{
    for number in 0..15 {
        put_place(alloc, text, world, number)?;
    }
    Ok(())
}

/// Appends the line of the company with a number, where it is live.
fn put_place(
    alloc: Global,
    text: &mut Vec<u8>,
    world: &World,
    number: u8,
) -> Result<(), OutOfMemory>
    ensures text { OnOk result (text.new.items ≡ text.old.items ++ place_line number (company_of world.now number)) }
{
    match world.company(number) {
        None => Ok(()),
        Some(company) => put_company(alloc, text, number, company),
    }
}

/// Appends a company's line.
fn put_company(
    alloc: Global,
    text: &mut Vec<u8>,
    number: u8,
    company: &Company,
) -> Result<(), OutOfMemory>
    ensures text { OnOk result (text.new.items ≡ text.old.items ++ company_line number company.now) }
{
    put(text, b"company ")?;
    put_number(text, number)?;
    put(text, b" ")?;
    put_number(text, company.money)?;
    put(text, b" ")?;
    put_number(text, company.loan)?;
    put(text, b" ")?;
    put_bytes(alloc, text, company.name.bytes())?;
    put(text, b" ")?;
    put_bytes(alloc, text, company.president.bytes())?;
    put(text, b"\n")?;
    Ok(())
}

/// Appends a line for each sign, in order.
fn put_signs(alloc: Global, text: &mut Vec<u8>, signs: &[Sign]) -> Result<(), OutOfMemory>
    ensures text { OnOk result (text.new.items ≡ text.old.items ++ flat_map sign_line signs.now) }
{
    for sign in signs {
        put_sign(alloc, text, sign)?;
    }
    Ok(())
}

/// Appends a sign's line.
fn put_sign(alloc: Global, text: &mut Vec<u8>, sign: &Sign) -> Result<(), OutOfMemory>
    ensures text { OnOk result (text.new.items ≡ text.old.items ++ sign_line sign.now) }
{
    put(text, b"sign ")?;
    put_sign_place(text, sign)?;
    put(text, b" ")?;
    put_bytes(alloc, text, sign.text.bytes())?;
    put(text, b"\n")?;
    Ok(())
}

/// Appends a sign's id, its owner, and the tile.
fn put_sign_place(text: &mut Vec<u8>, sign: &Sign) -> Result<(), OutOfMemory>
    ensures text { OnOk result (text.new.items ≡ text.old.items ++ sign_place sign.now) }
{
    put_number(text, sign.id)?;
    put(text, b" ")?;
    put_number(text, sign.owner)?;
    put(text, b" ")?;
    put_number(text, sign.tile)?;
    Ok(())
}

/// Appends a world: its random words, the day, its part, and whether it is paused.
pub fn put_world(text: &mut Vec<u8>, world: &World) -> Result<(), OutOfMemory>
    ensures text { OnOk result (text.new.items ≡ text.old.items ++ world_text world.now) }
{
    put_words(text, world.random())?;
    put(text, b" ")?;
    put_number(text, world.day())?;
    put(text, b" ")?;
    put_number(text, u32::from(world.part()))?;
    put(text, if world.paused() { b" 1" } else { b" 0" })?;
    Ok(())
}

/// Appends the two words of a generator.
pub fn put_words(text: &mut Vec<u8>, random: &Random) -> Result<(), OutOfMemory>
    ensures text { OnOk result (text.new.items ≡ text.old.items ++ words_text random.now) }
{
    let (first, second) = random.words();
    put_word(text, first)?;
    put(text, b" ")?;
    put_word(text, second)?;
    Ok(())
}

/// Appends a word in eight hexadecimal digits.
pub fn put_word(text: &mut Vec<u8>, word: u32) -> Result<(), OutOfMemory>
    ensures text { OnOk result (text.new.items ≡ text.old.items ++ word_text word) }
{
    let mut digits = [0; 8];
    if hex::encode_to_slice(word.to_be_bytes().as_slice(), &mut digits).is_err() {
        unreachable!();
    }
    put(text, &digits)
}
