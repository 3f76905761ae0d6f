//! Tokens: eight drawn characters, and behind them the number of the attempt.
ghost use Rattle.std.specs.Prelude.{◌≡◌, ◌++◌, IfOk};
ghost use Rattle.std.specs.Fmt.{decimal};
ghost use Rattle.tt_attempts.specs.Codes.{words_behind, drawn_characters};

use std::alloc::Global;
use tt_attempts::draw_characters;
use tt_frame::{OutOfMemory, Text};
use tt_lines::{put, put_number};
use tt_world::Random;

/// Draws the token of the attempt with this number.
pub fn token(alloc: Global, random: &mut Random, number: u32) -> Result<Text<31>, OutOfMemory>
    ensures words { random.new ≡ words_behind 8 random.old }
    ensures token { IfOk result (λ text. text ≡ drawn_characters 8 random.old ++ decimal number) }
{
    let mut drawn = [0; 8];
    draw_characters(random, &mut drawn);
    let mut bytes = Vec::new(alloc);
    put(&mut bytes, &drawn)?;
    put_number(&mut bytes, number)?;
    match Text::new(bytes.as_slice()) {
        Some(text) => Ok(text),
        None => unreachable!(),
    }
}
