//! The words behind `set`: a key and what it says.
ghost use Rattle.std.specs.Prelude.{◌≡◌};
ghost use Rattle.tt_log.specs.Rows.{LineRead, WordRead, row_at, pick, number_at, ended_at};
ghost use Rattle.tt_log.specs.Reading.{settings};

use crate::script::bad::NoLine;
use crate::script::setting::Setting;
use crate::script::step::Step;
use crate::script::values::{any, number, number8, number16, password, saved};
use crate::script::words::Words;
use std::alloc::Global;

/// A time limit in ticks.
fn limit(words: &mut Words) -> Result<u16, NoLine>
    ensures read { WordRead (λ n. n) result words.new (number_at 1 65535 words.old) }
{
    number16(words, 1, 65_535)
}

/// What the record of events may cost.
fn cost(words: &mut Words) -> Result<u64, NoLine>
    ensures read { WordRead (λ n. n) result words.new (number_at 64 1073741824 words.old) }
{
    let n = number(words, 64, 1_073_741_824)?;
    Ok(n as u64)
}

/// The line of a setting, where nothing is left of it.
fn line_of(setting: Setting, words: &Words) -> Result<Step, NoLine>
    ensures { LineRead result (ended_at (Step.Set setting) words.now) }
{
    words.ended(Step::Set(setting))
}

/// The line of that key.
pub fn setting_of(alloc: Global, word: &[u8], words: &mut Words) -> Result<Step, NoLine>
    ensures { LineRead result (row_at (pick settings word.now) words.old) }
{
    match word {
        w if w == b"seed".as_slice() => line_of(Setting::Seed(any(words)?), words),
        w if w == b"frame_freq".as_slice() => {
            line_of(Setting::FrameFreq(number8(words, 0, 64)?), words)
        }
        w if w == b"sync_freq".as_slice() => {
            line_of(Setting::SyncFreq(number16(words, 1, 1_000)?), words)
        }
        w if w == b"clients".as_slice() => {
            line_of(Setting::Clients(number8(words, 1, 255)?), words)
        }
        w if w == b"init".as_slice() => line_of(Setting::Init(limit(words)?), words),
        w if w == b"password".as_slice() => line_of(Setting::PassLimit(limit(words)?), words),
        w if w == b"download".as_slice() => line_of(Setting::Download(limit(words)?), words),
        w if w == b"join".as_slice() => line_of(Setting::Join(limit(words)?), words),
        w if w == b"lag".as_slice() => line_of(Setting::Lag(limit(words)?), words),
        w if w == b"cost".as_slice() => line_of(Setting::Cost(cost(words)?), words),
        w if w == b"pw".as_slice() => line_of(Setting::Pw(password(alloc, words)?), words),
        w if w == b"admin".as_slice() => line_of(Setting::Admin(password(alloc, words)?), words),
        w if w == b"map".as_slice() => {
            let map = saved(alloc, words)?;
            words.ended(Step::Saved(map))
        }
        _ => Err(NoLine::Bad),
    }
}
