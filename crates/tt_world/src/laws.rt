//! What a sceptic may ask of a world. Each law is the contract of a function that changes nothing.
ghost use Rattle.std.specs.Prelude.{◌≡◌, ◌≢◌, ◌+◌, ◌<◌, true, IsSome};
ghost use Rattle.tt_world.specs.World.{company_of};
ghost use Rattle.tt_world.specs.Sound.{IsSound};
ghost use Rattle.tt_world.specs.Laws.{total_money};
ghost use Rattle.tt_world.specs.Commands.{applied};
ghost use Rattle.tt_world.specs.Economy.{framed};
ghost use Rattle.tt_world.specs.declared.effect.Effect.TheVariants.{Done};
ghost use Rattle.tt_world.specs.declared.command.Code.TheVariants.{Give};

use crate::command::Entry;
use crate::world::World;

/// A paused world changes by commands alone.
pub fn paused_world_waits(world: &World)
    ensures { world.now.paused ≡ true → framed world.now ≡ world.now }
{}

/// A refused command changes nothing.
pub fn refused_command_changes_nothing(world: &World, entry: &Entry)
    ensures { (applied world.now entry.now).1 ≢ Done → (applied world.now entry.now).0 ≡ world.now }
{}

/// Commands take no time, and draw no word.
pub fn command_takes_no_time(world: &World, entry: &Entry)
    ensures words { (applied world.now entry.now).0.words ≡ world.now.words }
    ensures day { (applied world.now entry.now).0.day ≡ world.now.day }
    ensures part { (applied world.now entry.now).0.part ≡ world.now.part }
{}

/// No frame changes a sign, or pauses the world.
pub fn frame_leaves_signs(world: &World)
    ensures signs { (framed world.now).signs ≡ world.now.signs }
    ensures paused { (framed world.now).paused ≡ world.now.paused }
{}

/// Money moves by frames at the end of a day alone.
pub fn money_rests_within_a_day(world: &World)
    ensures { world.now.part + 1 < 74 → (framed world.now).companies ≡ world.now.companies }
{}

/// A company that lives goes on living.
pub fn live_company_stays(world: &World, entry: &Entry, n: u8)
    ensures command { IsSome (company_of world.now n) → IsSome (company_of (applied world.now entry.now).0 n) }
    ensures frame { IsSome (company_of world.now n) → IsSome (company_of (framed world.now) n) }
{}

/// A gift neither makes money nor loses any.
pub fn gift_keeps_money(world: &World, entry: &Entry)
    ensures { entry.now.command.code ≡ Give → total_money (applied world.now entry.now).0.companies ≡ total_money world.now.companies }
{}

/// Every world is sound, and stays so whatever commands and frames come.
pub fn every_world_is_sound(world: &World, entry: &Entry)
    ensures now { IsSound world.now }
    ensures command { IsSound (applied world.now entry.now).0 }
    ensures frame { IsSound (framed world.now) }
{
    let _signs = &world.signs;
    let _text = entry.command.text.bytes();
}
