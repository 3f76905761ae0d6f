//! The news of a frame: the companies that its entries found and rename.
ghost use Rattle.std.specs.Prelude.{◌≡◌, ℕ, ◌++◌, ◌≤◌, List, IfOk, OnOk};
ghost use Rattle.std.specs.List.{list_any};
ghost use Rattle.tt_world.specs.declared.effect.Effect.TheVariants.{Done};
ghost use Rattle.tt_world.specs.Commands.{applied, new_number};
ghost use Rattle.tt_log.specs.Reports.{news_in, news_of};
ghost use Rattle.tt_outgoing.specs.Companies.{has_news};
ghost use Rattle.tt_outgoing.specs.Sources.{AreLocks};

use crate::companies::{Topic, tell_of};
use std::alloc::Global;
use tt_admin::AdminMsg;
use tt_frame::OutOfMemory;
use tt_world::{COMPANIES, Code, Effect, Entry, World};

/// What is told of the entries of a frame, from the world before it. They are done once more, in a copy of that world.
pub(crate) fn news_in(
    alloc: Global,
    locked: &[bool],
    before: &World,
    entries: &[Entry],
) -> Result<Vec<AdminMsg>, OutOfMemory>
    ensures news { IfOk result (λ messages. (digests : List (ℕ × List ℕ)) → AreLocks locked.now digests
        → messages.items ≡ news_in digests before.now entries.now) }
{
    let mut messages = Vec::new(alloc);
    // So a frame without news needs no copy.
    if !is_any_news(entries) {
        return Ok(messages);
    }
    let mut world = before.copy(alloc)?;
    for entry in entries {
        tell_news(alloc, &mut messages, locked, &mut world, entry)?;
    }
    Ok(messages)
}

/// Whether an entry may be news of a company.
fn is_any_news(entries: &[Entry]) -> bool
    ensures any { result ≡ list_any (λ e. has_news e.command.code) entries.now }
{
    for entry in entries {
        if has_news(entry.command.code) {
            return true;
        }
    }
    false
}

/// Whether a command of this code may be news of a company.
fn has_news(code: Code) -> bool
    ensures news { result ≡ has_news code }
{
    match code {
        Code::NewCompany | Code::RenameCompany | Code::RenamePresident => true,
        _ => false,
    }
}

/// Does an entry, and tells what became of it.
fn tell_news(
    alloc: Global,
    messages: &mut Vec<AdminMsg>,
    locked: &[bool],
    world: &mut World,
    entry: &Entry,
) -> Result<(), OutOfMemory>
    ensures world { OnOk result (world.new ≡ (applied world.old entry.now).0) }
    ensures news { OnOk result ((digests : List (ℕ × List ℕ)) → AreLocks locked.now digests → messages.new.items ≡ messages.old.items
        ++ news_of entry.now.command.code (applied world.old entry.now).1 digests (new_number world.old.companies) entry.now.company
        (applied world.old entry.now).0) }
{
    let new = free_number(world);
    match world.apply(entry) {
        Effect::Done => tell_done(
            alloc,
            messages,
            entry.command.code,
            (new, entry.company),
            locked,
            world,
        ),
        Effect::Refused(_) => Ok(()),
    }
}

/// Tells of a command that was done, of the world right behind it: the number is a new company's, or the command's own.
fn tell_done(
    alloc: Global,
    messages: &mut Vec<AdminMsg>,
    code: Code,
    numbers: (u8, u8),
    locked: &[bool],
    world: &World,
) -> Result<(), OutOfMemory>
    ensures news { OnOk result ((digests : List (ℕ × List ℕ)) → AreLocks locked.now digests
        → messages.new.items ≡ messages.old.items ++ news_of code Done digests numbers.0 numbers.1 world.now) }
{
    match code {
        Code::NewCompany => {
            messages.push(AdminMsg::ServerCompanyNew { id: numbers.0 })?;
            tell_of(alloc, messages, Topic::Info, numbers.0, locked, world)
        }
        Code::RenameCompany => tell_of(alloc, messages, Topic::Update, numbers.1, locked, world),
        Code::RenamePresident => tell_of(alloc, messages, Topic::Update, numbers.1, locked, world),
        _ => Ok(()),
    }
}

/// The number of the next new company: the least that is not live.
fn free_number(world: &World) -> u8
    ensures number { result ≡ new_number world.now.companies }
{
    // A world whose signs are read is known to be sound.
    let _signs = world.signs();
    for number in 0..COMPANIES as u8 {
        if world.company(number).is_none() {
            return number;
        }
    }
    COMPANIES as u8
}
