//! A frame is run: which entries are carried out in it, and what it makes of the world.
//!
//! `due` finds the entries: those of the journal that were stamped for the frame, and those that are stamped with it. `run`
//! carries them out.
ghost use Rattle.std.specs.Prelude.{◌≡◌, ◌++◌, ◌∷◌, ◌<◌, ◌≤◌, ℕ, [], List, IfOk, OnOk, length};
ghost use Rattle.tt_world.specs.declared.command.Entry.{Entry as OneEntry};
ghost use Rattle.tt_log.specs.Origin.{IsJournal, Origin, above, at_frame};
ghost use Rattle.tt_members.specs.Steps.{stamp_of, stamped_in};
ghost use Rattle.tt_table.specs.Frames.{for_frame, front, ran};

use std::alloc::Global;
use tt_frame::OutOfMemory;
use tt_members::{Step, What};
use tt_world::{Command, Entry, World};

/// Carries out entries, and runs a frame. It takes no memory.
pub(crate) fn run(world: &mut World, due: &[Entry])
    ensures world { (o : Origin) → world.new ≡ ran o world.old due.now }
{
    for entry in due {
        world.apply(entry);
    }
    world.run_frame();
}

/// How many entries some steps stamp.
pub(crate) fn count_stamps(steps: &[Step]) -> usize
    ensures count { result ≡ length (stamped_in steps.now) }
{
    let mut count = 0;
    for step in steps.iter() {
        count += count_stamp(&step.what);
    }
    count
}

/// How many entries one step stamps.
fn count_stamp(what: &What) -> usize
    ensures count { result ≡ length (stamp_of what.now) }
    ensures few { result ≤ 1 }
{
    match what {
        What::Stamp(_) => 1,
        _ => 0,
    }
}

/// The entries that are carried out in the frame behind one that was run: those of the journal that were not carried out yet,
/// and those that these steps stamp. Where there are none it takes no memory.
pub(crate) fn due(
    alloc: Global,
    left: &[Entry],
    steps: &[Step],
    frame: u32,
) -> Result<Vec<Entry>, OutOfMemory>
    ensures due { IfOk result (λ due. (o : Origin) (journal : List OneEntry) (past : ℕ) → IsJournal o journal
        → left.now ≡ above o past journal → past < frame → due.items ≡ at_frame o frame (journal ++ stamped_in steps.now)) }
{
    let mut due = Vec::new(alloc);
    add_front(left, frame, &mut due)?;
    add_stamped(steps, frame, &mut due)?;
    Ok(due)
}

/// The entries of a frame, of which none stands behind an entry for a later one.
fn add_front(entries: &[Entry], frame: u32, due: &mut Vec<Entry>) -> Result<(), OutOfMemory>
    ensures due { OnOk result (due.new.items ≡ due.old.items ++ for_frame frame (front frame entries.now)) }
{
    for entry in entries {
        if entry.frame > frame {
            return Ok(());
        }
        add(entry, frame, due)?;
    }
    Ok(())
}

/// The entries of a frame that steps stamp.
fn add_stamped(steps: &[Step], frame: u32, due: &mut Vec<Entry>) -> Result<(), OutOfMemory>
    ensures due { OnOk result (due.new.items ≡ due.old.items ++ for_frame frame (stamped_in steps.now)) }
{
    for step in steps.iter() {
        add_stamp(&step.what, frame, due)?;
    }
    Ok(())
}

/// The entry that a step stamps, where it is one of the frame.
fn add_stamp(what: &What, frame: u32, due: &mut Vec<Entry>) -> Result<(), OutOfMemory>
    ensures due { OnOk result (due.new.items ≡ due.old.items ++ for_frame frame (stamp_of what.now)) }
{
    match what {
        What::Stamp(entry) => add(entry, frame, due),
        _ => Ok(()),
    }
}

/// An entry, where it is one of the frame.
fn add(entry: &Entry, frame: u32, due: &mut Vec<Entry>) -> Result<(), OutOfMemory>
    ensures due { OnOk result (due.new.items ≡ due.old.items ++ for_frame frame (entry.now ∷ [])) }
{
    if entry.frame == frame {
        due.push(copied(entry))?;
    }
    Ok(())
}

/// The same entry once more.
fn copied(entry: &Entry) -> Entry
    ensures same { result ≡ entry.now }
{
    let command = &entry.command;
    let text = &command.text;
    Entry {
        frame: entry.frame,
        sender: entry.sender,
        company: entry.company,
        command: Command {
            code: command.code,
            number: command.number,
            to: command.to,
            text: text.copy(),
        },
    }
}
