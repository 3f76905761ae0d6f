//! What waits is stamped: the server's own list, and up to two commands of each member.
ghost use Rattle.std.specs.Prelude.{◌≡◌, ◌++◌, ◌∷◌, [], map, flat_map, take, slice_get, OnOk};
ghost use Rattle.tt_log.specs.Table.{option_list};
ghost use Rattle.tt_log.specs.Tick.{entry_of, own_entry};
ghost use Rattle.tt_members.specs.Leaving.{playing_in};
ghost use Rattle.tt_members.specs.Planned.{IsPlain};
ghost use Rattle.tt_join.specs.Ticking.{log_of, stamping};

use std::alloc::Global;
use tt_admin::AdminMsg;
use tt_frame::OutOfMemory;
use tt_log::report::Report;
use tt_members::{Audience, Conns, Member, Plan, What, playing};
use tt_rules::number_of;
use tt_world::{Command, Entry};

/// The client number of the server.
const SERVER: u32 = 1;

/// The company of those that have none.
const SPECTATOR: u8 = 255;

/// The type of updates of commands that are stamped.
const COMMAND_UPDATES: u16 = 8;

/// The same command once more.
fn copied(command: &Command) -> Command
    ensures same { result ≡ command.now }
{
    let text = &command.text;
    Command {
        code: command.code,
        number: command.number,
        to: command.to,
        text: text.copy(),
    }
}

/// What admins are told of an entry.
fn log_of(entry: &Entry) -> Report
    ensures log { result ≡ log_of entry.now }
{
    Report::Message(AdminMsg::ServerCmdLogging {
        client: entry.sender,
        company: entry.company,
        code: number_of(entry.command.code),
        frame: entry.frame,
    })
}

/// An entry is told to those that play, and to the admins that log commands.
fn tell_stamp(
    alloc: Global,
    entry: Entry,
    members: &[Member],
    plan: &mut Plan,
) -> Result<(), OutOfMemory>
    ensures steps { OnOk result (plan.new.steps ≡ plan.old.steps ++ stamping (playing_in members.now) (entry ∷ [])) }
    ensures edits { plan.new.edits ≡ plan.old.edits }
    ensures plain { IsPlain plan.old plan.new }
{
    let report = log_of(&entry);
    let conns = Conns::new(playing(alloc, members)?);
    plan.tell(Audience::Several(conns), What::Stamp(entry))?;
    plan.tell(Audience::Watching(COMMAND_UPDATES), What::ToAdmin(report))
}

/// A command of the server's own, for a frame.
fn own_entry(frame: u32, command: &Command) -> Entry
    ensures entry { result ≡ own_entry frame command.now }
{
    Entry {
        frame,
        sender: SERVER,
        company: SPECTATOR,
        command: copied(command),
    }
}

/// The server's own list is stamped, whole.
fn stamp_own(
    alloc: Global,
    frame: u32,
    own: &[Command],
    members: &[Member],
    plan: &mut Plan,
) -> Result<(), OutOfMemory>
    ensures steps { OnOk result (plan.new.steps ≡ plan.old.steps ++ stamping (playing_in members.now) (map (own_entry frame) own.now)) }
    ensures edits { plan.new.edits ≡ plan.old.edits }
    ensures plain { IsPlain plan.old plan.new }
{
    for command in own.iter() {
        tell_stamp(alloc, own_entry(frame, command), members, plan)?;
    }
    Ok(())
}

/// The command that waits at a place is stamped, if so many wait.
fn stamp_at(
    alloc: Global,
    frame: u32,
    m: &Member,
    place: usize,
    members: &[Member],
    plan: &mut Plan,
) -> Result<(), OutOfMemory>
    ensures steps { OnOk result (plan.new.steps
        ≡ plan.old.steps ++ stamping (playing_in members.now) (map (entry_of frame m.now) (option_list (slice_get m.now.waiting place)))) }
    ensures edits { plan.new.edits ≡ plan.old.edits }
    ensures plain { IsPlain plan.old plan.new }
{
    let waiting = m.waiting();
    let Some(one) = waiting.get(place) else {
        return Ok(());
    };
    let entry = Entry {
        frame,
        sender: m.client(),
        company: one.0,
        command: copied(&one.1),
    };
    tell_stamp(alloc, entry, members, plan)
}

/// Up to two commands of a member are stamped, the oldest first.
fn stamp_one(
    alloc: Global,
    frame: u32,
    m: &Member,
    members: &[Member],
    plan: &mut Plan,
) -> Result<(), OutOfMemory>
    ensures steps { OnOk result (plan.new.steps
        ≡ plan.old.steps ++ stamping (playing_in members.now) (map (entry_of frame m.now) (take 2 m.now.waiting))) }
    ensures edits { plan.new.edits ≡ plan.old.edits }
    ensures plain { IsPlain plan.old plan.new }
{
    stamp_at(alloc, frame, m, 0, members, plan)?;
    stamp_at(alloc, frame, m, 1, members, plan)
}

/// Up to two commands of each member are stamped, in order of arrival.
fn stamp_all(
    alloc: Global,
    frame: u32,
    members: &[Member],
    plan: &mut Plan,
) -> Result<(), OutOfMemory>
    ensures steps { OnOk result (plan.new.steps
        ≡ plan.old.steps ++ stamping (playing_in members.now) (flat_map (λ m. map (entry_of frame m) (take 2 m.waiting)) members.now)) }
    ensures edits { plan.new.edits ≡ plan.old.edits }
    ensures plain { IsPlain plan.old plan.new }
{
    for m in members.iter() {
        stamp_one(alloc, frame, m, members, plan)?;
    }
    Ok(())
}

/// What waits is stamped for a frame. Where nothing waits it takes no memory.
pub fn stamp(
    alloc: Global,
    frame: u32,
    own: &[Command],
    members: &[Member],
    plan: &mut Plan,
) -> Result<(), OutOfMemory>
    ensures steps { OnOk result (plan.new.steps ≡ plan.old.steps
        ++ stamping (playing_in members.now)
        (map (own_entry frame) own.now ++ flat_map (λ m. map (entry_of frame m) (take 2 m.waiting)) members.now)) }
    ensures edits { plan.new.edits ≡ plan.old.edits }
    ensures plain { IsPlain plan.old plan.new }
{
    stamp_own(alloc, frame, own, members, plan)?;
    stamp_all(alloc, frame, members, plan)?;
    Ok(())
}
