//! A tick: all that a frame more does to members, part by part.
ghost use Rattle.std.specs.Prelude.{◌≡◌, ◌≤◌, ◌<◌, ◌+◌, ◌++◌, ◌∷◌, [], Some, OnOk};
ghost use Rattle.tt_members.specs.declared.edit.Edit.TheVariants.{Permit};
ghost use Rattle.tt_members.specs.Edits.{words_after};
ghost use Rattle.tt_members.specs.Leaving.{playing_in};
ghost use Rattle.tt_members.specs.Planned.{IsPlain, nothing};
ghost use Rattle.tt_members.specs.Rules.{Rise};
ghost use Rattle.tt_join.specs.Ticking.{beating, permitting, seen, syncing, ticking};

use crate::founding::{found, founders_at};
use crate::input::Now;
use crate::limits::limit;
use crate::loading::tell_pieces;
use crate::permitting::permit;
use crate::stamping::stamp;
use std::alloc::Global;
use tt_frame::OutOfMemory;
use tt_log::report::Report;
use tt_members::{Audience, Beat, Conns, Edit, Member, Plan, Queue, What, playing};
use tt_world::{Command, Setup};

/// The type of updates of companies.
const COMPANY_UPDATES: u16 = 2;

/// What of the members a tick looks at.
#[derive(Clone, Copy)]
pub struct View<'a> {
    /// The members, in order of arrival.
    pub members: &'a [Member],
    /// The queue of downloads.
    pub queue: &'a Queue,
    /// The server's own list of commands that wait.
    pub own: &'a [Command],
    /// The random words of the tokens.
    pub words: (u32, u32),
    /// Who ordered a company that is stamped and not founded yet: the frame, and the client.
    pub founders: &'a [(u32, u32)],
}

/// The frame passes the greatest permitted one: those that play are told how far they may run.
fn pass(
    frame: u32,
    top: u32,
    words: (u32, u32),
    members: &[Member],
    plan: &mut Plan,
) -> Result<(), OutOfMemory>
    ensures passed { OnOk result (plan.new ≡ record plan.old {
      edits = plan.old.edits ++ Permit frame top words ∷ [];
      steps = plan.old.steps ++ permitting frame top words members.now;
      words = Some (words_after members.now words);
      beat = Some (record { frame = frame; top = top });
    }) }
{
    plan.change(Edit::Permit { frame, top, words })?;
    let behind = permit(frame, top, words, members, plan)?;
    plan.draw(behind);
    plan.run(Beat { frame, top });
    Ok(())
}

/// What waits is stamped, and a frame is run.
fn beat(
    alloc: Global,
    setup: &Setup,
    time: &Now,
    own: &[Command],
    words: (u32, u32),
    members: &[Member],
    plan: &mut Plan,
) -> Result<(), OutOfMemory>
    requires plan { plan.old ≡ nothing }
    requires frame { time.now.frame ≤ time.now.top }
    requires top { time.now.top ≤ 4_000_000_064 }
    ensures beats { OnOk result (plan.new ≡ beating setup.now (seen members.now [] own.now words []) time.now) }
{
    let frame = time.frame + 1;
    stamp(alloc, time.top + 1, own, members, plan)?;
    plan.change(Edit::Draw)?;
    if frame > time.top {
        let top = frame + u32::from(setup.frame_freq);
        return pass(frame, top, words, members, plan);
    }
    plan.run(Beat {
        frame,
        top: time.top,
    });
    Ok(())
}

/// Each so many frames all that play are told the random word.
fn sync(
    alloc: Global,
    setup: &Setup,
    frame: u32,
    members: &[Member],
    plan: &mut Plan,
) -> Result<(), OutOfMemory>
    requires { 1 ≤ setup.now.sync_freq }
    ensures steps { OnOk result (plan.new.steps ≡ plan.old.steps ++ syncing setup.now frame (playing_in members.now)) }
    ensures edits { plan.new.edits ≡ plan.old.edits }
    ensures plain { IsPlain plan.old plan.new }
{
    if frame % u32::from(setup.sync_freq) != 0 {
        return Ok(());
    }
    let conns = Conns::new(playing(alloc, members)?);
    plan.tell(Audience::Several(conns), What::Sync)
}

/// All that a frame more does to members: the plan of it, in a plan that holds nothing yet.
pub fn tick(
    alloc: Global,
    setup: &Setup,
    time: &Now,
    view: View<'_>,
    plan: &mut Plan,
) -> Result<(), OutOfMemory>
    requires plan { plan.old ≡ nothing }
    requires rise { Rise view.members.now }
    requires sync { 1 ≤ setup.now.sync_freq }
    requires frame { time.now.frame ≤ time.now.top }
    requires top { time.now.top ≤ 4_000_000_064 }
    ensures ticks { OnOk result (plan.new ≡ ticking setup.now
        (seen view.entry.members.now view.entry.queue.now.conns view.entry.own.now view.entry.words view.entry.founders.now) time.now) }
{
    let View {
        members,
        queue,
        own,
        words,
        founders,
    } = view;
    let live = time.live;
    let frame = time.frame + 1;
    beat(alloc, setup, time, own, words, members, plan)?;
    let clients = founders_at(alloc, frame, founders, plan.steps())?;
    plan.tell(
        Audience::Watching(COMPANY_UPDATES),
        What::ToAdmin(Report::CompanyNews),
    )?;
    found(alloc, live, clients.as_slice(), members, plan)?;
    sync(alloc, setup, frame, members, plan)?;
    tell_pieces(time.left, queue, members, plan)?;
    limit(alloc, setup, frame, members, queue, plan)?;
    Ok(())
}
