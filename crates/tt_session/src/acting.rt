//! What is due: the lines of the file, and the frames that are permitted.
ghost use Rattle.std.specs.Prelude.{◌≡◌, false, IsTrue};
ghost use Rattle.tt_session.specs.Acting.{IsLater, IsRunningAt, Standing};
ghost use Rattle.tt_session.specs.Doing.{ActsRound, DoesLine, DoesNext, IsDue, IsFirstDue, goal_at};
ghost use Rattle.tt_session.specs.Session.{sink_now};

use crate::player::Player;
use std::alloc::Global;
use std::collections::VecDeque;
use tt_edge::{Sink, write_all};
use tt_play_file::{Act, TimedLine};

/// What doing what is due came to.
#[derive(Clone, Copy, Debug, PartialEq, Eq)]
pub enum Acted {
    /// Nothing is left to be done.
    Going,
    /// A line ends the run.
    Quit,
    /// The sink failed.
    SinkFault,
    /// Memory ran out.
    Memory,
}

/// Writes the client's lines.
fn print<K: Sink>(alloc: Global, player: &Player, sink: &mut K) -> Acted
    ensures { DoesLine Act.Print player.now player.now (sink_now K.held K.faults sink.old) (sink_now K.held K.faults sink.new) result }
{
    let mut text = Vec::new(alloc);
    if player.put(alloc, &mut text).is_err() {
        return Acted::Memory;
    }
    match write_all(sink, &text) {
        Ok(()) => Acted::Going,
        Err(_) => Acted::SinkFault,
    }
}

/// Does one line.
fn do_line<K: Sink>(alloc: Global, player: &mut Player, line: TimedLine, sink: &mut K) -> Acted
    requires { IsRunningAt line.at player.old }
    ensures { DoesLine line.act player.old player.new (sink_now K.held K.faults sink.old) (sink_now K.held K.faults sink.new) result }
{
    match line.act {
        Act::Print => print(alloc, player, sink),
        Act::Quit => Acted::Quit,
        Act::Do(command) => match player.submit(command) {
            Ok(()) => Acted::Going,
            Err(_) => Acted::Memory,
        },
    }
}

/// Whether the first line is due for a client that runs at this frame.
fn is_due(left: &VecDeque<TimedLine>, frame: u32) -> bool
    ensures due { IsTrue result → IsDue frame left.now.items }
    ensures later { result ≡ false → IsLater frame left.now.items }
{
    match left.front() {
        Some(line) => line.at <= frame,
        None => false,
    }
}

/// The frame to run to: that of the first line, or the permitted one, whichever is lower.
fn goal_of(left: &VecDeque<TimedLine>, permitted: u32) -> u32
    ensures { result ≡ goal_at permitted left.now.items }
{
    match left.front() {
        Some(line) => line.at.min(permitted),
        None => permitted,
    }
}

/// Does the first line, which is due.
fn do_next<K: Sink>(
    alloc: Global,
    player: &mut Player,
    left: &mut VecDeque<TimedLine>,
    sink: &mut K,
) -> Acted
    requires { IsFirstDue left.old.items player.old }
    ensures { DoesNext left.old.items left.new.items player.old player.new (sink_now K.held K.faults sink.old)
        (sink_now K.held K.faults sink.new) result }
{
    match left.pop_front() {
        Some(line) => do_line(alloc, player, line, sink),
        None => unreachable!(),
    }
}

/// Does the lines that are due, and runs the frames that are permitted, as long as there are any: no frame is run past that of
/// the first line that is not done.
pub fn act<K: Sink>(
    alloc: Global,
    player: &mut Player,
    left: &mut VecDeque<TimedLine>,
    sink: &mut K,
) -> Acted
    ensures { (s : Standing) → s.left ≡ left.old.items → s.client ≡ player.old
        → ActsRound s left.new.items player.new (sink_now K.held K.faults sink.old) (sink_now K.held K.faults sink.new) result }
{
    'acting: while let Some((frame, permitted)) = player.running() {
        if is_due(left, frame) {
            match do_next(alloc, player, left, sink) {
                Acted::Going => {}
                Acted::Quit => return Acted::Quit,
                Acted::SinkFault => return Acted::SinkFault,
                Acted::Memory => return Acted::Memory,
            }
        } else {
            let goal = goal_of(left, permitted);
            if goal <= frame {
                return Acted::Going;
            }
            player.advance(goal - frame);
        }
    }
    Acted::Going
}
