//! What an admin says, as one text of packets, and from when on each is due.
ghost use Rattle.std.specs.Prelude.{◌≡◌, ◌≤◌, ℕ, List, [], Bool, length, take, IfOk, OnOk};
ghost use Rattle.tt_admin.specs.declared.message.AdminMsg.{AdminMsg};
ghost use Rattle.tt_admin_file.specs.declared.command.Command.{Command};
ghost use Rattle.tt_admin_run.specs.Sending.{said, wait_of, is_quit, due_bytes};
ghost use Rattle.tt_admin_run.specs.Agendas.{IsAgenda, Puts};

use std::alloc::Global;
use tt_admin::AdminMsg;
use tt_admin_file::Command;
use tt_frame::{LongText, OutOfMemory, UpTo};

/// Where the packet of a message ends, and after how many ticks it is due.
#[derive(Clone, Copy, Debug, PartialEq, Eq)]
pub struct Mark {
    pub after: u64,
    pub end: usize,
}

/// All that an admin says, and when.
#[derive(Drop)]
pub struct Agenda {
    /// The packets, one behind the other.
    pub bytes: Vec<u8>,
    /// How many of the bytes are the JOIN.
    pub join: usize,
    /// The messages of the lines, in order.
    pub marks: Vec<Mark>,
    /// The last of them is QUIT.
    pub quits: bool,
}

/// The scope of a line for all.
fn all() -> UpTo<2>
    ensures { result ≡ 0 }
{
    match UpTo::new(0) {
        Some(scope) => scope,
        None => unreachable!(),
    }
}

/// The same text once more.
fn copy_of(alloc: Global, text: &LongText<899>) -> Result<LongText<899>, OutOfMemory>
    ensures { IfOk result (λ copy. copy ≡ text.now) }
{
    match LongText::new(alloc, text.bytes())? {
        Some(copy) => Ok(copy),
        None => unreachable!(),
    }
}

/// What a line says.
fn said(alloc: Global, line: &Command) -> Result<Option<AdminMsg>, OutOfMemory>
    ensures { IfOk result (λ message. message ≡ said line.now) }
{
    match line {
        Command::Ping(id) => Ok(Some(AdminMsg::AdminPing { id: *id })),
        Command::Update(kind, bits) => Ok(Some(AdminMsg::AdminUpdateFrequency {
            kind: *kind,
            bits: *bits,
        })),
        Command::Poll(kind, id) => Ok(Some(AdminMsg::AdminPoll {
            kind: *kind,
            id: *id,
        })),
        Command::Chat(content) => {
            let text = copy_of(alloc, content)?;
            Ok(Some(AdminMsg::AdminChat {
                scope: all(),
                to: 0,
                text,
            }))
        }
        Command::Rcon(content) => {
            let text = copy_of(alloc, content)?;
            Ok(Some(AdminMsg::AdminRcon { text }))
        }
        Command::Wait(_) => Ok(None),
        Command::Quit => Ok(Some(AdminMsg::AdminQuit)),
    }
}

/// How many ticks a line waits.
fn wait_of(line: &Command) -> u64
    ensures { result ≡ wait_of line.now }
{
    match line {
        Command::Wait(ticks) => u64::from(*ticks),
        Command::Ping(_) | Command::Update(_, _) | Command::Poll(_, _) => 0,
        Command::Chat(_) | Command::Rcon(_) | Command::Quit => 0,
    }
}

/// Whether a line is `quit`.
fn is_quit(line: &Command) -> bool
    ensures { result ≡ is_quit line.now }
{
    match line {
        Command::Quit => true,
        Command::Ping(_) | Command::Update(_, _) | Command::Poll(_, _) => false,
        Command::Chat(_) | Command::Rcon(_) | Command::Wait(_) => false,
    }
}

impl Agenda {
    /// The JOIN alone.
    fn new(alloc: Global, join: &AdminMsg) -> Result<Agenda, OutOfMemory>
        ensures { IfOk result (λ agenda. IsAgenda join.now [] agenda) }
    {
        let mut bytes = Vec::new(alloc);
        join.encode(&mut bytes)?;
        let join = bytes.len();
        Ok(Agenda {
            bytes,
            join,
            marks: Vec::new(alloc),
            quits: false,
        })
    }

    /// One line more, whose message is due after so many ticks.
    fn put(&mut self, alloc: Global, after: u64, line: &Command) -> Result<(), OutOfMemory>
        ensures { OnOk result (Puts self.old self.new after (said line.now)) }
    {
        let Some(message) = said(alloc, line)? else {
            return Ok(());
        };
        message.encode(&mut self.bytes)?;
        let end = self.bytes.len();
        self.marks.push(Mark { after, end })?;
        Ok(())
    }

    /// How many bytes are due after so many ticks.
    pub fn due(&self, welcome: bool, ticks: u64) -> usize
        ensures within { (join : AdminMsg) (lines : List Command) → IsAgenda join lines self.now → result ≤ length self.now.bytes.items }
        ensures due { (join : AdminMsg) (lines : List Command) → IsAgenda join lines self.now
            → take result self.now.bytes.items ≡ due_bytes join lines welcome ticks }
    {
        if !welcome {
            return self.join;
        }
        let mut end = self.join;
        for mark in &self.marks {
            if mark.after > ticks {
                return end;
            }
            end = mark.end;
        }
        end
    }
}

/// All that the JOIN and the lines of a file say, up to the first `quit`.
pub fn agenda_of(alloc: Global, join: &AdminMsg, lines: &[Command]) -> Result<Agenda, OutOfMemory>
    ensures { IfOk result (λ agenda. IsAgenda join.now lines.now agenda) }
{
    let mut agenda = Agenda::new(alloc, join)?;
    let mut sum = 0u64;
    'lines: for line in lines {
        agenda.put(alloc, sum, line)?;
        if is_quit(line) {
            agenda.quits = true;
            return Ok(agenda);
        }
        let Some(more) = sum.checked_add(wait_of(line)) else {
            return Err(OutOfMemory);
        };
        sum = more;
    }
    Ok(agenda)
}
