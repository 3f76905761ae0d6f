//! Steps become packets.
ghost use Rattle.std.specs.Prelude.{◌≡◌, ℕ, ◌++◌, ◌∷◌, [], List, OnOk, codes, map};
ghost use Rattle.tt_log.specs.Deed.{game, admin};
ghost use Rattle.tt_log.specs.Filling.{Filling};
ghost use Rattle.tt_log.specs.Origin.{Origin, IsJournal, above as entries_above};
ghost use Rattle.tt_log.specs.PacketRules.{told_command};
ghost use Rattle.tt_log.specs.Reports.{reported, welcome};
ghost use Rattle.tt_log.specs.Tellings.{filled, said_by};
ghost use Rattle.tt_members.specs.Steps.{step_in, steps_in};
ghost use Rattle.tt_outgoing.specs.Companies.{AreKnown, company_messages};
ghost use Rattle.tt_outgoing.specs.Sources.{AreAtHand, IsAtHand, IsAtHandFor};
ghost use Rattle.tt_outgoing.specs.Staging.{Grows, packets_of, packets_to};

use crate::audience::watching;
use crate::companies::{ALL, Topic, company_messages, text_of};
use crate::news::news_in;
use crate::pieces::piece_messages;
use crate::sources::Sources;
use crate::staged::Staged;
use std::alloc::Global;
use tt_admin::AdminMsg;
use tt_admin_desk::Admin;
use tt_frame::{OutOfMemory, Text};
use tt_game::GameMsg;
use tt_log::report::Report;
use tt_members::{Audience, Step, What};
use tt_rules::number_of;
use tt_world::{Entry, Setup};

impl Staged {
    /// Puts the packets of steps behind the others, in order, as `stage` does.
    pub fn stage_all(
        &mut self,
        alloc: Global,
        steps: &[Step],
        admins: &[Admin],
        from: &Sources,
    ) -> Result<(), OutOfMemory>
        ensures staged { OnOk result ((o : Origin) (f : Filling) → AreAtHand o f from.now steps.now
            → self.new ≡ self.old ++ packets_of (filled o f (steps_in admins.now steps.now))) }
        ensures kept { Grows self.old self.new }
    {
        for step in steps {
            self.stage(alloc, step, admins, from)?;
        }
        Ok(())
    }

    /// Puts the packets of a step behind the others: each message is spelled once, whoever is told it. Where memory runs out,
    /// the others still stand in front.
    pub fn stage(
        &mut self,
        alloc: Global,
        step: &Step,
        admins: &[Admin],
        from: &Sources,
    ) -> Result<(), OutOfMemory>
        ensures staged { OnOk result ((o : Origin) (f : Filling) → IsAtHand o f from.now step.now.what
            → self.new ≡ self.old ++ packets_of (filled o f (step_in admins.now step.now ∷ []))) }
        ensures kept { Grows self.old self.new }
    {
        match &step.to {
            Audience::One(conn) => say(self, alloc, &[*conn], &step.what, from),
            Audience::Several(conns) => say(self, alloc, conns.numbers(), &step.what, from),
            Audience::Watching(kind) => {
                let conns = watching(alloc, admins, *kind)?;
                say(self, alloc, conns.as_slice(), &step.what, from)
            }
        }
    }
}

/// Puts the packets of what is said to some connections behind the others.
fn say(
    staged: &mut Staged,
    alloc: Global,
    to: &[u32],
    what: &What,
    from: &Sources,
) -> Result<(), OutOfMemory>
    ensures said { OnOk result ((o : Origin) (f : Filling) → IsAtHand o f from.now what.now
        → staged.new ≡ staged.old ++ packets_to to.now (said_by o f what.now)) }
    ensures kept { Grows staged.old staged.new }
{
    if to.is_empty() {
        return Ok(());
    }
    match what {
        What::Msg(message) => staged.tell_game(to, message),
        What::ToAdmin(report) => say_report(staged, alloc, to, report, from),
        What::MapBegin => {
            let frame = from.frame;
            let size = from.size;
            tell_all(
                staged,
                to,
                &[
                    GameMsg::ServerMapBegin { frame },
                    GameMsg::ServerMapSize { size },
                ],
            )
        }
        What::MapPieces => {
            let messages = piece_messages(alloc, from.next, from.more)?;
            tell_all(staged, to, messages.as_slice())
        }
        What::Sync => {
            let frame = from.frame;
            let word = from.word;
            staged.tell_game(to, &GameMsg::ServerSync { frame, word })
        }
        What::Entries { above } => tell_entries(staged, to, entries_behind(from.journal, *above)),
        What::Stamp(entry) => staged.tell_game(to, &command_of(entry)),
        What::End => Ok(()),
    }
}

/// Puts the packets of a report to admins behind the others.
fn say_report(
    staged: &mut Staged,
    alloc: Global,
    to: &[u32],
    report: &Report,
    from: &Sources,
) -> Result<(), OutOfMemory>
    ensures said { OnOk result ((o : Origin) (f : Filling) → IsAtHandFor o f from.now report.now
        → staged.new ≡ staged.old ++ packets_to to.now (map admin (reported o f report.now))) }
    ensures kept { Grows staged.old staged.new }
{
    match report {
        Report::Message(message) => staged.tell_admins(to, message),
        Report::Welcome => staged.tell_admins(to, &welcome(from.setup, from.world.day())),
        Report::Date => {
            let day = from.world.day();
            staged.tell_admins(to, &AdminMsg::ServerDate { day })
        }
        Report::CompanyInfo { id } => tell_companies(staged, alloc, to, Topic::Info, *id, from),
        Report::CompanyEconomy { id } => tell_companies(
            staged,
            alloc,
            to,
            Topic::Economy,
            *id,
            from,
        ),
        Report::CompanyStats { id } => tell_companies(staged, alloc, to, Topic::Stats, *id, from),
        Report::CompanyLines => tell_companies(staged, alloc, to, Topic::Line, ALL, from),
        Report::CompanyNews => {
            let news = news_in(alloc, from.locked, from.before, from.entries)?;
            tell_reports(staged, to, news.as_slice())
        }
    }
}

/// WELCOME of a game on a day.
fn welcome(setup: &Setup, day: u32) -> AdminMsg
    ensures welcome { result ≡ welcome setup.now day }
{
    AdminMsg::ServerWelcome {
        name: text_of(&setup.name),
        revision: text_of(&setup.revision),
        dedicated: true,
        map: no_text(),
        seed: setup.seed,
        landscape: 0,
        day,
        width: 256,
        height: 256,
    }
}

/// The empty text.
fn no_text() -> Text<31>
    ensures empty { result ≡ codes "" }
{
    match Text::new(b"") {
        Some(text) => text,
        None => unreachable!(),
    }
}

/// Messages on companies, one after another.
fn tell_companies(
    staged: &mut Staged,
    alloc: Global,
    to: &[u32],
    topic: Topic,
    id: u32,
    from: &Sources,
) -> Result<(), OutOfMemory>
    ensures told { OnOk result ((digests : List (ℕ × List ℕ)) → AreKnown topic from.now.locked.now digests
        → staged.new ≡ staged.old ++ packets_to to.now (map admin (company_messages topic digests id from.now.world.now))) }
    ensures kept { Grows staged.old staged.new }
{
    let messages = company_messages(alloc, topic, id, from.locked, from.world)?;
    tell_reports(staged, to, messages.as_slice())
}

/// Messages for the same admins, one after another.
fn tell_reports(staged: &mut Staged, to: &[u32], messages: &[AdminMsg]) -> Result<(), OutOfMemory>
    ensures told { OnOk result (staged.new ≡ staged.old ++ packets_to to.now (map admin messages.now)) }
    ensures kept { Grows staged.old staged.new }
{
    for message in messages {
        staged.tell_admins(to, message)?;
    }
    Ok(())
}

/// Messages of the game to the same connections, one after another.
fn tell_all(staged: &mut Staged, to: &[u32], messages: &[GameMsg]) -> Result<(), OutOfMemory>
    ensures told { OnOk result (staged.new ≡ staged.old ++ packets_to to.now (map game messages.now)) }
    ensures kept { Grows staged.old staged.new }
{
    for message in messages {
        staged.tell_game(to, message)?;
    }
    Ok(())
}

/// Entries, as commands that are told, one after another.
fn tell_entries(staged: &mut Staged, to: &[u32], entries: &[Entry]) -> Result<(), OutOfMemory>
    ensures told { OnOk result (staged.new ≡ staged.old ++ packets_to to.now (map (λ e. game (told_command e)) entries.now)) }
    ensures kept { Grows staged.old staged.new }
{
    for entry in entries {
        staged.tell_game(to, &command_of(entry))?;
    }
    Ok(())
}

/// The entries of a journal above a frame. They are its last ones, so they are found from its end.
fn entries_behind(journal: &[Entry], frame: u32) -> &[Entry]
    ensures above { (o : Origin) → IsJournal o journal.now → result.now ≡ entries_above o frame journal.now }
{
    let mut first = journal.len();
    while first > 0 && journal[first - 1].frame > frame {
        first -= 1;
    }
    &journal[first..]
}

/// An entry as the command that clients are told.
fn command_of(entry: &Entry) -> GameMsg
    ensures message { result ≡ told_command entry.now }
{
    GameMsg::ServerCommand {
        company: entry.company,
        code: number_of(entry.command.code),
        number: entry.command.number,
        to: entry.command.to,
        text: entry.command.text.copy(),
        frame: entry.frame,
        sender: entry.sender,
    }
}
