//! What an admin is answered: reports, which are filled in where they are staged.
ghost use Rattle.std.specs.Prelude.{◌≡◌, ◌≤◌, ◌<◌, ◌+◌, ◌++◌, ◌∷◌, ◌==◌, [], true, IfOk, OnOk, codes, decimal, find, is_some, length, map};
ghost use Rattle.tt_admin.specs.declared.message.AdminMsg.TheVariants.{ServerCmdNames, ServerError, ServerProtocol};
ghost use Rattle.tt_frame.specs.Text.{is_plain, is_text};
ghost use Rattle.tt_log.specs.declared.deed.What.TheVariants.{End};
ghost use Rattle.tt_log.specs.declared.report.Report.TheVariants.{Message};
ghost use Rattle.tt_log.specs.Admin.{allowed_bits};
ghost use Rattle.tt_log.specs.Console.{answer, client_line, kick_answer, lines_of};
ghost use Rattle.tt_log.specs.Desk.{admin_greeting, admin_protocol, types_from};
ghost use Rattle.tt_log.specs.Polls.{client_report, client_reports, command_name, command_names, is_asked, poll_answers};
ghost use Rattle.tt_log.specs.Table.{Table, member_with, welcomed};
ghost use Rattle.tt_members.specs.declared.step.Audience.TheVariants.{One};
ghost use Rattle.tt_members.specs.Steps.{says};
ghost use Rattle.tt_admin_desk.specs.Asked.{meant};
ghost use Rattle.tt_table.specs.Coming.{answered, console_steps, IsFit, own_steps};

use std::alloc::Global;
use tt_admin::{AdminMsg, CommandName, CommandNames, UpdateType, UpdateTypes};
use tt_admin_desk::{ConsoleCommand, Heard, Question};
use tt_frame::{Line, LongText, OutOfMemory, Text};
use tt_lines::{put, put_number};
use tt_log::report::Report;
use tt_members::{Audience, Member, Steps, What, reason};

/// Stands for all clients or companies.
const EVERYONE: u32 = u32::MAX;

/// The numbers of the types that may be asked for.
const DATE: u8 = 0;

const CLIENTS: u8 = 1;

const COMPANIES: u8 = 2;

const ECONOMY: u8 = 3;

const STATS: u8 = 4;

const NAMES: u8 = 7;

/// The type of updates of what is given to the console.
const CONSOLE_UPDATES: u16 = 6;

/// The version of the protocol.
const PROTOCOL: u8 = 3;

/// An admin is told a report.
pub(crate) fn tell(steps: &mut Steps, conn: u32, report: Report) -> Result<(), OutOfMemory>
    ensures told { OnOk result (steps.new ≡ steps.old ++ answered conn (report ∷ [])) }
{
    steps.tell_one(conn, What::ToAdmin(report))
}

/// The message of a line that the console answers.
fn line(text: LongText<899>) -> Report
    ensures line { result ≡ answer text }
{
    Report::Message(AdminMsg::ServerRcon { colour: 0, text })
}

/// A text of few bytes that the console answers.
fn words(alloc: Global, text: &[u8]) -> Result<Report, OutOfMemory>
    requires plain { is_plain text.now ≡ true }
    requires few { length text.now ≤ 899 }
    ensures answer { IfOk result (λ report. report ≡ answer text.now) }
{
    Ok(line(long_text(alloc, text)?))
}

/// Bytes that are a text of at most 899, as one.
pub(crate) fn long_text(alloc: Global, bytes: &[u8]) -> Result<LongText<899>, OutOfMemory>
    requires text { is_text 899 bytes.now ≡ true }
    ensures same { IfOk result (λ text. text ≡ bytes.now) }
{
    match LongText::new(alloc, bytes)? {
        Some(text) => Ok(text),
        None => unreachable!(),
    }
}

/// Whether a client is asked for, alone or among all.
fn is_asked(id: u32, client: u32) -> bool
    ensures asked { result ≡ is_asked id client }
{
    id == EVERYONE || id == client
}

/// What an admin is told that asks for something once.
pub(crate) fn tell_poll(
    alloc: Global,
    members: &[Member],
    conn: u32,
    question: Question,
    steps: &mut Steps,
) -> Result<(), OutOfMemory>
    ensures told { OnOk result ((t : Table) → t.members ≡ members.now
        → steps.new ≡ steps.old ++ answered conn (poll_answers question.kind question.id t)) }
{
    let id = question.id;
    match question.kind {
        DATE => tell(steps, conn, Report::Date),
        CLIENTS => tell_clients(members, conn, id, steps),
        COMPANIES => tell(steps, conn, Report::CompanyInfo { id }),
        ECONOMY => tell(steps, conn, Report::CompanyEconomy { id }),
        STATS => tell(steps, conn, Report::CompanyStats { id }),
        NAMES => tell(steps, conn, names(alloc)?),
        _ => Ok(()),
    }
}

/// What an admin is told of the welcomed clients that are asked for.
fn tell_clients(
    members: &[Member],
    conn: u32,
    id: u32,
    steps: &mut Steps,
) -> Result<(), OutOfMemory>
    ensures told { OnOk result ((t : Table) → t.members ≡ members.now → steps.new ≡ steps.old ++ answered conn (client_reports id t)) }
{
    for m in members.iter() {
        if m.is_welcomed() && is_asked(id, m.client()) {
            tell(steps, conn, client(m))?;
        }
    }
    Ok(())
}

/// The report on a client.
fn client(m: &Member) -> Report
    ensures client { result ≡ client_report m.now }
{
    Report::Message(AdminMsg::ServerClientInfo {
        client: m.client(),
        name: m.name().copy(),
        company: m.marks().company,
    })
}

/// The report that names the commands.
fn names(alloc: Global) -> Result<Report, OutOfMemory>
    ensures names { IfOk result (λ report. report ≡ Message (ServerCmdNames command_names)) }
{
    let mut items = CommandNames::new(alloc);
    put_name(&mut items, 0, b"IncreaseLoan")?;
    put_name(&mut items, 1, b"DecreaseLoan")?;
    put_name(&mut items, 2, b"Give")?;
    put_name(&mut items, 3, b"PlaceSign")?;
    put_name(&mut items, 4, b"RenameSign")?;
    put_name(&mut items, 5, b"RenameCompany")?;
    put_name(&mut items, 6, b"RenamePresident")?;
    put_name(&mut items, 7, b"Pause")?;
    put_name(&mut items, 8, b"NewCompany")?;
    Ok(Report::Message(AdminMsg::ServerCmdNames { items }))
}

/// One name more.
fn put_name(items: &mut CommandNames, code: u16, bytes: &[u8]) -> Result<(), OutOfMemory>
    requires room { length items.old < 255 }
    requires plain { is_plain bytes.now ≡ true }
    requires few { length bytes.now ≤ 31 }
    ensures name { OnOk result (items.new ≡ items.old ++ command_name code bytes.now ∷ []) }
    ensures more { OnOk result (length items.new ≡ length items.old + 1) }
{
    let name = name(bytes);
    items.push(CommandName { code, name })
}

/// The report that names the protocol.
fn protocol(alloc: Global) -> Result<Report, OutOfMemory>
    ensures protocol { IfOk result (λ report. report ≡ Message (ServerProtocol admin_protocol (types_from 0 allowed_bits))) }
{
    let mut items = UpdateTypes::new(alloc);
    put_type(&mut items, 0, 63)?;
    put_type(&mut items, 1, 65)?;
    put_type(&mut items, 2, 65)?;
    put_type(&mut items, 3, 61)?;
    put_type(&mut items, 4, 61)?;
    put_type(&mut items, 5, 64)?;
    put_type(&mut items, 6, 64)?;
    put_type(&mut items, 7, 1)?;
    put_type(&mut items, 8, 64)?;
    put_type(&mut items, 9, 64)?;
    let version = PROTOCOL;
    Ok(Report::Message(AdminMsg::ServerProtocol { version, items }))
}

/// One type more, and the bits that may be set of it.
fn put_type(items: &mut UpdateTypes, kind: u16, bits: u16) -> Result<(), OutOfMemory>
    requires room { length items.old < 255 }
    ensures kind { OnOk result (items.new ≡ items.old ++ (kind, (bits, tt)) ∷ []) }
    ensures more { OnOk result (length items.new ≡ length items.old + 1) }
{
    items.push(UpdateType { kind, bits })
}

/// The name of a command as a text.
fn name(bytes: &[u8]) -> Text<31>
    requires plain { is_plain bytes.now ≡ true }
    requires few { length bytes.now ≤ 31 }
    ensures same { result ≡ bytes.now }
{
    match Text::new(bytes) {
        Some(text) => text,
        None => unreachable!(),
    }
}

/// What an admin is told that joins: the protocol, and the game.
fn tell_greeting(alloc: Global, conn: u32, steps: &mut Steps) -> Result<(), OutOfMemory>
    ensures told { OnOk result (steps.new ≡ steps.old ++ answered conn admin_greeting) }
{
    tell(steps, conn, protocol(alloc)?)?;
    tell(steps, conn, Report::Welcome)
}

/// The last words to an admin, and its end.
fn tell_end(conn: u32, code: u8, steps: &mut Steps) -> Result<(), OutOfMemory>
    requires code { code ≤ 20 }
    ensures told { OnOk result (steps.new ≡ steps.old ++ (answered conn (Message (ServerError code) ∷ []) ++ says (One conn) End ∷ [])) }
{
    let code = reason(code);
    tell(steps, conn, Report::Message(AdminMsg::ServerError { code }))?;
    steps.tell_one(conn, What::End)
}

/// What the admin on a connection is told by what was heard of it, where this concerns it alone.
pub(crate) fn tell_own(
    alloc: Global,
    members: &[Member],
    conn: u32,
    heard: &Heard,
    steps: &mut Steps,
) -> Result<(), OutOfMemory>
    requires none { steps.old ≡ [] }
    requires fit { IsFit heard.now }
    ensures told { OnOk result ((t : Table) → t.members ≡ members.now → steps.new ≡ own_steps conn heard.now t) }
{
    match heard {
        Heard::Joined => tell_greeting(alloc, conn, steps),
        Heard::Ask(question) => tell_poll(alloc, members, conn, *question, steps),
        Heard::Pong(id) => {
            let id = *id;
            tell(steps, conn, Report::Message(AdminMsg::ServerPong { id }))
        }
        Heard::Leave => steps.tell_one(conn, What::End),
        Heard::Ends(code) => tell_end(conn, *code, steps),
        _ => Ok(()),
    }
}

/// What is told of a line of the console before it is done: admins see the line, and the one that gave it is answered.
pub(crate) fn tell_console(
    alloc: Global,
    members: &[Member],
    conn: u32,
    text: &Line,
    command: &ConsoleCommand,
) -> Result<Steps, OutOfMemory>
    ensures told { IfOk result (λ steps. (t : Table) → t.members ≡ members.now → steps ≡ console_steps conn text.now command.now t) }
{
    let mut steps = Steps::new(alloc);
    let seen = AdminMsg::ServerConsole {
        origin: name(b"admin"),
        text: line_of(alloc, text)?,
    };
    steps.tell(
        Audience::Watching(CONSOLE_UPDATES),
        What::ToAdmin(Report::Message(seen)),
    )?;
    tell_lines(alloc, members, conn, command, &mut steps)?;
    let end = AdminMsg::ServerRconEnd {
        text: line_of(alloc, text)?,
    };
    tell(&mut steps, conn, Report::Message(end))?;
    Ok(steps)
}

/// A line with memory of its own.
fn line_of(alloc: Global, text: &Line) -> Result<LongText<899>, OutOfMemory>
    ensures same { IfOk result (λ line. line ≡ text.now) }
{
    long_text(alloc, text.bytes())
}

/// The lines that the console answers.
fn tell_lines(
    alloc: Global,
    members: &[Member],
    conn: u32,
    command: &ConsoleCommand,
    steps: &mut Steps,
) -> Result<(), OutOfMemory>
    ensures told { OnOk result ((t : Table) → t.members ≡ members.now
        → steps.new ≡ steps.old ++ answered conn (lines_of (meant command.now) t)) }
{
    match command {
        ConsoleCommand::Clients => tell_client_lines(alloc, members, conn, steps),
        ConsoleCommand::Companies => tell(steps, conn, Report::CompanyLines),
        ConsoleCommand::Kick(client) => tell(steps, conn, kick_answer(alloc, members, *client)?),
        ConsoleCommand::Unknown => tell_words(alloc, conn, b"unknown command", steps),
        _ => tell_words(alloc, conn, b"ok", steps),
    }
}

/// A text of few bytes that the console answers is told.
fn tell_words(alloc: Global, conn: u32, text: &[u8], steps: &mut Steps) -> Result<(), OutOfMemory>
    requires plain { is_plain text.now ≡ true }
    requires few { length text.now ≤ 899 }
    ensures told { OnOk result (steps.new ≡ steps.old ++ answered conn (answer text.now ∷ [])) }
{
    let report = words(alloc, text)?;
    tell(steps, conn, report)
}

/// What is answered where a client is to be ended.
fn kick_answer(alloc: Global, members: &[Member], client: u32) -> Result<Report, OutOfMemory>
    ensures answer { IfOk result (λ report. (t : Table) → t.members ≡ members.now → report ≡ kick_answer (member_with client t)) }
{
    if has_client(members, client) {
        words(alloc, b"ok")
    } else {
        words(alloc, b"no such client")
    }
}

/// Whether a member has this client number.
fn has_client(members: &[Member], client: u32) -> bool
    ensures has { result ≡ is_some (find (λ m. m.client == client) members.now) }
{
    for m in members.iter() {
        if m.client() == client {
            return true;
        }
    }
    false
}

/// The console's lines on the welcomed clients.
fn tell_client_lines(
    alloc: Global,
    members: &[Member],
    conn: u32,
    steps: &mut Steps,
) -> Result<(), OutOfMemory>
    ensures told { OnOk result ((t : Table) → t.members ≡ members.now → steps.new ≡ steps.old
        ++ answered conn (map (λ m. answer (client_line m)) (welcomed t))) }
{
    for m in members.iter() {
        if m.is_welcomed() {
            tell(steps, conn, client_answer(alloc, m)?)?;
        }
    }
    Ok(())
}

/// The console's line on a client, as a report.
fn client_answer(alloc: Global, m: &Member) -> Result<Report, OutOfMemory>
    ensures answer { IfOk result (λ report. report ≡ answer (client_line m.now)) }
{
    let name = m.name().copy();
    let text = client_text(alloc, m.client(), m.marks().company, &name)?;
    Ok(line(text))
}

/// A client's number, its company and its name.
fn client_text(
    alloc: Global,
    client: u32,
    company: u8,
    name: &Text<24>,
) -> Result<LongText<899>, OutOfMemory>
    ensures text { IfOk result (λ text. text ≡ decimal client ++ codes " " ++ decimal company ++ codes " " ++ name.now) }
{
    let bytes = name.bytes();
    let mut text = Vec::new(alloc);
    put_number(&mut text, client)?;
    put(&mut text, b" ")?;
    put_number(&mut text, company)?;
    put(&mut text, b" ")?;
    put(&mut text, bytes)?;
    long_text(alloc, text.as_slice())
}
