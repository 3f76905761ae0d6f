//! What admins are told of companies.
ghost use Rattle.std.specs.Prelude.{◌≡◌, ℕ, ◌+◌, ◌++◌, ◌<◌, ◌≤◌, ◌==◌, ◌||◌, false, true, List, IfOk, OnOk, filter, length};
ghost use Rattle.std.specs.Prelude.{slice_index_or, [], if◌then◌else◌};
ghost use Rattle.tt_admin.specs.declared.message.AdminMsg.TheVariants.{ServerRcon};
ghost use Rattle.tt_frame.specs.Text.{is_text};
ghost use Rattle.tt_world.specs.Sound.{IsCompany};
ghost use Rattle.tt_log.specs.Polls.{is_asked};
ghost use Rattle.tt_log.specs.Reports.{company_line, told_of};
ghost use Rattle.tt_outgoing.specs.Companies.{AreKnown, company_message, company_messages};

use std::alloc::Global;
use tt_admin::AdminMsg;
use tt_frame::{LongText, Name, OutOfMemory, Text};
use tt_lines::{put, put_number};
use tt_world::{COMPANIES, Company, Sign, World};

/// The id that stands for all companies.
pub(crate) const ALL: u32 = u32::MAX;

/// What of a company is told.
#[derive(Clone, Copy, Debug, PartialEq, Eq)]
pub(crate) enum Topic {
    /// Its names, and whether it has a password.
    Info,
    /// That these are now as follows.
    Update,
    /// Its money and loan.
    Economy,
    /// How many signs it owns.
    Stats,
    /// The console's line on it.
    Line,
}

/// A message on each company that is asked for and lives, in rising order.
pub(crate) fn company_messages(
    alloc: Global,
    topic: Topic,
    id: u32,
    locked: &[bool],
    world: &World,
) -> Result<Vec<AdminMsg>, OutOfMemory>
    ensures companies { IfOk result (λ messages. (digests : List (ℕ × List ℕ)) → AreKnown topic locked.now digests
        → messages.items ≡ company_messages topic digests id world.now) }
{
    // A world whose signs are read is known to be sound.
    let _signs = world.signs();
    let mut messages = Vec::new(alloc);
    for number in 0..COMPANIES as u8 {
        tell_asked(alloc, &mut messages, topic, (id, number), locked, world)?;
    }
    Ok(messages)
}

/// A message more, where this id asks for the company of this number and it lives.
fn tell_asked(
    alloc: Global,
    messages: &mut Vec<AdminMsg>,
    topic: Topic,
    asked: (u32, u8),
    locked: &[bool],
    world: &World,
) -> Result<(), OutOfMemory>
    ensures told { OnOk result ((digests : List (ℕ × List ℕ)) → AreKnown topic locked.now digests → messages.new.items ≡ messages.old.items
        ++ (if is_asked asked.0 asked.1 then told_of (company_message topic digests world.now) asked.1 world.now else [])) }
{
    if !is_asked(asked.0, asked.1) {
        return Ok(());
    }
    tell_of(alloc, messages, topic, asked.1, locked, world)
}

/// Whether a company is asked for, alone or among all.
fn is_asked(id: u32, number: u8) -> bool
    ensures asked { result ≡ is_asked id number }
{
    id == ALL || id == u32::from(number)
}

/// A message more, where a company of this number lives.
pub(crate) fn tell_of(
    alloc: Global,
    messages: &mut Vec<AdminMsg>,
    topic: Topic,
    number: u8,
    locked: &[bool],
    world: &World,
) -> Result<(), OutOfMemory>
    ensures told { OnOk result ((digests : List (ℕ × List ℕ)) → AreKnown topic locked.now digests
        → messages.new.items ≡ messages.old.items ++ told_of (company_message topic digests world.now) number world.now) }
{
    match world.company(number) {
        None => Ok(()),
        Some(company) => {
            messages.push(company_message(alloc, topic, number, company, locked, world)?)?;
            Ok(())
        }
    }
}

/// The message on one company.
fn company_message(
    alloc: Global,
    topic: Topic,
    number: u8,
    company: &Company,
    locked: &[bool],
    world: &World,
) -> Result<AdminMsg, OutOfMemory>
    requires number { number < 15 }
    requires sound { IsCompany company.now }
    ensures message { IfOk result (λ message. (digests : List (ℕ × List ℕ)) → AreKnown topic locked.now digests
        → message ≡ company_message topic digests world.now (number, company.now)) }
{
    match topic {
        Topic::Info => Ok(AdminMsg::ServerCompanyInfo {
            company: number,
            name: text_of(&company.name),
            president: text_of(&company.president),
            password: is_locked(locked, number),
        }),
        Topic::Update => Ok(AdminMsg::ServerCompanyUpdate {
            company: number,
            name: text_of(&company.name),
            president: text_of(&company.president),
            password: is_locked(locked, number),
        }),
        Topic::Economy => Ok(AdminMsg::ServerCompanyEconomy {
            company: number,
            money: company.money.cast_unsigned(),
            loan: company.loan,
        }),
        Topic::Stats => Ok(AdminMsg::ServerCompanyStats {
            company: number,
            signs: signs_of(world.signs(), number),
        }),
        Topic::Line => line_of(alloc, number, company),
    }
}

/// Whether a company has a password.
fn is_locked(locked: &[bool], number: u8) -> bool
    ensures locked { result ≡ slice_index_or locked.now number false }
{
    let number = usize::from(number);
    number < locked.len() && locked[number]
}

/// How many of these signs a company owns.
fn signs_of(signs: &[Sign], owner: u8) -> u16
    requires few { length signs.now ≤ 1000 }
    ensures count { result ≡ length (filter (λ g. g.owner == owner) signs.now) }
{
    let mut count = 0;
    for sign in signs {
        if sign.owner == owner {
            count += 1;
        }
    }
    count
}

/// A name as a text.
pub(crate) fn text_of(name: &Name) -> Text<31>
    ensures same { result ≡ name.now }
{
    match Text::new(name.bytes()) {
        Some(text) => text,
        None => unreachable!(),
    }
}

/// The console's line on a company, as a message.
fn line_of(alloc: Global, number: u8, company: &Company) -> Result<AdminMsg, OutOfMemory>
    requires number { number < 15 }
    requires sound { IsCompany company.now }
    ensures line { IfOk result (λ message. message ≡ ServerRcon 0 (company_line (number, company.now))) }
{
    let line = line_text(alloc, number, company)?;
    let text = long_text_of(alloc, line.as_slice())?;
    Ok(AdminMsg::ServerRcon { colour: 0, text })
}

/// The console's line on a company.
fn line_text(alloc: Global, number: u8, company: &Company) -> Result<Vec<u8>, OutOfMemory>
    ensures line { IfOk result (λ line. line.items ≡ company_line (number, company.now)) }
{
    let mut line = Vec::new(alloc);
    put_number(&mut line, number)?;
    put(&mut line, b" ")?;
    put_number(&mut line, company.money)?;
    put(&mut line, b" ")?;
    put_number(&mut line, company.loan)?;
    put(&mut line, b" ")?;
    put(&mut line, company.name.bytes())?;
    Ok(line)
}

/// Bytes that are a text of at most 899, as one.
fn long_text_of(alloc: Global, bytes: &[u8]) -> Result<LongText<899>, OutOfMemory>
    requires text { is_text 899 bytes.now ≡ true }
    ensures same { IfOk result (λ text. text ≡ bytes.now) }
{
    match LongText::new(alloc, bytes)? {
        Some(text) => Ok(text),
        None => unreachable!(),
    }
}
