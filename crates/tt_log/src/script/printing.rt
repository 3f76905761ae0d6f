//! From a script to its text.
ghost use Rattle.std.specs.Prelude.{◌≡◌, ◌++◌, ◌∷◌, [], codes, IfOk, OnOk};
ghost use Rattle.std.specs.List.{flat_map, AllByRecursion};
ghost use Rattle.tt_log.specs.Settings.{settings_of};
ghost use Rattle.tt_log.specs.Orders.{IsOrder};
ghost use Rattle.tt_log.specs.Forms.{named, word, number, text, hex, parted};
ghost use Rattle.tt_log.specs.Lines.{any, Holds};
ghost use Rattle.tt_log.specs.Printing.{IsScript, script_text, step_line};
ghost use Rattle.tt_log.specs.Written.{setting_text, map_text, line_text};
ghost use Rattle.tt_lines.specs.Lines.{lines_of};
ghost use Rattle.tt_log.specs.Script.{Spells};

use crate::script::Script;
use crate::script::bytes::Bytes;
use crate::script::line::Line1;
use crate::script::setting::Setting;
use crate::script::step::Step;
use crate::script::writing::{Part, put_line};
use std::alloc::Global;
use tt_frame::{Line, Name, OutOfMemory, Short};
use tt_world::{Code, Command, Setup};

/// The text of a script: the settings that differ from the plain setup, the map that its game starts from, and the lines,
/// each with its line feed.
pub fn print_script(alloc: Global, script: &Script) -> Result<Vec<u8>, OutOfMemory>
    requires { IsScript script.now }
    ensures text { IfOk result (λ text. text.items ≡ script_text script.now) }
    // It is parsed to the script.
    ensures spells { IfOk result (λ text. Spells script.now (lines_of text.items)) }
{
    let mut out = Vec::new(alloc);
    put_settings(alloc, &mut out, &all_settings(&script.setup))?;
    put_map(alloc, &mut out, &script.saved)?;
    put_lines(alloc, &mut out, &script.lines)?;
    Ok(out)
}

/// All that a setup says, in the order of the keys.
fn all_settings(setup: &Setup) -> [Setting; 12]
    ensures settings { result ≡ settings_of setup.now }
{
    [
        Setting::Seed(setup.seed),
        Setting::FrameFreq(setup.frame_freq),
        Setting::SyncFreq(setup.sync_freq),
        Setting::Clients(setup.max_clients),
        Setting::Init(setup.init),
        Setting::PassLimit(setup.pass_limit),
        Setting::Download(setup.download),
        Setting::Join(setup.join),
        Setting::Lag(setup.lag),
        Setting::Cost(setup.cost),
        Setting::Pw(setup.password.copy()),
        Setting::Admin(setup.admin_password.copy()),
    ]
}

/// Appends the settings that aren't plain.
fn put_settings(alloc: Global, out: &mut Vec<u8>, settings: &[Setting]) -> Result<(), OutOfMemory>
    ensures ok { OnOk result (out.new.items ≡ out.old.items ++ flat_map setting_text settings.now) }
{
    for setting in settings {
        if let Err(e) = put_setting(alloc, out, setting) {
            return Err(e);
        }
    }
    Ok(())
}

/// Appends the map, where there is one.
fn put_map(alloc: Global, out: &mut Vec<u8>, map: &[u8]) -> Result<(), OutOfMemory>
    ensures ok { OnOk result (out.new.items ≡ out.old.items ++ map_text map.now) }
{
    if map.is_empty() {
        return Ok(());
    }
    put_line(alloc, out, b"set map", &[Part::Hex(map)])
}

/// Appends lines.
fn put_lines(alloc: Global, out: &mut Vec<u8>, lines: &[Line1]) -> Result<(), OutOfMemory>
    requires { AllByRecursion Holds lines.now }
    ensures ok { OnOk result (out.new.items ≡ out.old.items ++ flat_map line_text lines.now) }
{
    for line in lines {
        if let Err(e) = put_script_line(alloc, out, line) {
            return Err(e);
        }
    }
    Ok(())
}

/// Appends a setting unless it is plain.
fn put_setting(alloc: Global, out: &mut Vec<u8>, setting: &Setting) -> Result<(), OutOfMemory>
    ensures ok { OnOk result (out.new.items ≡ out.old.items ++ setting_text setting.now) }
{
    if setting.is_plain() {
        Ok(())
    } else {
        put_set_line(alloc, out, setting)
    }
}

/// Appends the line of a setting.
pub fn put_set_line(alloc: Global, out: &mut Vec<u8>, setting: &Setting) -> Result<(), OutOfMemory>
    ensures ok { OnOk result (out.new.items ≡ out.old.items ++ step_line (Step.Set setting.now)) }
{
    match setting {
        Setting::Seed(n) => put_line(alloc, out, b"set seed", &[Part::Number(*n as u64)]),
        Setting::FrameFreq(n) => put_line(
            alloc,
            out,
            b"set frame_freq",
            &[Part::Number(*n as u64)],
        ),
        Setting::SyncFreq(n) => put_line(alloc, out, b"set sync_freq", &[Part::Number(*n as u64)]),
        Setting::Clients(n) => put_line(alloc, out, b"set clients", &[Part::Number(*n as u64)]),
        Setting::Init(n) => put_line(alloc, out, b"set init", &[Part::Number(*n as u64)]),
        Setting::PassLimit(n) => put_line(alloc, out, b"set password", &[Part::Number(*n as u64)]),
        Setting::Download(n) => put_line(alloc, out, b"set download", &[Part::Number(*n as u64)]),
        Setting::Join(n) => put_line(alloc, out, b"set join", &[Part::Number(*n as u64)]),
        Setting::Lag(n) => put_line(alloc, out, b"set lag", &[Part::Number(*n as u64)]),
        Setting::Cost(n) => put_line(alloc, out, b"set cost", &[Part::Number(*n)]),
        Setting::Pw(text) => put_line(alloc, out, b"set pw", &[Part::Text(text.bytes())]),
        Setting::Admin(text) => put_line(alloc, out, b"set admin", &[Part::Text(text.bytes())]),
    }
}

/// Appends a line behind the settings.
pub fn put_script_line(alloc: Global, out: &mut Vec<u8>, line: &Line1) -> Result<(), OutOfMemory>
    requires { Holds line.now }
    ensures ok { OnOk result (out.new.items ≡ out.old.items ++ line_text line.now) }
{
    match line {
        Line1::Open => put_line(alloc, out, b"open", &[]),
        Line1::Side => put_line(alloc, out, b"side", &[]),
        Line1::Bytes(conn, piece) => put_piece(alloc, out, b"bytes", *conn, piece),
        Line1::Shut(conn) => put_conn(alloc, out, b"shut", *conn),
        Line1::Tick(n) => put_line(alloc, out, b"tick", &[Part::Number(*n as u64)]),
        Line1::Stop => put_line(alloc, out, b"stop", &[]),
        Line1::Join(name, company, password, other) => {
            put_join(alloc, out, name, *company, password, other)
        }
        Line1::Up(conn, n) => put_pair(alloc, out, b"up", *conn, *n),
        Line1::Down(conn, n) => put_pair(alloc, out, b"down", *conn, *n),
        Line1::Run(conn, n) => put_pair(alloc, out, b"run", *conn, *n),
        Line1::Pump(conn) => put_conn(alloc, out, b"pump", *conn),
        Line1::Do(conn, command) => put_order(alloc, out, *conn, command),
        Line1::Forge(conn, piece) => put_piece(alloc, out, b"forge", *conn, piece),
        Line1::Expect(content) => put_line(alloc, out, b"=", &[Part::Plain(content.bytes())]),
    }
}

/// Appends a line of a connection alone.
fn put_conn(alloc: Global, out: &mut Vec<u8>, verb: &[u8], conn: u32) -> Result<(), OutOfMemory>
    ensures ok { OnOk result (out.new.items ≡ out.old.items ++ (parted (named verb.now ∷ word any conn ∷ []) ++ 10 ∷ [])) }
{
    put_line(alloc, out, verb, &[Part::Number(conn as u64)])
}

/// Appends a line of a connection and a count.
fn put_pair(
    alloc: Global,
    out: &mut Vec<u8>,
    verb: &[u8],
    conn: u32,
    n: u32,
) -> Result<(), OutOfMemory>
    ensures ok { OnOk result (out.new.items ≡ out.old.items ++ (parted (named verb.now ∷ word any conn ∷ word any n ∷ []) ++ 10 ∷ [])) }
{
    let parts = [Part::Number(conn as u64), Part::Number(n as u64)];
    put_line(alloc, out, verb, &parts)
}

/// Appends a line of a connection and bytes.
fn put_piece(
    alloc: Global,
    out: &mut Vec<u8>,
    verb: &[u8],
    conn: u32,
    piece: &Bytes,
) -> Result<(), OutOfMemory>
    ensures ok { OnOk result (out.new.items ≡ out.old.items ++ (parted (named verb.now ∷ word any conn ∷ word hex piece.now ∷ []) ++ 10
        ∷ [])) }
{
    let parts = [Part::Number(conn as u64), Part::Hex(piece.bytes())];
    put_line(alloc, out, verb, &parts)
}

/// Appends the line of a client that joins.
fn put_join<'a>(
    alloc: Global,
    out: &mut Vec<u8>,
    name: &'a Name,
    company: u8,
    password: &'a Line,
    other: &'a Line,
) -> Result<(), OutOfMemory>
    ensures ok { OnOk result (out.new.items ≡ out.old.items ++ line_text (Line1.Join name.now company password.now other.now)) }
{
    let parts = [
        Part::Text(name.bytes()),
        Part::Number(company as u64),
        Part::Text(password.bytes()),
        Part::Text(other.bytes()),
    ];
    put_line(alloc, out, b"join", &parts)
}

/// Appends a line that tells a client what to do.
fn put_order(
    alloc: Global,
    out: &mut Vec<u8>,
    conn: u32,
    command: &Command,
) -> Result<(), OutOfMemory>
    requires { IsOrder command.now }
    ensures ok { OnOk result (out.new.items ≡ out.old.items ++ line_text (Line1.Do conn command.now)) }
{
    let number = command.number;
    match command.code {
        Code::IncreaseLoan => put_sum(alloc, out, conn, b"loan", number),
        Code::DecreaseLoan => put_sum(alloc, out, conn, b"repay", number),
        Code::Give => put_gift(alloc, out, conn, number, command.to),
        Code::PlaceSign => put_sign(alloc, out, conn, b"sign", number, &command.text),
        Code::RenameSign => put_sign(alloc, out, conn, b"resign", number, &command.text),
        Code::RenameCompany => put_naming(alloc, out, conn, b"company", &command.text),
        Code::RenamePresident => put_naming(alloc, out, conn, b"president", &command.text),
        Code::Pause | Code::NewCompany => unreachable!(),
    }
}

/// Appends an order with a sum of money.
fn put_sum(
    alloc: Global,
    out: &mut Vec<u8>,
    conn: u32,
    verb: &[u8],
    sum: u32,
) -> Result<(), OutOfMemory>
    ensures ok { OnOk result (out.new.items ≡ out.old.items ++ (parted (named (codes "do") ∷ word any conn ∷ named verb.now
        ∷ word any sum ∷ []) ++ 10 ∷ [])) }
{
    let parts = [
        Part::Number(conn as u64),
        Part::Plain(verb),
        Part::Number(sum as u64),
    ];
    put_line(alloc, out, b"do", &parts)
}

/// Appends the order of a gift: a sum of money and the company that gets it.
fn put_gift(
    alloc: Global,
    out: &mut Vec<u8>,
    conn: u32,
    sum: u32,
    to: u8,
) -> Result<(), OutOfMemory>
    ensures ok { OnOk result (out.new.items ≡ out.old.items ++ (parted (named (codes "do") ∷ word any conn ∷ named (codes "give")
        ∷ word any sum ∷ word (number 0 255) to ∷ []) ++ 10 ∷ [])) }
{
    let parts = [
        Part::Number(conn as u64),
        Part::Plain(b"give"),
        Part::Number(sum as u64),
        Part::Number(to as u64),
    ];
    put_line(alloc, out, b"do", &parts)
}

/// Appends the order of a sign: its tile or its id, and what it says.
fn put_sign<'a>(
    alloc: Global,
    out: &mut Vec<u8>,
    conn: u32,
    verb: &'a [u8],
    place: u32,
    says: &'a Short,
) -> Result<(), OutOfMemory>
    ensures ok { OnOk result (out.new.items ≡ out.old.items ++ (parted (named (codes "do") ∷ word any conn ∷ named verb.now
        ∷ word any place ∷ word (text 0 31) says.now ∷ []) ++ 10 ∷ [])) }
{
    let parts = [
        Part::Number(conn as u64),
        Part::Plain(verb),
        Part::Number(place as u64),
        Part::Text(says.bytes()),
    ];
    put_line(alloc, out, b"do", &parts)
}

/// Appends the order of a new name.
fn put_naming<'a>(
    alloc: Global,
    out: &mut Vec<u8>,
    conn: u32,
    verb: &'a [u8],
    name: &'a Short,
) -> Result<(), OutOfMemory>
    ensures ok { OnOk result (out.new.items ≡ out.old.items ++ (parted (named (codes "do") ∷ word any conn ∷ named verb.now
        ∷ word (text 0 31) name.now ∷ []) ++ 10 ∷ [])) }
{
    let parts = [
        Part::Number(conn as u64),
        Part::Plain(verb),
        Part::Text(name.bytes()),
    ];
    put_line(alloc, out, b"do", &parts)
}
