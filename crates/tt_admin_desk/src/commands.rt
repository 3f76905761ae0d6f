//! A line of the server's console.
//!
//! Words are parted by exactly one blank; what is said is all that stands behind its blank.
ghost use Rattle.std.specs.Prelude.{◌≡◌, [], ◌∷◌, true, codes, Some};
ghost use Rattle.tt_frame.specs.Text.{is_text};
ghost use Rattle.tt_log.specs.Console.{ConsoleCommand as Meaning, command_in, console_lines, kicks, or_unknown, said};
ghost use Rattle.tt_log.specs.Forms.{number};
ghost use Rattle.tt_log.specs.Rows.{all, behind_word, end, ended_at, front_word, pick, row_at, ◌▸◌};
ghost use Rattle.tt_admin_desk.specs.Asked.{asked};

use tt_frame::Line;
use tt_lines::{behind, number_of};

/// What a line of the console asks for.
#[derive(Debug, PartialEq, Eq, Drop)]
pub enum ConsoleCommand {
    /// The world is paused.
    Pause,
    /// The world goes on.
    Unpause,
    /// This client is ended.
    Kick(u32),
    /// The server says this to all; it has at least one byte.
    Say(Line),
    /// The clients are listed.
    Clients,
    /// The companies are listed.
    Companies,
    /// The game is over.
    Quit,
    /// No command is spelled so.
    Unknown,
}

/// What a line of the console asks for.
pub fn console(text: &Line) -> ConsoleCommand
    ensures command { result ≡ asked (command_in text.now) }
{
    let (word, left) = parted(text.bytes());
    command_of(word, left)
}

/// What a word asks for with what is left of its line.
fn command_of(word: &[u8], left: &[u8]) -> ConsoleCommand
    requires text { is_text 899 left.now ≡ true }
    ensures command { result ≡ asked (or_unknown (row_at (pick console_lines word.now) left.now)) }
{
    match word {
        w if w == b"pause".as_slice() => alone(left, ConsoleCommand::Pause),
        w if w == b"unpause".as_slice() => alone(left, ConsoleCommand::Unpause),
        w if w == b"kick".as_slice() => kick(left),
        w if w == b"say".as_slice() => say(left),
        w if w == b"clients".as_slice() => alone(left, ConsoleCommand::Clients),
        w if w == b"companies".as_slice() => alone(left, ConsoleCommand::Companies),
        w if w == b"quit".as_slice() => alone(left, ConsoleCommand::Quit),
        _ => ConsoleCommand::Unknown,
    }
}

/// A command, where nothing is left of its line.
fn alone(left: &[u8], command: ConsoleCommand) -> ConsoleCommand
    ensures command { (m : Meaning) → command ≡ asked m → result ≡ asked (or_unknown (ended_at m left.now)) }
{
    match left {
        [] => command,
        _ => ConsoleCommand::Unknown,
    }
}

/// `kick`, behind its word: a blank, and the number of a client.
fn kick(left: &[u8]) -> ConsoleCommand
    ensures command { result ≡ asked (or_unknown (row_at (number 0 4294967295 ▸ λ client. end (kicks client)) left.now)) }
{
    let Some(text) = behind(left, b" ") else {
        return ConsoleCommand::Unknown;
    };
    let (digits, left) = parted(text);
    match number_of(digits) {
        Some(client) => alone(left, ConsoleCommand::Kick(client)),
        None => ConsoleCommand::Unknown,
    }
}

/// `say`, behind its word: a blank, and at least one byte.
fn say(left: &[u8]) -> ConsoleCommand
    requires text { is_text 899 left.now ≡ true }
    ensures command { result ≡ asked (or_unknown (row_at (all said) left.now)) }
{
    let Some(text) = behind(left, b" ") else {
        return ConsoleCommand::Unknown;
    };
    if text.is_empty() {
        return ConsoleCommand::Unknown;
    }
    match Line::new(text) {
        Some(line) => ConsoleCommand::Say(line),
        None => unreachable!(),
    }
}

/// The bytes before the first blank, and that blank with all that stands behind it.
fn parted(text: &[u8]) -> (&[u8], &[u8])
    ensures word { result.0.now ≡ front_word text.now }
    ensures left { result.1.now ≡ behind_word text.now }
{
    for (i, byte) in text.iter().enumerate() {
        if *byte == b' ' {
            return (&text[..i], &text[i..]);
        }
    }
    (text, &[])
}
