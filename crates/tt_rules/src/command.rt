//! Commands and their codes, by their numbers on the wire.
ghost use Rattle.std.specs.Prelude.{◌≡◌};
ghost use Rattle.tt_rules.specs.Commands.{code_of, number_of, command_of};

use tt_frame::Short;
use tt_world::{Code, Command};

/// The code with a number. None exactly where no code has it.
pub fn code_of(number: u16) -> Option<Code>
    ensures code { result ≡ code_of number }
{
    match number {
        0 => Some(Code::IncreaseLoan),
        1 => Some(Code::DecreaseLoan),
        2 => Some(Code::Give),
        3 => Some(Code::PlaceSign),
        4 => Some(Code::RenameSign),
        5 => Some(Code::RenameCompany),
        6 => Some(Code::RenamePresident),
        7 => Some(Code::Pause),
        8 => Some(Code::NewCompany),
        _ => None,
    }
}

/// The number of a code.
pub fn number_of(code: Code) -> u16
    ensures number { result ≡ number_of code }
{
    match code {
        Code::IncreaseLoan => 0,
        Code::DecreaseLoan => 1,
        Code::Give => 2,
        Code::PlaceSign => 3,
        Code::RenameSign => 4,
        Code::RenameCompany => 5,
        Code::RenamePresident => 6,
        Code::Pause => 7,
        Code::NewCompany => 8,
    }
}

/// The command of these fields of a packet. None exactly where the code is unknown.
pub fn command_of(code: u16, number: u32, to: u8, text: &Short) -> Option<Command>
    ensures command { result ≡ command_of code number to text.now }
{
    match code_of(code) {
        Some(code) => Some(Command {
            code,
            number,
            to,
            text: text.copy(),
        }),
        None => None,
    }
}
