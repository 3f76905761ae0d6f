//! The forms of the program's words.
ghost use Rattle.std.specs.Prelude.{◌≡◌};
ghost use Rattle.tt_replay.specs.Statuses.{form_of};

use tt_frame::Line;

/// What the words ask for.
#[derive(Clone, Copy, Debug, PartialEq, Eq)]
pub enum Form {
    /// `run`: the report of a script.
    Run,
    /// `check`: whether the report of a script is as the script expects it.
    Check,
    /// `show`: the text of the packets of a list.
    Show,
}

/// What the words ask for. None exactly where they are no form of the program's.
pub fn form_of(words: &[Line]) -> Option<Form>
    ensures form { result ≡ form_of words.now }
{
    match words {
        [word] if word.bytes() == b"run".as_slice() => Some(Form::Run),
        [word] if word.bytes() == b"check".as_slice() => Some(Form::Check),
        [word] if word.bytes() == b"show".as_slice() => Some(Form::Show),
        _ => None,
    }
}
