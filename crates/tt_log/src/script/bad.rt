//! Why bytes are no script.
ghost use Rattle.std.specs.Prelude.{◌≡◌};
ghost use Rattle.tt_log.specs.declared.script.bad.NoLine.TheVariants as none;
ghost use Rattle.tt_log.specs.declared.script.bad.ScriptBad.TheVariants as script;

use std::alloc::{AllocError, AllocFailed};
use thiserror::Error;
use tt_frame::OutOfMemory;

/// Why a text gave no line.
#[derive(Clone, Copy, Debug, PartialEq, Eq, Error)]
pub enum NoLine {
    /// It is none.
    #[error("no line of a script")]
    Bad,
    /// Memory ran out.
    #[error("memory ran out")]
    Memory,
}

impl From<AllocError> for NoLine {
    ghost from_gives = { λ _ e. e ≡ none.Memory };

    fn from(_error: AllocError) -> Self {
        NoLine::Memory
    }
}

impl From<OutOfMemory> for NoLine {
    ghost from_gives = { λ _ e. e ≡ none.Memory };

    fn from(_error: OutOfMemory) -> Self {
        NoLine::Memory
    }
}

/// Why bytes gave no script.
#[derive(Clone, Copy, Debug, PartialEq, Eq, Error)]
pub enum ScriptBad {
    /// This line, counted from 1, is the first that is no script line in its place.
    #[error("line {0} is no script line in its place")]
    Line(u32),
    /// Memory ran out.
    #[error("memory ran out")]
    Memory,
}

impl From<AllocError> for ScriptBad {
    ghost from_gives = { λ _ e. e ≡ script.Memory };

    fn from(_error: AllocError) -> Self {
        ScriptBad::Memory
    }
}

impl<T: Drop> From<AllocFailed<T>> for ScriptBad {
    ghost from_gives = { λ _ e. e ≡ script.Memory };

    fn from(_failed: AllocFailed<T>) -> Self {
        ScriptBad::Memory
    }
}
