//! Why bytes are no message.
use thiserror::Error;

/// Why a body is no message of its number.
#[derive(Clone, Copy, Debug, PartialEq, Eq, Error)]
pub enum Bad {
    /// Memory ran out. Nothing is said of the body.
    #[error("memory ran out")]
    Memory,
    /// The body spells no message of this number. `at` is the place in the body of the first field that isn't there, or
    /// of the first byte behind the last field, or 0 where no message has the number.
    #[error("malformed at byte {at} of the body")]
    Malformed { at: usize },
}
