//! What becomes of a command.

/// Why a command is refused.
#[derive(Clone, Copy, Debug, PartialEq, Eq)]
pub enum Why {
    /// The number is none that the command takes.
    Amount,
    /// The loan would be too large, or is smaller than what is paid back.
    Loan,
    /// The money is not there, or would be too much.
    Money,
    /// The company is not live; or the one that is given money is not, or is the giver itself.
    NoCompany,
    /// The map has no such tile.
    Tile,
    /// The text is empty, or is the name of another company.
    Text,
    /// The company has no such sign.
    NoSign,
    /// There are as many signs, or companies, as there may be.
    Full,
    /// The world is paused already, or goes on already.
    Same,
}

/// What became of a command. A refused one leaves the world as it was.
#[derive(Clone, Copy, Debug, PartialEq, Eq)]
pub enum Effect {
    /// It is done.
    Done,
    /// It is refused.
    Refused(Why),
}
