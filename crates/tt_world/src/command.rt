//! What a company, a client or the server asks of the world.
use tt_frame::Short;

/// What a command does. The numbers 0 to 8 are those on the wire, in this order.
#[derive(Clone, Copy, Debug, PartialEq, Eq)]
pub enum Code {
    /// The company borrows `number`.
    IncreaseLoan,
    /// The company pays back `number` of its loan.
    DecreaseLoan,
    /// The company gives `number` to the company `to`.
    Give,
    /// The company puts up a sign with `text` at the tile `number`.
    PlaceSign,
    /// The company's sign with the id `number` says `text` from now on, or is taken away where that is empty.
    RenameSign,
    /// The company's name becomes `text`.
    RenameCompany,
    /// The name of the company's president becomes `text`.
    RenamePresident,
    /// The world is paused where `number` is 1, and goes on where it is 0.
    Pause,
    /// A company is founded.
    NewCompany,
}

/// A command. Fields that its code doesn't use are kept and ignored.
#[derive(Debug, PartialEq, Eq, Drop)]
pub struct Command {
    /// What it does.
    pub code: Code,
    /// A sum of money, a tile, the id of a sign, or a flag.
    pub number: u32,
    /// The company that is given money.
    pub to: u8,
    /// A name, or what a sign says.
    pub text: Short,
}

/// A command as it is done in a frame: everywhere in the same frame, for the same company.
#[derive(Debug, PartialEq, Eq, Drop)]
pub struct Entry {
    /// The frame that it is for.
    pub frame: u32,
    /// The client that sent it; 1 is the server.
    pub sender: u32,
    /// The number of the company that it is for; 255 for none.
    pub company: u8,
    /// The command.
    pub command: Command,
}
