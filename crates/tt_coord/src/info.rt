//! A server's game, as the coordinator tells it to clients.
use tt_frame::Text;

/// What a server says of its game.
#[derive(Debug, PartialEq, Eq, Drop)]
pub struct Info {
    /// The game's name.
    pub name: Text<31>,
    /// The revision that a client must have.
    pub revision: Text<31>,
    /// How many clients it has.
    pub clients: u8,
    /// How many clients it takes.
    pub max: u8,
    /// How many companies it has.
    pub companies: u8,
    /// Whether it wants a password.
    pub password: bool,
    /// Its frame.
    pub frame: u32,
}
