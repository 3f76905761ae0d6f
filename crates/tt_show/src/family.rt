//! The families of messages.

/// A family of messages: each has numbers of its own.
#[derive(Clone, Copy, Debug, PartialEq, Eq, PartialOrd, Ord, Hash)]
pub enum Family {
    /// The messages between a client and the server of a game.
    Game,
    /// The messages between an admin and the server.
    Admin,
    /// The messages between the coordinator and a server or a client.
    Coord,
    /// The messages to the coordinator's STUN desk.
    Stun,
    /// The messages between the coordinator's TURN server and a peer.
    Turn,
}
