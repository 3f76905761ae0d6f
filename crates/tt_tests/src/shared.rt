//! What the tests of several crates begin with.
ghost use Rattle.std.specs.Prelude.{◌≡◌, true};
ghost use Rattle.tt_edge.specs.Event.{is_open};

use tt_edge::{Door, Event, Peer};

/// Where the tests' connections come from.
pub const HOME: Peer = Peer {
    host: [127, 0, 0, 1],
    port: 3979,
};

/// A connection at the main door.
pub fn opening() -> Event
    ensures { is_open result ≡ true }
{
    Event::Open {
        door: Door::Main,
        peer: HOME,
    }
}
