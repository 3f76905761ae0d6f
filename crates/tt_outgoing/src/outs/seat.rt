//! What is kept of each connection.
ghost use Rattle.std.specs.Prelude.{◌≡◌, ◌≤◌, ◌-◌, length, slice_set};
ghost use Rattle.tt_outgoing.specs.Outgoing.{seat_of};

/// No part with a lesser number than `first` is the connection's own, and none from `behind` on; parts are numbered from the
/// first one ever told. So many bytes are left to it.
#[derive(Clone, Copy, Debug)]
pub(crate) struct Seat {
    pub(crate) first: u64,
    pub(crate) behind: u64,
    pub(crate) left: u64,
}

/// A connection's seat.
pub(crate) fn seat_of(seats: &[Seat], conn: u32) -> Seat
    requires { (1 ≤ conn) × (conn ≤ length seats.now) }
    ensures { result ≡ seat_of seats.now conn }
{
    seats[conn as usize - 1]
}

/// Puts another seat in its place.
pub(crate) fn set_seat(seats: &mut Vec<Seat>, conn: u32, seat: Seat)
    requires { (1 ≤ conn) × (conn ≤ length seats.old.items) }
    ensures { seats.new.items ≡ slice_set seats.old.items (conn - 1) seat }
{
    seats[conn as usize - 1] = seat;
}
