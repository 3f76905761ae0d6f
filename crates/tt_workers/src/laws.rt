//! What the parts of all workers come to together: a theorem, the clause of a function with an empty body.
ghost use Rattle.tt_room.specs.Passes.{start_of};
ghost use Rattle.tt_workers.specs.Telling.{link_now};
ghost use Rattle.tt_workers.specs.Working.{core_view, door_view, tick_view};
ghost use Rattle.tt_workers.specs.Gathered.{Gathering};

use tt_edge::{Listener, Servable, Ticker};
use tt_room::Room;

/// Where the workers of a room have run by `run_workers` or `run_workers_with`, their passes having put nothing before, and
/// `Room::close` with their passes gave the core: its history is split among the workers, each place to exactly one, and each
/// worker's part is what its listener served or its ticker told.
pub fn one_history<C: Servable, L: Listener, A: Listener, T: Ticker>(room: &Room<C>)
    ensures { Gathering {L = L} {K = L.Link} {A = A} {B = A.Link} {T = T} C.made C.events C.taken room.now
        (core_view (C.sent (C.made (start_of room.now))) (C.is_live (C.made (start_of room.now))) (C.is_over (C.made (start_of room.now))))
        (door_view L.counts L.served L.peers (link_now L.Link.counts L.Link.left L.Link.was_read L.Link.held))
        (door_view A.counts A.served A.peers (link_now A.Link.counts A.Link.left A.Link.was_read A.Link.held))
        (tick_view T.counts T.beats) }
{}
