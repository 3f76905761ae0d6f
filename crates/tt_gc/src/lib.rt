//! The coordinator core: it takes events, and tells servers and clients how they reach each other.
//!
//! `Coordinator::new` makes one that nothing has reached yet. `event` takes one event, or refuses it and changes nothing; `take` hands
//! out what a connection is told. What events come to is told by the definitions of `tt_gc_table`, whose laws hold of every list.
//!
//! An event is planned first: which messages it tells, made from the table as it stands (`servers`, `clients`, `desk`, `packets`,
//! `planning`), and what is done to the table (`change`). Then room is taken for all that (`outbox`), and it is done at once.
#![tactic(auto)]

mod advance;
mod change;
mod clients;
mod coordinator;
mod desk;
mod outbox;
mod packets;
mod planning;
mod queue;
mod rules;
mod servers;

pub use coordinator::Coordinator;
pub use tt_gc_table::{
    GcSetup, a_bad_packet_ends_its_own_connection, a_code_has_one_server, a_code_is_its_owners,
    all_is_over_exactly_then, core_laws, only_asked_servers_are_listed, strangers_change_nothing,
    ways_in_order,
};
