//! The table of a coordinator: servers are found by codes, and a client is brought to one way by way.
//!
//! What a list of events makes of a coordinator stands in specs/: the table (Table.antt), small steps that tell (Deed.antt),
//! each packet's rule (PacketRules.antt), the STUN desk (Desk.antt), the rule of an event (Events.antt), and what each connection
//! is told (Told.antt). `core_laws`, `ways_in_order` and `strangers_change_nothing` say what holds of every list; `tt_gc_rows`
//! computes what small lists come to.
//!
//! In code there is the table by its parts (`Parts`): each call finds by key and is told by the table's own words. And there are a
//! plan's messages (`Tells`), with what an open attempt hears as a rule that is planned and then done (`plan_failed`, `hear`). The
//! core over them is `tt_gc`.
#![tactic(auto)]

mod by_connection;
mod codes;
mod heard;
mod hosts;
mod laws;
mod leaving;
mod lines;
mod listing;
mod meetings;
mod parts;
mod registry;
mod setup;
mod tells;
mod tokens;
mod words;

pub use codes::{code_text, undrawn};
pub use heard::{Hearing, hear, plan_connected, plan_failed, plan_result};
pub use laws::{
    a_bad_packet_ends_its_own_connection, a_code_has_one_server, a_code_is_its_owners,
    all_is_over_exactly_then, core_laws, no_code_is_drawn_twice, only_asked_servers_are_listed,
    strangers_change_nothing, ways_in_order,
};
pub use leaving::plan_end;
pub use listing::plan_listing;
pub use meetings::{End, Meeting};
pub use parts::{Parts, Seen};
pub use registry::{Secret, Served};
pub use setup::GcSetup;
pub use tells::{Tell, Tells};
pub use words::tell_word;
