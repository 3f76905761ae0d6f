//! An attempt to connect tries each way that applies, in one order, and the next only once the one before has failed.
//!
//! `InviteCode` is the code by which a server is found: `parse` tests bytes, `draw` makes one of random words. `Attempt`
//! is how the coordinator brings a client and a server together: `first` tells the first way, and `step` answers each
//! event. What they do stands in specs/Attempts.antt, by cases; what follows for whole runs of them are the laws
//! `ways_in_order`, `next_only_after_failure`, `addresses_after_both_results`, `silent_at_the_end` and
//! `other_events_change_nothing`. Nothing here takes memory.
#![tactic(auto)]

mod attempt;
mod code;
mod laws;

pub use attempt::{Attempt, Heard, Stage, Told, Ways};
pub use code::{InviteCode, draw_characters};
pub use laws::{
    addresses_after_both_results, next_only_after_failure, other_events_change_nothing,
    silent_at_the_end, ways_in_order,
};
