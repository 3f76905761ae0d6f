//! A run of the admin's client over a link, a ticker and a sink: what it says and when, what it shows, and how it ends.
//!
//! `agenda_of` makes one text of all packets that the JOIN and the lines of a command file say, with the ticks after which each is
//! due; `run` goes round by round. What a run did is one record, `DeskSession` (specs/Session); what of the agenda is due stands in
//! specs/Sending, what the packets that come tell in specs/Telling.
#![tactic(auto)]

mod ended;
mod hearing;
mod listening;
mod running;
mod sending;
mod speaking;

pub use ended::Ended;
pub use running::run;
pub use sending::{Agenda, Mark, agenda_of};
