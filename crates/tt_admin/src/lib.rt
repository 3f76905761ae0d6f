//! A packet of the admin port is exactly one message or none, and each message has exactly one packet.
//!
//! `AdminMsg::decode` takes a packet's number and body, `AdminMsg::encode` writes the packet. What a message is spelled as
//! stands in one table, one line for each message (specs/Messages.antt); all else is proved from it.
#![tactic(auto)]

mod items;
mod kinds;
mod laws;
mod message;

pub use items::{CommandName, CommandNames, UpdateType, UpdateTypes};
pub use laws::{one_spelling, round_trip, small_packets};
pub use message::AdminMsg;
pub use tt_frame::Bad;
