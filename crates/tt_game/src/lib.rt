//! A packet of a game is exactly one message or none, and each message has exactly one packet.
//!
//! `GameMsg::decode` takes a packet's number and body, `GameMsg::encode` writes the packet. What a message is spelled as
//! stands in one table, one line for each message (specs/Messages.antt); all else is proved from it.
#![tactic(auto)]

mod files;
mod kinds;
mod laws;
mod map_piece;
mod message;

pub use files::{File, Files};
pub use laws::{one_spelling, round_trip, small_packets};
pub use map_piece::MapPiece;
pub use message::GameMsg;
pub use tt_frame::Bad;
