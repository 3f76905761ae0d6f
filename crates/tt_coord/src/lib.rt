//! A packet of the coordinator, of its STUN desk or of its TURN server is exactly one message or none, and each message
//! has exactly one packet.
//!
//! `decode` of `CoordMsg`, `StunMsg` and `TurnMsg` takes a packet's number and body, `encode` writes the packet. What a
//! message is spelled as stands in three tables, one line for each message (specs/Coord.antt, Stun.antt, Turn.antt); all
//! else is proved from them. A message to a server of these begins with the version of the protocol, which is always 1.
#![tactic(auto)]

mod coord;
mod file_list;
mod info;
mod laws;
mod parts;
mod server_list;
mod stun;
mod turn;

pub use coord::CoordMsg;
pub use file_list::{LookupFile, LookupFiles};
pub use info::Info;
pub use laws::{one_spelling, round_trip, small_packets};
pub use server_list::{Listed, Servers};
pub use stun::StunMsg;
pub use tt_frame::Bad;
pub use turn::TurnMsg;
