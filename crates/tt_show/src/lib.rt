//! The text that tools write for packets: for each one line, with the message's name and its values.
//!
//! `show` reads a list of lines, each with some bytes of a stream, and gives the text of all their packets.
//! `show_bytes` appends the text of one line's bytes, `show_packet` that of one packet. A packet is decoded by its family, and
//! what is written is what the message tells of itself, part by part. What the text is stands in specs/: Texts, SaidWords,
//! Packets, Streams and Lists.
#![tactic(auto)]

mod families;
mod family;
mod laws;
mod list;
mod list_line;
mod packet;
mod shown;
mod stream;
mod words;

pub use family::Family;
pub use laws::{
    one_admin_line, one_bad_line, one_coord_line, one_line, one_stun_line, one_turn_line,
};
pub use list::{ShowError, show};
pub use packet::show_packet;
pub use stream::show_bytes;
