//! Cuts a stream of bytes into packets, however the stream is cut.
//!
//! - `Text`, `Name`, `Digest` and `UpTo` are values within their limits: each is made by one tested constructor.
//! - `Fields` reads a body field by field and `Put` writes fields; `one_field` is the law of reading.
//! - `Framer` gives the packets of a stream that comes in pieces; `one_reading` and `every_run` are its laws.
//! - The message crates stand on `text`, `number32`, `ended` and the like for decoding; a message tells its parts to a
//!   `PartWriter` by `tell`, and `finish` ends its packet. `Items` is a list within its limit, `LongText` a text behind an
//!   allocation. What a table of messages means is in specs/: FieldForms, ItemForms, Rows, Stops, Tables, Apart, Families.
//! - `OutOfMemory` and `Bad` are the errors. Only `Framer::new`, lists, long texts and what writes take memory, and nothing
//!   waits.
#![tactic(auto)]

mod bad;
mod buffer;
mod decoding;
mod digests;
mod fields;
mod framer;
mod items;
mod laws;
mod long_texts;
mod memory;
mod parts;
mod put;
mod ranges;
mod sealing;
mod texts;

pub use bad::Bad;
pub use decoding::{
    digest, ended, fixed, number8, number16, number16_up_to, number32, number64, optional_digest,
    raw, text, truth, up_to,
};
pub use digests::{Digest, are_hex_digits, digits_or_none};
pub use fields::Fields;
pub use framer::{Framer, LARGEST_PACKET, Next, first_of};
pub use items::{Items, ListItem, array_bytes, counted, marked, tell_counted, tell_marked};
pub use laws::{every_run, one_field, one_reading, text_test};
pub use long_texts::{LongText, long_text};
pub use memory::OutOfMemory;
pub use parts::{Part, PartWriter, tell};
pub use put::Put;
pub use ranges::UpTo;
pub use sealing::finish;
pub use texts::{Line, Name, Short, Text};
