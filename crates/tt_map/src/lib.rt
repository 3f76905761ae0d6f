//! A world is written as one spelling of bytes, its map, and no other bytes are taken for one but those of the first version.
//!
//! - `encode_map` gives the map of a world, and `decode_map` the world of a map. `MapReader` takes a map in pieces, of any
//!   sizes, and takes all its memory when it is made. `MapWriter` gives a map in pieces, and takes none.
//! - There are two versions. The second one is written. The first one, which tells no greatest loans of companies, is
//!   read as well: they are 300,000.
//! - `MapBad` says why bytes are no map: another tag, another version, or the place of the first chunk that breaks a rule.
//! - `one_map`, `one_fault` and `map_in_pieces` are the laws: a world has one map that is written, a map one world, and
//!   bytes that are no map one fault; what a `MapWriter` gives, in any pieces, is the map.
//! - What a map is stands in specs/: Layout has the bytes, Maps says which bytes are a map, Faults where others break the
//!   layout. Reading is a reader of lists that the code is proved against; that it reads exactly the maps, the contracts of
//!   `decode_map` and `MapReader::finish` say without it.
#![tactic(auto)]

mod bad;
mod chunks;
mod companies;
mod decoding;
mod encoding;
mod laws;
mod pieces;
mod place;
mod reader;
mod reading;
mod signs;
mod values;
mod version;
mod writer;

pub use bad::MapBad;
pub use decoding::decode_map;
pub use encoding::encode_map;
pub use laws::{map_in_pieces, one_fault, one_map};
pub use reader::MapReader;
pub use writer::MapWriter;
