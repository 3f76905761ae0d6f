//! How the steps of a rule become bytes that wait for connections.
//!
//! - `Staged` holds the packets of an event, each with the connections that are told it. `stage` makes them of steps, before
//!   anything changes, and takes all the memory; `deliver` takes none.
//! - `Sources` is what steps are filled in from, as far as a server has it at hand without searching.
//! - `Download` is the running download: the bytes that the next tick tells stand ready, so that staging changes nothing.
//! - `Outs` keeps bytes that many connections were told and have not taken, each byte once.
//!
//! By `packets_are_told` what a connection gets of staged steps is what the book of a game says that it is told.
#![tactic(auto)]

mod audience;
mod companies;
mod download;
mod laws;
mod news;
mod outs;
mod pieces;
mod sources;
mod staged;
mod staging;

pub use download::Download;
pub use laws::{a_download_goes_on, all_may_be_told, packets_are_told, packets_may_be_told};
pub use outs::Outs;
pub use sources::Sources;
pub use staged::Staged;
