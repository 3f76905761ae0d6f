//! A client that is fed any front of what its server tells it holds, at each frame that it has run, the world that the
//! server's journal makes of the game's start; and it never finds itself out of step.
//!
//! That is proved here once, for every game: for any worlds and entries, any history of the server and any calls of the
//! client. There is no code to run: each function is a theorem, with an empty body, and its clauses are what is proved.
//! So no edit of code can turn a meaning here; that the definitions are sharp is shown by [`wrong_servers`] and
//! [`wrong_clients`]: each goes astray in a small game that is computed to its end.
//!
//! The definitions stand in specs/, to be read in the order of its Lib.antt; docs/LOCKSTEP.md tells them in words.
//! A crate with a real server states its own promise through [`ways`] and [`however_cut`].
#![tactic(auto)]

mod games;
mod laws;
mod theorem;
mod tying;

pub use games::{one_rule_apart, small_game, wrong_clients, wrong_servers};
pub use laws::{client_facts, one_world, server_facts, stream_facts, worlds};
pub use theorem::{lockstep, running_client};
pub use tying::{however_cut, ways};

#[cfg(test)]
mod tests;
