//! The words of four programs: the server, the player, the admin's client and the coordinator.
//!
//! A program's first words are addresses (`address_of`) and the path of a file; what stands behind them are options, each
//! with one value and given at most once, which `server_words`, `play_words`, `admin_words` and `coordinator_words` read.
//! Each program's options stand in one table of specs/Options, which is the command that `clap` reads; specs/Forms says
//! which value each option may have, and what it is where it isn't given. `words_of` gives a program's words, and
//! `answer_of` what its first word asks of it: `--help` or `--version`.
#![tactic(auto)]

mod address;
mod admin;
mod command;
mod coordinator;
mod help;
mod options;
mod play;
mod program;
mod server;
mod taken;
mod values;

pub use address::address_of;
pub use admin::{AdminWords, admin_words};
pub use command::WordsError;
pub use coordinator::{CoordinatorWords, coordinator_words};
pub use help::answer_of;
pub use play::{PlayWords, play_words};
pub use program::Program;
pub use server::{ServerWords, server_words};
pub use taken::words_of;
