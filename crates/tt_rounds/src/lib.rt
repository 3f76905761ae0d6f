//! What the programs of people share: the headless player and the admin's client.
//!
//! Each reads a file of commands, and then goes round by round over one link: it hears what came, says what is due as far as
//! the link takes it, and waits for a beat. `read_commands` reads the file, `hear_round` and `say_round` are the halves of a
//! round, over anything that hears pieces (`Hear`) and has bytes to say (`Say`). What waits between the two is an `Outbox`.
//! proofs/Pacing has what the beats of a run are bounded by.
#![tactic(auto)]

mod commands;
mod hearing;
mod outbox;
mod saying;

pub use commands::read_commands;
pub use hearing::{Hear, Heard, hear_round};
pub use outbox::{Outbox, Said};
pub use saying::{Say, say_round};
