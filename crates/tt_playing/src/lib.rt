//! The lines of a script, done on a game and on the clients that the script attaches to its connections.
//!
//! `start_of` finds what the game of a script starts from, `begun` makes that game, and `do_line` does one line. Whoever has
//! a script as lines does them one after the other; `play_script` does those of a text, which it reads line by line. What
//! comes of it is a `Play`: the hub, and of each connection its door, its client, if one is attached, and, where that is
//! asked for, the bytes that were handed to the client. docs/SCRIPTS.md tells the lines.
//!
//! The laws `attached_in_step` and `lines_in_step` say, of every script, that a client to which nothing is forged holds the
//! worlds of the server's journal, and that the lines that tell it are of that journal.
#![tactic(auto)]

mod attached;
mod bringing;
mod events;
mod laws;
mod play;
mod start;

pub use attached::client_of;
pub use laws::{attached_in_step, lines_in_step};
pub use play::{Connection, Play, begun, do_line, do_step, next_number, play_script};
pub use start::{Start, start_of};
