//! The admin desk: the admins that are there, in order of arrival, and what each of them says.
//!
//! A server holds one `Desk`. `open` and `close` bring and take admins; `heard` says what a message of an admin asks for, or
//! the code that ends it, and changes nothing; `commit` puts in force what was heard; `due` says whether an admin is told of
//! a type of updates on a day. What a heard message does to the rest of the game is the caller's part: by `heard_is_done`
//! it is all that the rules do with the message. `console` reads a line of the server's console.
//!
//! Only `open` takes memory.
#![tactic(auto)]

mod admin;
mod commands;
mod desk;
mod heard;
mod laws;

pub use admin::Admin;
pub use commands::{ConsoleCommand, console};
pub use desk::Desk;
pub use heard::{Heard, Question};
pub use laws::{commit_is_the_rules_change, due_is_told, heard_is_done};
