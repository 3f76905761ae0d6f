//! The hour script: a realistic game of an hour, made from a number alone, one line after the other.
//!
//! Three clients enter, 2,000 rounds are played in which one of them is told a command each, a fourth client joins in the
//! midst, and the rest of the hour goes by: 120,000 frames, some 13,000 lines. What the lines are says specs/Hour.antt.
//!
//! - `HourLines` gives the lines in order, and holds none: what it keeps is two random words and where it stands.
//! - `hour_setup` is the setup of that game, `put_hour` writes the whole script as text, and `hour_is_script` says that it
//!   is a script, so that its text is parsed to just these lines.
#![tactic(auto)]

mod hour;
mod laws;
mod lines;
mod part;
mod player;
mod turn;

pub use hour::{hour_setup, put_hour};
pub use laws::hour_is_script;
pub use lines::HourLines;
