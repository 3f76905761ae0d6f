//! The player's file of commands: lines that say what a client is to do, and at which frame.
//!
//! A line is `at F print`, `at F quit`, or `at F` and the words that stand behind `do C` in a script; F doesn't fall from line to
//! line. A line has one spelling, so bytes are one file or none: `parse_commands` gives its lines, or the first bad one.
#![tactic(auto)]

mod line;
mod line_reading;
mod reader;

pub use line::{Act, TimedLine};
pub use reader::parse_commands;
