//! The command file of the admin's client, read line by line.
//!
//! `read_file` gives the lines that the bytes spell, or the first bad one. What a line is stands in specs/Commands, the table by
//! which it is read in specs/Reading.
#![tactic(auto)]

mod command;
mod file;
mod reading;

pub use command::Command;
pub use file::{FileBad, read_file};
