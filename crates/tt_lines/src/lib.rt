//! Texts that are read line by line, and texts that are written: scripts, lists, command files and reports.
//!
//! `first_line` cuts lines, `first_word` and `behind` cut a line, `number_of` and `piece_of` read a number and bytes in
//! digits. Each number and each list of bytes has one spelling, so a line that is made of them means one thing. `put`,
//! `put_number`, `put_bytes` and their like append them. specs/Lines says which lines bytes have, and which line of an
//! input is the first bad one.
#![tactic(auto)]

mod cutting;
mod number;
mod piece;
mod writing;

pub use cutting::{behind, first_line, first_word};
pub use number::number_of;
pub use piece::piece_of;
pub use writing::{put, put_bytes, put_number};

#[cfg(test)]
mod tests;
