//! The hour script played, and what its game comes to in numbers.
//!
//! `hour_summary` plays the lines of the hour script of a number one after the other, and keeps none of them: what it holds is
//! what the game itself holds. Its text is that of the definition, from scratch over the script's lines (specs/Summed.antt).
//! `made_of` reads the words that ask for the script or the summary of a number, and `write_made` writes what they ask for.
#![tactic(auto)]

mod made;
mod played;
mod summary;

pub use made::{Made, made_of, write_made};
pub use played::hour_summary;
