//! The members of a game, by worked rows.
//!
//! Only tests stand here, over public calls, so that a change of a library proves the library alone.
#![tactic(auto)]

#[cfg(test)]
mod members;
