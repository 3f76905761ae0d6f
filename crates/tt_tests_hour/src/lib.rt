//! What the hour script says, line by line, and what its text is parsed to.
//!
//! Only tests stand here, over public calls, so that a change of a library proves the library alone.
#![tactic(auto)]

#[cfg(test)]
mod hour;
