//! What a coordinator answers and tells, over its public calls.
//!
//! Only tests stand here, so that a change of a test proves no library.
#![tactic(auto)]

#[cfg(test)]
mod coordinator;
