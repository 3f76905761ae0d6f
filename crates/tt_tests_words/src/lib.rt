//! Which words each program takes, over the public calls, in tables of good and bad words; and addresses.
//!
//! Only tests stand here, so that a change of a test proves no library.
#![tactic(auto)]

#[cfg(test)]
mod addresses;
#[cfg(test)]
mod words;
