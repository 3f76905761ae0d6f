//! What a client makes of streams of bytes, and what it says.
//!
//! Only tests stand here, over public calls, so that a change of the library proves the library alone.
#![tactic(auto)]

#[cfg(test)]
mod acknowledging;
#[cfg(test)]
mod dialogue;
#[cfg(test)]
mod join;
#[cfg(test)]
mod players;
#[cfg(test)]
mod words;
