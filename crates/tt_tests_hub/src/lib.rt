//! What the server core answers and tells, over its public calls, and through a room by two threads.
//!
//! Only tests stand here, so that a change of a test proves no library.
#![tactic(auto)]

#[cfg(test)]
mod games;
#[cfg(test)]
mod packets;
#[cfg(test)]
mod rooms;
