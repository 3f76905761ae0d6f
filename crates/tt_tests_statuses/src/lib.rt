//! What becomes of a member that says a message of the game, by the message and the member's status.
//!
//! Only tests stand here, over the public calls of the server core, so that a change of a test proves no library.
#![tactic(auto)]

#[cfg(test)]
mod statuses;
