//! Each message of a game, of an admin, of the coordinator, of its STUN desk and of its TURN server there and back, cut,
//! lengthened, with each field past its range, and built by name.
//!
//! This crate has tests alone, over public calls, so that a change of a library proves the library alone.
#![tactic(auto)]

#[cfg(test)]
mod admin;
#[cfg(test)]
mod coord;
#[cfg(test)]
mod game;
#[cfg(test)]
mod limits;
#[cfg(test)]
mod message;
#[cfg(test)]
mod rows;
