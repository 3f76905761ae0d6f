//! What the libraries of worlds, maps, rules, attempts, scripts, the admin desk and outgoing bytes answer to numbers and bytes from
//! outside.
//!
//! Only tests stand here, over public calls, so that a change of a library proves the library alone.
#![tactic(auto)]

#[cfg(test)]
mod attempts;
#[cfg(test)]
mod desk;
#[cfg(test)]
mod log;
#[cfg(test)]
mod map;
#[cfg(test)]
mod outgoing;
#[cfg(test)]
mod outs;
#[cfg(test)]
mod rules;
#[cfg(test)]
mod world;
