//! The tests of the libraries, over their public calls alone. A library with tests of its own is proved twice, so they stand
//! here; those that cross crates stand here too.
#![tactic(auto)]

#[cfg(test)]
mod edge;
#[cfg(test)]
mod outside;
#[cfg(test)]
mod room;
#[cfg(test)]
mod shared;
#[cfg(test)]
mod workers;
