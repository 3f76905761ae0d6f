//! Texts, fields and framing, and the words of packets of every family.
//!
//! This crate has tests alone, over public calls, so that a change of a library proves the library alone; the messages
//! themselves have their tests in `tt_tests_families`.
#![tactic(auto)]

#[cfg(test)]
mod fields;
#[cfg(test)]
mod framer;
#[cfg(test)]
mod parts;
#[cfg(test)]
mod show;
#[cfg(test)]
mod texts;
