//! What the admin desk answers to lines of the console, to joins, to polls, and to whoever has not joined.
//!
//! Only tests stand here, over public calls, so that a change of a library proves the library alone.
#![tactic(auto)]

#[cfg(test)]
mod desk_words;
