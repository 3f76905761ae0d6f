//! What a server says at its end is a front of its summary, and all of it where its sink took all: no want of memory stands between.
//!
//! `run` serves a core over the doors of a program, tells its summary to a sink, and answers the program's status. `Figures` says what the
//! summary of a core is; a program gives it. A `Page` holds text on its way to a sink, and takes no memory.
//!
//! ```text
//!   core -> serve (tt_workers) -> core, with its history -> figures -> page -> sink
//!                              -> ends of its workers ----------------------> status
//! ```
#![tactic(auto)]

mod doors;
mod figures;
mod page;
mod serving;

pub use doors::{SocketDoors, doors_at};
pub use figures::Figures;
pub use page::{Label, Page, Part};
pub use serving::run;
