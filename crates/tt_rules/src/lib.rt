//! What a packet of a member is judged by what the server knows of that member alone, and the digest of a password.
//!
//! `verdict` is the part of the rules on statuses, waiting commands, codes, companies and acknowledgements; what needs the
//! other members, names or passwords is judged above. `password_digest` is what a client answers to a request for a
//! password, and `command_of` makes a command of the fields of its packet.
#![tactic(auto)]

mod command;
mod judging;
mod live;
mod password;
mod status;

pub use command::{code_of, command_of, number_of};
pub use judging::verdict;
pub use live::Live;
pub use password::password_digest;
pub use status::{Standing, Status, Verdict};
