//! The members of a game, and what a plan of their change is: members in order of arrival, their commands that wait, the queue
//! of downloads, names; changes, one after another; and steps, which say who is told what.
//!
//! A rule of the game's book is planned first, and changes nothing: it fills a `Plan`, which holds changes and steps. Putting
//! it in force takes no memory. The specs say what a plan does to a whole table, and what it tells, so that above it can be
//! said that it is what the book's rule does. The rules themselves stand in `tt_join`.
#![tactic(auto)]

mod commit;
mod edit;
mod leaving;
mod marks;
mod member;
mod names;
mod order;
mod plan;
mod queue;
mod step;
mod waiting;

pub use commit::count_founders;
pub use edit::{Beat, Edit, Offer};
pub use leaving::{Parting, end, leave, move_up, others, playing, reason, unask};
pub use marks::Marks;
pub use member::Member;
pub use names::{NameBad, name_for};
pub use order::{apply, apply_all, fresh_token, offer, place_of, rename};
pub use plan::Plan;
pub use queue::{Place, Queue};
pub use step::{Audience, Step, Steps};
pub use tt_log::deed::{Conns, What};
pub use waiting::Waiting;
