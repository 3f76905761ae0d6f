//! Plans what each event makes of the members of a game, without a change of them, and puts a plan in force without memory.
//!
//! A server holds one `Members`. `plan` says what an `Input` does at a time `Now`, and takes all memory that is wanted; the
//! server turns the plan's steps into bytes; `commit` puts the plan in force, and takes none. What a plan tells and what it
//! leaves are what the rule of the game's book says of the whole table.
#![tactic(auto)]

mod entering;
mod founding;
mod input;
mod inputs;
mod joining;
mod laws;
mod limits;
mod loading;
mod members;
mod permitting;
mod planning;
mod playing;
mod refusing;
mod scene;
mod stamping;
mod ticking;

pub use input::{Input, Now};
pub use laws::{
    a_plan_is_its_rule, a_tick_ends_with_admins, all_else_stays, an_event_is_its_input,
};
pub use members::Members;
pub use tt_members::{
    Audience, Beat, Conns, Edit, Marks, Member, NameBad, Offer, Place, Plan, Queue, Step, Waiting,
    What, name_for,
};
