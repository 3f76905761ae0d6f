//! Every end of a game that runs the same commands in the same frames holds the same world.
//!
//! `World::start` makes the world of a `Setup`, `World::apply` does an `Entry`, and `World::run_frame` runs a frame. What
//! they do is a function of the world and the entry alone, and stands in specs/ as lists and cases: `World` and `Sound`
//! say what a world is, `Commands` has the nine commands, `Economy` a frame. `laws` has what follows from them,
//! and `limits` the greatest numbers.
#![tactic(auto)]

mod apply;
mod changes;
mod command;
mod company;
mod economy;
mod effect;
mod founding;
mod laws;
mod limits;
mod places;
mod random;
mod refusals;
mod setup;
mod sign;
mod signs;
mod world;

pub use command::{Code, Command, Entry};
pub use company::Company;
pub use effect::{Effect, Why};
pub use laws::{
    command_takes_no_time, every_world_is_sound, frame_leaves_signs, gift_keeps_money,
    live_company_stays, money_rests_within_a_day, paused_world_waits,
    refused_command_changes_nothing,
};
pub use limits::{
    COMPANIES, LAST_START_DAY, LOAN_STEP, MOST_GIFT, MOST_LOAN, MOST_MONEY, NEW_COMPANY_MOST,
    PARTS_OF_DAY, SIGNS, TILES,
};
pub use places::{is_taken, no_companies};
pub use random::Random;
pub use setup::Setup;
pub use sign::Sign;
pub use world::World;
