//! A client of a game, as a core without sockets: it is fed bytes, runs the frames that it is permitted, and gives the
//! bytes that it has to say. It trusts nothing that it is told.
#![tactic(auto)]

mod client;
mod items;
mod join;
mod laws;
mod login;
mod news;
mod noted;
mod play;
mod running;
mod seat;
mod stage;
mod state;
mod verdict;
mod waiting;

pub use client::Client;
pub use laws::{any_game, clients_are_in_step, cut_on, has_what_is_shown, in_steps, same_run};
pub use login::Login;
pub use state::{State, SubmitErr};
