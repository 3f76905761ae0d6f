//! The heart of the headless player: a client that is played over a link, round by round, and does the lines of a file at their
//! frames.
//!
//! specs/ tells it in a reader's order: `Acting` has the actions of a run (pieces that are fed, frames that are run, lines that are
//! done, bytes that are taken to be said) and what each makes of the client, `Session` what a finished run did, in totals at its
//! end. `play_rounds` keeps that, for every link, ticker and sink.
#![tactic(auto)]

mod acting;
mod end;
mod laws;
mod player;
mod rounds;

pub use end::PlayEnd;
pub use laws::prints_in_step;
pub use player::Player;
pub use rounds::play_rounds;
