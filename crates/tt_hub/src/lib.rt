//! The server core: it takes events, keeps the game that they make, and tells each connection its bytes.
//!
//! `Hub::new` makes a game that nothing has reached yet, and `Hub::from_world` one that starts from a saved world. `event` takes
//! one event or refuses it and changes nothing; `take` hands out what a connection is told. All else tells how the game stands.
//!
//! ```text
//!   event -> Game::plan -> Game::stage -> room -> Game::put -> Outs   (all that may fail comes before `put`)
//!   take  <---------------------------------------------------- Outs
//! ```
#![tactic(auto)]

mod delivering;
mod hub;
pub mod laws;

pub use hub::{FromErr, Hub};
pub use tt_outgoing::Outs;
