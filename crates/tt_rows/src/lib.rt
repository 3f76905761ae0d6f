//! Worked games: what the definitions make of small lists of events, computed by the checker, byte by byte.
//!
//! Each function is a game: its contract says what was sent to each connection, who is live, the journal, the frame and the
//! world behind the events; those of `shown` say what a stream shows its client. What is wanted came from outside the
//! definitions.
#![tactic(auto)]

mod admin_days;
mod admin_joins;
mod admin_news;
mod admin_polls;
mod admin_talks;
mod admin_week;
mod aside;
mod commands;
mod console;
mod entering;
mod joins;
mod lasting;
mod limits;
mod maps;
mod orders;
mod playing;
mod saved;
mod shown;
mod steps;
mod streams;
mod talks;
mod tokens;

pub use admin_days::admin_days_come_to;
pub use admin_joins::admin_joins_come_to;
pub use admin_news::admin_news_come_to;
pub use admin_polls::admin_polls_come_to;
pub use admin_talks::admin_talks_come_to;
pub use admin_week::admin_week_come_to;
pub use aside::side_by_side_come_to;
pub use commands::commands_come_to;
pub use console::console_lines_come_to;
pub use entering::ways_in_come_to;
pub use joins::joins_come_to;
pub use lasting::limits_come_to;
pub use limits::first_limits_come_to;
pub use maps::maps_come_to;
pub use orders::orders_come_to;
pub use playing::plays_come_to;
pub use saved::saved_games_come_to;
pub use shown::{
    shows_a_founder, shows_a_spectator, shows_a_stop, shows_its_end, shows_moves,
    shows_two_founders, shows_where_it_is_wrong,
};
pub use steps::first_steps_come_to;
pub use streams::streams_show;
pub use talks::talks_come_to;
pub use tokens::tokens_come_to;
