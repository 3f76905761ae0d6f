//! The text of reports and summaries: what programs write of a game, of its clients and of its numbers.
//!
//! Each function appends to a text, and its contract says what: the definitions of specs/. A line has one text in all
//! programs, so that what one of them writes can be compared with what another one does. docs/SCRIPTS.md tells the lines.
#![tactic(auto)]

mod clients;
mod entries;
mod summary;
mod worlds;

pub use clients::put_client;
pub use entries::put_journal;
pub use summary::{
    put_connections, put_count, put_entry_count, put_frame, put_refused, put_running,
    put_words_line,
};
pub use worlds::{put_holdings, put_server, put_word, put_words, put_world};
