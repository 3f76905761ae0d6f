//! What a script is, and what a game is: the definitions that the server, its clients and the replay program stand on.
//!
//! **Scripts.** A script means one thing: its bytes spell one script, or there is a first line that is no script line in
//! its place.
//!
//! - `parse_script` gives the script or the number of that line, `print_script` the text that is parsed to it.
//! - `ScriptReader` reads one line after the other and keeps none, for scripts of millions of lines.
//! - What a script is stands in specs/: `Forms` (how a word is spelled), the tables `Settings`, `Orders` and `Lines` (the
//!   words of each kind of line) and `Script` (which lines may stand where). `Reading` and `Rows` are the tables by which
//!   the code reads; that both say the same is proved.
//!
//! **The book of a game.** The server's table, what it judges, and what each event changes and tells, from the start on:
//! specs/ from `Origin` to `Shown`, in the order in which a reader needs them. A rule is a function from a table to a table
//! and what is told (`Deed`), and rules are joined one behind the other. Admins have files of their own (`Admin`,
//! `Watching`, `Polls`, `Console`, `Desk`, `Reports`): the rules of those that play have one hook for each thing that admins
//! see. `laws` and `facts` have what follows from all of them.
#![tactic(auto)]

pub mod deed;
mod facts;
mod laws;
pub mod report;
pub mod script;

pub use facts::{
    all_is_spelled, entries_are_of_senders, few_clients, first_in_queue_downloads, names_differ,
    tables_are_in_range, tokens_are_answered,
};
pub use laws::{
    a_door_has_its_family, a_refused_admin_ends_alone, a_tick_is_a_frame, admins_are_unseen,
    ended_stays, foundings_are_the_worlds, frame_and_top, journal_rises, malformed_ends_its_own,
    members_are_marked, members_in_order, new_game_is_one, nobody_behind_the_end, not_yet_told,
    one_journal_one_world, over_stays, queue_is_of_those_that_load, refused_event_changes_nothing,
    shown_is_seen, stamped_once, told_goes_on, unopened_hears_nothing,
    who_has_not_joined_hears_little,
};
pub use script::{
    Bytes, Line1, Script, ScriptBad, ScriptReader, Setting, Step, parse_script, print_script,
    put_script_line, put_set_line,
};
