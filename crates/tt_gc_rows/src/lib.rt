//! Worked events of a coordinator: what the definitions make of small lists of events, computed by the checker.
//!
//! Each function is a list: its contract says what each connection was told and whether it lives, and of the attempts that it
//! names the ways that were told and what the attempt heard. What is wanted came from outside the definitions.
#![tactic(auto)]

mod attempts;
mod desk;
mod drawn;
mod ends;
mod limits;
mod registry;

pub use attempts::{
    makes_addresses_fail, makes_addresses_fail_the_client, makes_all_ways_fail,
    makes_another_attempt, makes_another_turn_server, makes_connected_by_stun,
    makes_connected_by_turn, makes_connected_directly, makes_connected_in_time, makes_every_kind,
    makes_no_such_code, makes_no_such_server, makes_no_way, makes_of_itself,
    makes_of_itself_by_stun, makes_refused_by_the_server, makes_second_alone,
    makes_server_says_connected, makes_strangers, makes_turn_alone, makes_without_the_second,
};
pub use desk::{
    makes_both_shown, makes_desk_broken, makes_desk_too_early, makes_desk_waits,
    makes_nothing_noted, makes_shown_at_the_desk, makes_shown_at_the_main_door,
};
pub use drawn::makes_codes;
pub use ends::{
    makes_another_version, makes_client_ends, makes_coordinators_packet, makes_cost_not_reached,
    makes_cost_reached, makes_ended_speaks, makes_server_errs, makes_server_with_one_client,
    makes_server_with_three, makes_stopped,
};
pub use limits::{
    makes_end_of_ticks, makes_full_desk, makes_full_of_attempts, makes_full_of_servers,
};
pub use registry::{
    makes_another_secret, makes_code_still_live, makes_empty_update, makes_listed,
    makes_listed_anew, makes_listing_of_none, makes_nothing_drawn_in_vain, makes_other_words,
    makes_registered_again, makes_registration, makes_registration_in_bytes,
    makes_secret_without_code, makes_unknown_code, makes_update_of_nobody,
};
