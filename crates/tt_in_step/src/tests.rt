//! Each theorem is a function that can be called, and does nothing.
use crate::{
    a_late_start_goes_wrong, all_in_step, all_in_step_however_cut, entries_told,
    every_game_may_begin, fronts_agree, fronts_show, nobody_is_told_a_ban, stamped_once,
    syncs_told, table_is_tied, two_games_are_in_step, wrong_rules_go_wrong,
};

#[test]
fn the_theorems_can_be_called(_rt: HostRuntime) {
    every_game_may_begin();
    table_is_tied();
    all_in_step();
    entries_told();
    syncs_told();
    nobody_is_told_a_ban();
    stamped_once();
    fronts_agree();
    all_in_step_however_cut();
    fronts_show();
    a_late_start_goes_wrong();
    two_games_are_in_step();
    wrong_rules_go_wrong();
}
