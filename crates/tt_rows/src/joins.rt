//! Joining and downloading. This function does nothing: its contract is the games.
ghost use Rattle.std.specs.Prelude.{◌≡◌, [], false, codes, Some};
ghost use Rattle.tt_log.specs.History.{table_of, world_behind};
ghost use Rattle.tt_rows.specs.Words.{name_on, world};
ghost use Rattle.tt_rows.specs.Games.{ComesTo};
ghost use Rattle.tt_rows.specs.JoinsGames.{two_joins_one_broken, empty_name, same_name, whole_join, next_downloads};
ghost use Rattle.tt_rows.specs.JoinsGames.{first_leaves, asked_for_password, right_password, wrong_password, full};
ghost use Rattle.tt_rows.specs.JoinsGames.{servers_packets, wrong_times};

/// What joining and downloading come to.
pub fn joins_come_to()
    ensures two_joins_one_broken { ComesTo two_joins_one_broken }
    ensures empty_name { ComesTo empty_name }
    ensures same_name { ComesTo same_name }
    ensures whole_join { ComesTo whole_join }
    ensures next_downloads { ComesTo next_downloads }
    ensures first_leaves { ComesTo first_leaves }
    ensures asked_for_password { ComesTo asked_for_password }
    ensures right_password { ComesTo right_password }
    ensures wrong_password { ComesTo wrong_password }
    ensures full { ComesTo full }
    ensures servers_packets { ComesTo servers_packets }
    ensures wrong_times { ComesTo wrong_times }
    ensures two_joins_one_broken_world { world_behind two_joins_one_broken.origin two_joins_one_broken.events
        ≡ world (0, 0) 0 0 false [] [] }
    ensures empty_name_world { world_behind empty_name.origin empty_name.events ≡ world (0, 0) 0 0 false [] [] }
    ensures same_name_name_2 { name_on (table_of same_name.origin same_name.events) 2 ≡ Some (codes "Ann #1") }
    ensures same_name_world { world_behind same_name.origin same_name.events ≡ world (0, 0) 0 0 false [] [] }
    ensures whole_join_world { world_behind whole_join.origin whole_join.events ≡ world (1, 3217329428) 0 2 false [] [] }
    ensures next_downloads_world { world_behind next_downloads.origin next_downloads.events
        ≡ world (4263798957, 4294967295) 0 1 false [] [] }
    ensures first_leaves_world { world_behind first_leaves.origin first_leaves.events ≡ world (0, 0) 0 0 false [] [] }
    ensures asked_for_password_world { world_behind asked_for_password.origin asked_for_password.events ≡ world (0, 0) 0 0 false [] [] }
    ensures right_password_world { world_behind right_password.origin right_password.events ≡ world (0, 0) 0 0 false [] [] }
    ensures wrong_password_world { world_behind wrong_password.origin wrong_password.events ≡ world (0, 0) 0 0 false [] [] }
    ensures full_world { world_behind full.origin full.events ≡ world (0, 0) 0 0 false [] [] }
    ensures servers_packets_world { world_behind servers_packets.origin servers_packets.events ≡ world (0, 0) 0 0 false [] [] }
    ensures wrong_times_world { world_behind wrong_times.origin wrong_times.events ≡ world (0, 0) 0 0 false [] [] }
{}
