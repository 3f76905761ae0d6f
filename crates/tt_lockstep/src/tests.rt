//! Each theorem is a function that can be called, and does nothing.
use crate::{
    client_facts, however_cut, lockstep, one_rule_apart, one_world, running_client, server_facts,
    small_game, stream_facts, ways, worlds, wrong_clients, wrong_servers,
};

#[test]
fn the_theorems_can_be_called(_rt: HostRuntime) {
    lockstep::<u64, u32>();
    running_client::<u64, u32>();
    worlds::<u64, u32>();
    server_facts::<u64, u32>();
    stream_facts::<u64, u32>();
    client_facts::<u64, u32>();
    one_world::<u64, u32>();
    ways::<u64, u32>();
    however_cut::<u64, u32, u8, bool, u16>();
    small_game();
    one_rule_apart::<u64, u32>();
    wrong_servers();
    wrong_clients();
}
