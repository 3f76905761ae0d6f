//! Packets are staged, and a download goes on.

use std::test::Fail;
use tt_game::GameMsg;
use tt_outgoing::{Download, Outs, Staged};
use tt_world::{Setup, World};

#[test]
fn a_message_is_spelled_once(rt: HostRuntime) -> Result<(), Fail> {
    let mut staged = Staged::new(rt.alloc());
    staged.tell_game(&[], &GameMsg::ServerFull)?;
    assert_eq!(rt; staged.wanted(), (0, 0));
    staged.tell_game(&[1, 2], &GameMsg::ServerFull)?;
    staged.tell_game(&[2], &GameMsg::ServerMapDone)?;
    assert_eq!(rt; staged.wanted(), (6, 3));
    staged.clear();
    assert_eq!(rt; staged.wanted(), (0, 0));
    Ok(())
}

#[test]
fn each_is_told_its_packets(rt: HostRuntime) -> Result<(), Fail> {
    let mut outs = Outs::new(rt.alloc());
    outs.add()?;
    outs.add()?;
    let mut staged = Staged::new(rt.alloc());
    staged.tell_game(&[1, 2], &GameMsg::ServerFull)?;
    let (bytes, parts) = staged.wanted();
    outs.reserve(bytes, parts)?;
    staged.deliver(&mut outs);
    assert_eq!(rt; (outs.left(1), outs.left(2)), (3, 3));
    Ok(())
}

#[test]
fn a_small_map_is_told_in_one_tick(rt: HostRuntime) -> Result<(), Fail> {
    let world = World::start(rt.alloc(), &Setup::plain())?;
    let mut download = Download::new(rt.alloc(), world)?;
    assert_eq!(rt; download.left() as usize, download.next().len());
    assert_eq!(rt; download.more(), false);
    download.go_on();
    assert_eq!(rt; download.left(), 0);
    Ok(())
}
