//! Links, listeners and tickers: in memory, over loopback, and over the clock.
ghost use Rattle.std.specs.Prelude.{◌≡◌, [], ◌∷◌, ◌<◌, IfOk, length};
ghost use Rattle.tt_edge.specs.MemLink.{IsFreshLink};

use crate::shared::HOME;
use std::alloc::Global;
use std::io::{Read, Write};
use std::net::{Shutdown, TcpListener, TcpStream};
use std::process::Abort;
use std::test::*;
use std::time::{Clock, Duration};
use tt_edge::*;

/// A plan whose reads and writes with these numbers fail and idle.
fn plan(
    alloc: Global,
    failing_reads: &[u64],
    idle_reads: &[u64],
    failing_writes: &[u64],
    idle_writes: &[u64],
) -> Result<LinkPlan, Fail> {
    Ok(LinkPlan {
        failing_reads: failing_reads.to_vec(alloc)?,
        idle_reads: idle_reads.to_vec(alloc)?,
        failing_writes: failing_writes.to_vec(alloc)?,
        idle_writes: idle_writes.to_vec(alloc)?,
    })
}

/// A read of four bytes answers this, and they are then these.
fn reads<R: Abort, L: Link>(rt: &R, link: &mut L, wanted: LinkGot, bytes: [u8; 4]) {
    let mut piece = [0; 4];
    let found = link.read(&mut piece);
    assert_eq!(rt; (found, piece), (wanted, bytes));
}

/// A write of these bytes answers this.
fn writes<R: Abort, L: Link>(rt: &R, link: &mut L, bytes: &[u8], wanted: LinkWrote)
    requires { 0 < length bytes.now }
{
    assert_eq!(rt; link.write(bytes), wanted);
}

#[test]
fn a_link_in_memory_reads_by_its_plan(rt: HostRuntime) -> Result<(), Fail> {
    let alloc = rt.alloc();
    let plan = plan(alloc, &[0, 7], &[2, 7], &[], &[])?;
    let mut link = MemLink::new(alloc, b"abcd".to_vec(alloc)?, 9, plan)?.at_most(3);
    reads(&rt, &mut link, LinkGot::Failed, [0; 4]);
    reads(&rt, &mut link, LinkGot::Bytes(3), [97, 98, 99, 0]);
    reads(&rt, &mut link, LinkGot::Nothing, [0; 4]);
    reads(&rt, &mut link, LinkGot::Bytes(1), [100, 0, 0, 0]);
    for _ in 0..4 {
        reads(&rt, &mut link, LinkGot::End, [0; 4]);
    }
    Ok(())
}

#[test]
fn a_link_in_memory_is_written_by_its_plan(rt: HostRuntime) -> Result<(), Fail> {
    let alloc = rt.alloc();
    let plan = plan(alloc, &[], &[], &[1], &[1, 2])?;
    let mut link = MemLink::new(alloc, Vec::new(alloc), 4, plan)?.at_most(3);
    writes(&rt, &mut link, b"abcd", LinkWrote::Count(3));
    writes(&rt, &mut link, b"abcd", LinkWrote::Failed);
    writes(&rt, &mut link, b"abcd", LinkWrote::Nothing);
    writes(&rt, &mut link, b"abcd", LinkWrote::Count(1));
    writes(&rt, &mut link, b"abcd", LinkWrote::Failed);
    assert_eq!(rt; link.written(), b"abca".as_slice());
    Ok(())
}

/// A listener that gives this link.
fn listener_of(
    alloc: Global,
    link: MemLink,
    failing: &[u64],
    idle: &[u64],
) -> Result<MemListener, Fail>
    requires { IsFreshLink link }
{
    let mut coming = Vec::new(alloc);
    coming.push((link, HOME))?;
    Ok(MemListener::new(alloc, coming, failing.to_vec(alloc)?, idle.to_vec(alloc)?)?)
}

/// What a listener answered, in a word.
fn word<L>(accepted: &Accepted<L>) -> &'static str {
    match accepted {
        Accepted::Link(_, _) => "link",
        Accepted::Nothing => "nothing",
        Accepted::Failed => "failed",
    }
}

#[test]
fn a_listener_in_memory_gives_its_links_and_takes_them_back(rt: HostRuntime) -> Result<(), Fail> {
    let alloc = rt.alloc();
    let link = MemLink::new(alloc, Vec::new(alloc), 0, LinkPlan::working(alloc))?;
    let mut listener = listener_of(alloc, link, &[0], &[1])?;
    assert_eq!(rt; word(&listener.accept()), "failed");
    assert_eq!(rt; word(&listener.accept()), "nothing");
    let Accepted::Link(link, peer) = listener.accept() else {
        panic!(rt; "no link was given")
    };
    assert_eq!(rt; peer, HOME);
    let served = Served {
        conn: 1,
        read: 2,
        written: 3,
        end: LinkEnd::Done,
    };
    listener.retire(served, link);
    assert_eq!(rt; word(&listener.accept()), "nothing");
    assert_eq!(rt; listener.served().len(), 1);
    assert_eq!(rt; listener.served()[0].0, served);
    Ok(())
}

/// A ticker tells this.
fn tells<R: Abort, T: Ticker>(rt: &R, ticker: &mut T, wanted: Beat) {
    assert_eq!(rt; ticker.wait(), wanted);
}

#[test]
fn a_ticker_in_memory_answers_by_the_number_of_the_call(rt: HostRuntime) -> Result<(), Fail> {
    let alloc = rt.alloc();
    let mut ticker = MemTicker::new(5, [1, 3].to_vec(alloc)?, [2, 3].to_vec(alloc)?);
    tells(&rt, &mut ticker, Beat::Tick);
    tells(&rt, &mut ticker, Beat::Failed);
    tells(&rt, &mut ticker, Beat::Stop);
    tells(&rt, &mut ticker, Beat::Failed);
    tells(&rt, &mut ticker, Beat::Tick);
    tells(&rt, &mut ticker, Beat::Failed);
    tells(&rt, &mut ticker, Beat::Failed);
    Ok(())
}

/// Bytes that come from a peer are read.
fn sends<R: Abort, L: Link>(rt: &R, peer: &mut TcpStream, link: &mut L) -> Result<(), Fail> {
    reads(rt, link, LinkGot::Nothing, [0; 4]);
    assert_eq!(rt; peer.write(b"abc")?, 3);
    reads(rt, link, LinkGot::Bytes(3), *b"abc\0");
    Ok(())
}

/// Bytes that are written come to a peer.
fn hears<R: Abort, L: Link>(rt: &R, peer: &mut TcpStream, link: &mut L) -> Result<(), Fail> {
    let mut piece = [0; 4];
    writes(rt, link, b"xy", LinkWrote::Count(2));
    assert_eq!(rt; peer.read(&mut piece)?, 2);
    assert_eq!(rt; piece, *b"xy\0\0");
    Ok(())
}

/// The end that a peer tells is told, and again.
fn ends<R: Abort, L: Link>(rt: &R, peer: &mut TcpStream, link: &mut L) -> Result<(), Fail> {
    peer.shutdown(Shutdown::Write)?;
    reads(rt, link, LinkGot::End, [0; 4]);
    reads(rt, link, LinkGot::End, [0; 4]);
    Ok(())
}

#[test]
fn bytes_go_both_ways_over_loopback_and_an_end_is_told_again(rt: HostRuntime) -> Result<(), Fail> {
    let listener = TcpListener::bind(&rt, "127.0.0.1:0")?;
    let place = listener.local_addr()?;
    let mut door = TcpDoor::new(&rt, listener)?.another()?;
    assert_eq!(rt; word(&door.accept()), "nothing");
    let mut peer = TcpStream::connect(&rt, place)?;
    let Accepted::Link(mut link, from) = door.accept() else {
        panic!(rt; "nobody came")
    };
    assert_eq!(rt; from.host, [127, 0, 0, 1]);
    sends(&rt, &mut peer, &mut link)?;
    hears(&rt, &mut peer, &mut link)?;
    ends(&rt, &mut peer, &mut link)?;
    let (conn, read, written, end) = (1, 3, 2, LinkEnd::PeerEnd);
    door.retire(
        Served {
            conn,
            read,
            written,
            end,
        },
        link,
    );
    assert_eq!(rt; peer.read(&mut [0; 4])?, 0);
    Ok(())
}

/// The last of a thousand writes, or the first that wrote nothing.
fn last_write<L: Link>(link: &mut L, bytes: &[u8]) -> LinkWrote
    requires { 0 < length bytes.now }
{
    let mut last = LinkWrote::Count(0);
    for _ in 0..1000 {
        last = link.write(bytes);
        if last == LinkWrote::Nothing {
            break;
        }
    }
    last
}

#[test]
fn a_peer_that_takes_no_byte_stalls_its_link(rt: HostRuntime) -> Result<(), Fail> {
    let listener = TcpListener::bind(&rt, "127.0.0.1:0")?;
    let place = listener.local_addr()?;
    let mut door = TcpDoor::new(&rt, listener)?;
    let _peer = TcpStream::connect(&rt, place)?;
    let Accepted::Link(mut link, _) = door.accept() else {
        panic!(rt; "nobody came")
    };
    let bytes = vec![in rt.alloc(); 7u8; 65536]?;
    assert_eq!(rt; last_write(&mut link, &bytes), LinkWrote::Nothing);
    Ok(())
}

#[test]
fn a_clock_ticks_every_thirty_milliseconds_and_stops(rt: HostRuntime) -> Result<(), Fail> {
    let mut ticker = ClockTicker::stopping_after(&rt, 3);
    let begun = rt.monotonic()?;
    for _ in 0..3 {
        tells(&rt, &mut ticker, Beat::Tick);
    }
    let passed = rt.monotonic()?.saturating_sub(begun);
    let least = Duration::from_millis(60);
    assert_eq!(rt; (passed, passed >= least), (passed, true));
    tells(&rt, &mut ticker, Beat::Stop);
    tells(&rt, &mut ClockTicker::new(&rt), Beat::Tick);
    Ok(())
}
