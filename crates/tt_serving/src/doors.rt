//! The doors of a program: handles on two sockets, and a clock.
ghost use Rattle.std.specs.Prelude.{◌≡◌, ◌⊎◌, ◌+◌, ◌<◌, ◌≤◌, IfOk, IfErr, IsSome, vec_len};

use std::alloc::Global;
use std::net::{Net, SocketAddr, TcpListener, TcpStream};
use std::time::Clock;
use tt_edge::{ClockTicker, Peer, TcpDoor};
use tt_workers::Doors;

/// The status for want of memory.
const NO_MEMORY: u8 = 6;

/// The status where an address can't be listened at.
const NO_DOOR: u8 = 8;

/// The doors of a program that serves, over the machine's sockets and its clock.
pub type SocketDoors<'a, R> = Doors<TcpDoor<&'a R>, TcpDoor<&'a R>, ClockTicker<&'a R>>;

/// A socket that listens at an address.
fn door_at<'a, R>(rt: &'a R, place: &Peer) -> Option<TcpDoor<&'a R>>
where
    R: Net<Listener = TcpListener, Stream = TcpStream> + Clock,
{
    let address = SocketAddr::from((place.host, place.port));
    let listener = TcpListener::bind(rt, address).ok()?;
    TcpDoor::new(rt, listener).ok()
}

/// So many handles on a socket that listens at an address, or the status where they can't be had.
fn handles_at<'a, R>(
    rt: &'a R,
    alloc: Global,
    place: &Peer,
    count: u32,
) -> Result<Vec<TcpDoor<&'a R>>, u8>
where
    R: Net<Listener = TcpListener, Stream = TcpStream> + Clock,
    ensures count { IfOk result (λ handles. vec_len handles ≡ count) }
    ensures err { IfErr result (λ status. (status ≡ 6) ⊎ (status ≡ 8)) }
{
    let Some(door) = door_at(rt, place) else {
        return Err(NO_DOOR);
    };
    let mut handles = Vec::new(alloc);
    for number in 0..count {
        let Ok(handle) = door.another() else {
            return Err(NO_DOOR);
        };
        if handles.push(handle).is_err() {
            return Err(NO_MEMORY);
        }
    }
    Ok(handles)
}

/// So many handles on the sockets of a program's two addresses, and a clock of 30 milliseconds; or the status where they can't be
/// had: 8, and 6 for want of memory.
pub fn doors_at<'a, R>(
    rt: &'a R,
    alloc: Global,
    main: &Peer,
    mains: u32,
    side: &Peer,
    sides: u32,
) -> Result<SocketDoors<'a, R>, u8>
where
    R: Net<Listener = TcpListener, Stream = TcpStream> + Clock,
    ensures main { IfOk result (λ doors. vec_len doors.game ≡ mains) }
    ensures side { IfOk result (λ doors. vec_len doors.admin ≡ sides) }
    ensures ticker { IfOk result (λ doors. IsSome doors.ticker) }
    ensures err { IfErr result (λ status. (status ≡ 6) ⊎ (status ≡ 8)) }
{
    let game = match handles_at(rt, alloc, main, mains) {
        Ok(handles) => handles,
        Err(status) => return Err(status),
    };
    let admin = match handles_at(rt, alloc, side, sides) {
        Ok(handles) => handles,
        Err(status) => return Err(status),
    };
    Ok(Doors {
        game,
        admin,
        ticker: Some(ClockTicker::new(rt)),
    })
}
