//! A client that is fed a game.
ghost use Rattle.std.specs.Prelude.{◌<◌, ◌≤◌, length, IfSome};

use crate::fault::{Fault, Reached};
use crate::game::word_of;
use std::alloc::Global;
use tt_client::{Client, Login, State};
use tt_frame::{Line, Name};

/// The most bytes that a client says between two pieces: its join, or that it wants and has its map and has run its frames.
const SAID: usize = 64;

/// Feeds a stream in pieces of this size to a client, which after each runs what it may; what it says is dropped.
pub fn played(alloc: Global, stream: &[u8], size: usize) -> Result<Reached, Fault>
    requires { 0 < size }
{
    let Some(login) = login() else {
        return Err(Fault::Apart);
    };
    let mut client = Client::new(alloc, &login)?;
    let mut said = [0; SAID];
    for piece in stream.chunks(size) {
        client.feed(piece)?;
        client.advance(u32::MAX);
        client.take(&mut said);
    }
    reached(&client)
}

/// What Ann joins with.
fn login() -> Option<Login>
    ensures name { IfSome result (λ login. length login.name ≤ 24) }
    ensures password { IfSome result (λ login. length login.password ≤ 32) }
    ensures company_password { IfSome result (λ login. length login.company_password ≤ 32) }
{
    Some(Login {
        revision: Name::new(b"13.4")?,
        grf: 13,
        name: Name::new(b"Ann")?,
        company: 255,
        password: Line::new(b"")?,
        company_password: Line::new(b"")?,
    })
}

/// How far a client came that still plays.
fn reached(client: &Client) -> Result<Reached, Fault> {
    match (client.state(), client.frame(), client.world()) {
        (State::Running, Some(frame), Some(world)) => Ok(Reached {
            frame,
            word: word_of(world),
        }),
        _ => Err(Fault::Apart),
    }
}
