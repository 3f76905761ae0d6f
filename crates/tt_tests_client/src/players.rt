//! Players of the tests: what Ann joins with, the stream of her join, and clients that were fed it.
ghost use Rattle.std.specs.Prelude.{◌≡◌, [], codes};

use std::alloc::Global;
use std::test::Fail;
use tt_client::{Client, Login};
use tt_frame::{Line, Name, OutOfMemory, Short};
use tt_world::{Code, Command};

/// The welcome of client 2; a map of frame 0 and 65 bytes, of a world in which nothing has happened, whose random words are
/// 0; that it is whole; and that the server is at frame 0, clients may run to frame 1, and a token 5 is to be given back.
pub const JOIN: [u8; 111] = [
    14, 0, 12, 2, 0, 0, 0, 0, 0, 0, 0, 0x74, 0x74, 0, 7, 0, 15, 0, 0, 0, 0, 7, 0, 16, 65, 0, 0, 0,
    68, 0, 17, 0x4f, 0x54, 0x54, 0x4e, 0, 1, 0, 0, 0x47, 0x41, 0x4d, 0x45, 0, 0, 0, 6, 0, 0, 0, 0,
    0, 0, 0x52, 0x41, 0x4e, 0x44, 0, 0, 0, 8, 0, 0, 0, 0, 0, 0, 0, 0, 0x43, 0x4d, 0x50, 0x59, 0, 0,
    0, 1, 0, 0x53, 0x49, 0x47, 0x4e, 0, 0, 0, 2, 0, 0, 0x45, 0x4e, 0x44, 0x43, 0, 0, 0, 0, 3, 0,
    18, 12, 0, 21, 0, 0, 0, 0, 1, 0, 0, 0, 5,
];

fn revision() -> Name
    ensures { result ≡ codes "13.4" }
{
    match Name::new(b"13.4") {
        Some(revision) => revision,
        None => unreachable!(),
    }
}

fn name() -> Name
    ensures { result ≡ codes "Ann" }
{
    match Name::new(b"Ann") {
        Some(name) => name,
        None => unreachable!(),
    }
}

fn no_password() -> Line
    ensures { result ≡ [] }
{
    match Line::new(b"") {
        Some(line) => line,
        None => unreachable!(),
    }
}

/// What Ann joins with.
pub fn login() -> Login
    ensures name { result.name ≡ codes "Ann" }
    ensures password { result.password ≡ [] }
    ensures company_password { result.company_password ≡ [] }
{
    Login {
        revision: revision(),
        grf: 13,
        name: name(),
        company: 255,
        password: no_password(),
        company_password: no_password(),
    }
}

/// A client that was fed nothing yet.
pub fn ann(alloc: Global) -> Result<Client, OutOfMemory> {
    Client::new(alloc, &login())
}

/// A command that founds a company.
pub fn command() -> Result<Command, Fail> {
    Ok(Command {
        code: Code::NewCompany,
        number: 0,
        to: 0,
        text: Short::new(b"").ok_or("a text")?,
    })
}

/// A client to which its join was fed whole.
pub fn joined(alloc: Global) -> Result<Client, Fail> {
    let mut client = ann(alloc)?;
    client.feed(&JOIN)?;
    Ok(client)
}
