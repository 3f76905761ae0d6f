//! What an event is going to do to the table: planned first, and then done at once.
ghost use Rattle.std.specs.Prelude.{◌≡◌, OnOk, OnErr};
ghost use Rattle.tt_gc_table.specs.declared.setup.GcSetup.{GcSetup};
ghost use Rattle.tt_gc.specs.Changes.{applied, Fits};

use tt_attempts::InviteCode;
use tt_coord::Info;
use tt_edge::Peer;
use tt_frame::{OutOfMemory, Text};
use tt_gc_table::{Hearing, Meeting, Parts, Secret};
use tt_world::Random;

/// What is done to the table.
#[derive(Drop)]
pub(crate) enum Change {
    /// Nothing.
    Stay,
    /// A connection is there.
    Arrive {
        side: bool,
        peer: Peer,
    },
    /// A connection was opened, and ended at once.
    Refuse {
        side: bool,
        peer: Peer,
    },
    /// A connection ends, with its server and its attempts.
    Quit {
        conn: u32,
    },
    /// A connection ends that has neither.
    Go {
        conn: u32,
    },
    /// A peer's address is noted, and the connection that showed it ends.
    Note {
        conn: u32,
        token: Text<31>,
        side: u8,
        peer: Peer,
    },
    /// A server is registered by a code that it had before.
    Register {
        conn: u32,
        kind: u8,
        port: u16,
        code: InviteCode,
    },
    /// A server is registered by a code that is drawn now; the random words are these behind it.
    Draw {
        conn: u32,
        kind: u8,
        port: u16,
        code: InviteCode,
        secret: Secret,
        random: Random,
    },
    /// A server says this of its game.
    Update {
        conn: u32,
        info: Info,
    },
    /// An attempt begins, and is over at once.
    Pass {
        random: Random,
    },
    /// An attempt begins.
    Begin {
        random: Random,
        meeting: Meeting,
    },
    /// An open attempt hears something.
    Hear {
        token: Text<31>,
        hearing: Hearing,
    },
    /// One more tick.
    Beat,
}

/// Does it. Where memory runs out, nothing was done.
pub(crate) fn apply(parts: &mut Parts, change: Change) -> Result<(), OutOfMemory>
    requires { Fits change parts.old }
    ensures ok { OnOk result ((s : GcSetup) → parts.new ≡ applied s change parts.old) }
    ensures err { OnErr result (parts.new ≡ parts.old) }
{
    match change {
        Change::Stay => Ok(()),
        Change::Arrive { side, peer } => parts.open(side, peer),
        Change::Refuse { side, peer } => parts.refuse(side, peer),
        Change::Register {
            conn,
            kind,
            port,
            code,
        } => parts.register(conn, kind, port, code),
        Change::Draw {
            conn,
            kind,
            port,
            code,
            secret,
            random,
        } => parts.draw(conn, kind, port, code, secret, random),
        Change::Begin { random, meeting } => parts.begin(random, meeting),
        Change::Quit { conn } => {
            parts.quit(conn);
            Ok(())
        }
        Change::Go { conn } => {
            parts.go(conn);
            Ok(())
        }
        Change::Note {
            conn,
            token,
            side,
            peer,
        } => {
            parts.note(token.bytes(), side, peer);
            parts.go(conn);
            Ok(())
        }
        Change::Update { conn, info } => {
            parts.update(conn, info);
            Ok(())
        }
        Change::Pass { random } => {
            parts.pass(random);
            Ok(())
        }
        Change::Hear { token, hearing } => {
            parts.reach(token.bytes(), hearing.heard, hearing.stage);
            Ok(())
        }
        Change::Beat => {
            parts.tick();
            Ok(())
        }
    }
}
