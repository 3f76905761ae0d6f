//! What comes from the server: its packets, their text, and what is noted of them.
ghost use Rattle.std.specs.Prelude.{◌≡◌, ◌++◌, ◌+◌, ◌-◌, ◌^◌, ◌||◌, ◌<◌, ◌≤◌, ℕ, List, [], min, true, false, length, drop, IfOk, OnOk};
ghost use Rattle.tt_frame.specs.Packet.{IsBytes};
ghost use Rattle.tt_show.specs.Streams.{bad_text};
ghost use Rattle.tt_admin_run.specs.Telling.{is_welcome, is_refusal, is_shutdown};
ghost use Rattle.tt_admin_run.specs.Hearing.{Hears};

use std::alloc::Global;
use std::marker::Model;
use tt_frame::{Bad, LARGEST_PACKET, Next, OutOfMemory, first_of};
use tt_lines::{put, put_number};
use tt_rounds::Hear;
use tt_show::{Family, show_packet};

/// The numbers of the packets that have a meaning.
const FULL: u8 = 100;

const BANNED: u8 = 101;

const ERROR: u8 = 102;

const WELCOME: u8 = 104;

const SHUTDOWN: u8 = 106;

/// What is noted of the packets that came.
#[derive(Clone, Copy, Debug, PartialEq, Eq)]
pub struct Notes {
    /// The place of the next byte, counted from the link's first one.
    pub place: u64,
    /// What came is no packet, or spells nothing.
    pub broken: bool,
    /// WELCOME came.
    pub welcome: bool,
    /// FULL, BANNED or ERROR came.
    pub refused: bool,
    /// SHUTDOWN came.
    pub shutdown: bool,
}

impl Notes {
    /// Nothing came yet.
    pub fn new() -> Notes
        ensures { result ≡ record { place = 0; broken = false; welcome = false; refused = false; shutdown = false } }
    {
        Notes {
            place: 0,
            broken: false,
            welcome: false,
            refused: false,
            shutdown: false,
        }
    }

    /// A packet of that number came, with a body of so many bytes.
    fn note(&mut self, kind: u8, body: usize)
        requires { body + 3 < 2 ^ 64 }
        ensures place { self.new.place ≡ min (self.old.place + (body + 3)) (2 ^ 64 - 1) }
        ensures broken { self.new.broken ≡ self.old.broken }
        ensures welcome { self.new.welcome ≡ (self.old.welcome || is_welcome kind) }
        ensures refused { self.new.refused ≡ (self.old.refused || is_refusal kind) }
        ensures shutdown { self.new.shutdown ≡ (self.old.shutdown || is_shutdown kind) }
    {
        self.place = self.place.saturating_add(body as u64 + 3);
        match kind {
            WELCOME => self.welcome = true,
            FULL | BANNED | ERROR => self.refused = true,
            SHUTDOWN => self.shutdown = true,
            _ => {}
        }
    }

    /// What stands at the next place is bad.
    fn break_off(&mut self, text: &mut Vec<u8>) -> Result<(), OutOfMemory>
        ensures text { OnOk result (text.new.items ≡ text.old.items ++ bad_text self.old.place) }
        ensures broken { OnOk result (self.new ≡ record self.old { broken = true }) }
    {
        put(text, b"bad at ")?;
        put_number(text, self.place)?;
        put(text, b"\n")?;
        self.broken = true;
        Ok(())
    }
}

/// Bytes that came and were not looked at yet. Contracts see them as a list.
#[derive(Drop)]
pub struct Inbox {
    bytes: Vec<u8>,
}

impl Model for Inbox {
    ghost use Rattle.std.specs.Prelude.{List, ℕ};

    ghost Value = { List ℕ };

    ghost view = { λ inbox. inbox.bytes.items };
}

impl Inbox {
    /// Nothing came yet.
    pub fn new(alloc: Global) -> Inbox
        ensures { result ≡ [] }
    {
        Inbox {
            bytes: Vec::new(alloc),
        }
    }

    /// The bytes.
    pub fn bytes(&self) -> &[u8]
        ensures { result.now ≡ self.now }
    {
        &self.bytes
    }

    /// So many bytes of the front were looked at.
    pub fn forget(&mut self, alloc: Global, count: usize) -> Result<(), OutOfMemory>
        requires { count ≤ length self.old }
        ensures { OnOk result (self.new ≡ drop count self.old) }
    {
        let rest = Vec::from_slice(alloc, &self.bytes[count..])?;
        self.bytes = rest;
        Ok(())
    }
}

impl Hear for Inbox {
    ghost hears = { λ old piece new. IsBytes piece × (new ≡ old ++ piece) };

    fn hear(&mut self, piece: &[u8]) -> Result<(), OutOfMemory> {
        put(&mut self.bytes, piece)
    }
}

/// Appends the text of all that is whole, and notes what has a meaning. It answers how many bytes of the front that is; all, where
/// something is bad.
pub fn hear(
    alloc: Global,
    text: &mut Vec<u8>,
    bytes: &[u8],
    notes: &mut Notes,
) -> Result<usize, OutOfMemory>
    ensures { IfOk result (λ taken. (told : List ℕ) × (text.new.items ≡ text.old.items ++ told)
        × Hears notes.old notes.new bytes.now told taken) }
{
    if notes.broken {
        return Ok(bytes.len());
    }
    let mut at = 0;
    'packets: while at < bytes.len() {
        let rest = &bytes[at..];
        match first_of(rest, LARGEST_PACKET) {
            Next::Packet { kind, body } => {
                let size = body.len();
                match show_packet(alloc, text, Family::Admin, kind, body) {
                    Ok(()) => {}
                    Err(Bad::Malformed { .. }) => {
                        notes.break_off(text)?;
                        return Ok(bytes.len());
                    }
                    Err(Bad::Memory) => return Err(OutOfMemory),
                }
                notes.note(kind, size);
                at += size + 3;
            }
            Next::Partial => return Ok(at),
            Next::BadSize(_) => {
                notes.break_off(text)?;
                return Ok(bytes.len());
            }
        }
    }
    Ok(at)
}
