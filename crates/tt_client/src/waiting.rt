//! What waits to be said.
ghost use Rattle.std.specs.Prelude.{◌≡◌, ◌≤◌, ◌<◌, ◌-◌, ◌++◌, ℕ, List, [], length, min, take, drop, None, Some, IfNone, IfOk, OnOk, OnErr};
ghost use Rattle.std.specs.Prelude.{slice_get, slice_index, vec_len};
ghost use Rattle.tt_game.specs.declared.message.GameMsg.TheVariants.{ClientAck};
ghost use Rattle.tt_client.specs.Saying.{bytes_of, less_one, spelling, taken, with_ack, with_bytes, with_token};

use std::alloc::Global;
use std::collections::VecDeque;
use std::marker::Model;
use std::mem;
use tt_frame::OutOfMemory;

/// An acknowledgement.
#[derive(Clone, Copy, Debug, PartialEq, Eq)]
pub struct Ack {
    /// The frame that was run.
    pub frame: u32,
    /// The token that it returns, 0 for none.
    pub token: u8,
    /// Whether it was made since the last token came.
    pub is_newest: bool,
}

/// What waits to be said: bytes, and at most one acknowledgement of which no part was taken.
#[derive(Drop)]
pub struct Waiting {
    /// An acknowledgement of which a part was taken, and how many of its eight bytes were.
    begun: Ack,
    gone: u8,
    before: VecDeque<u8>,
    ack: Option<Ack>,
    behind: VecDeque<u8>,
    /// The token that the next acknowledgement is to return, 0 for none.
    owed: u8,
}

impl Model for Waiting {
    ghost use Rattle.std.specs.Prelude.{◌≤◌, [], drop};
    ghost use Rattle.tt_client.specs.Saying.{IsSaying, Saying, ack_spelling};

    ghost Value = { Saying };

    ghost view = { λ w. record {
      begun = drop w.gone (ack_spelling w.begun);
      before = w.before.items;
      ack = w.ack;
      behind = w.behind.items;
      owed = w.owed;
    } };

    ghost invariant = { λ w. (w.gone ≤ 8)
        × IsSaying (record { begun = []; before = w.before.items; ack = w.ack; behind = w.behind.items; owed = w.owed }) };
}

impl Waiting {
    /// These bytes wait, and nothing else.
    pub(crate) fn with(alloc: Global, bytes: &[u8]) -> Result<Waiting, OutOfMemory>
        ensures waits { IfOk result (λ w. w ≡ record { begun = []; before = bytes.now; ack = None; behind = []; owed = 0 }) }
    {
        let mut before = VecDeque::new(alloc);
        append(&mut before, bytes)?;
        Ok(Waiting {
            begun: Ack {
                frame: 0,
                token: 0,
                is_newest: false,
            },
            gone: 8,
            before,
            ack: None,
            behind: VecDeque::new(alloc),
            owed: 0,
        })
    }

    /// An acknowledgement of this frame is due: it takes the place of the one that waits whole, or stands behind all.
    pub(crate) fn ack(&mut self, frame: u32)
        ensures due { self.new ≡ with_ack frame self.old }
    {
        self.ack = Some(Ack {
            frame,
            token: self.owed,
            is_newest: true,
        });
    }

    /// A token comes, 0 for none.
    pub(crate) fn token(&mut self, token: u8)
        ensures owed { self.new ≡ with_token token self.old }
    {
        if token == 0 {
            return;
        }
        self.owed = token;
        if let Some(ack) = &mut self.ack {
            ack.is_newest = false;
        }
    }

    /// Bytes are to be said behind all that waits; none of them where memory runs out.
    pub(crate) fn say(&mut self, bytes: &[u8]) -> Result<(), OutOfMemory>
        ensures said { OnOk result (self.new ≡ with_bytes bytes.now self.old) }
        ensures same { OnErr result (self.new ≡ self.old) }
    {
        match self.ack {
            None => append(&mut self.before, bytes),
            Some(_) => append(&mut self.behind, bytes),
        }
    }

    /// Takes the next byte.
    fn pop(&mut self) -> Option<u8>
        ensures first { result ≡ slice_get (bytes_of self.old) 0 }
        ensures rest { self.new ≡ less_one self.old }
        ensures left { bytes_of self.new ≡ drop 1 (bytes_of self.old) }
    {
        if self.gone < 8 {
            let byte = ack_byte(self.begun.frame, self.begun.token, self.gone);
            self.gone += 1;
            return Some(byte);
        }
        if let Some(byte) = self.before.pop_front() {
            return Some(byte);
        }
        let Some(ack) = self.ack else {
            return None;
        };
        mem::swap(&mut self.before, &mut self.behind);
        self.ack = None;
        self.begun = ack;
        self.gone = 1;
        self.owed = if ack.is_newest { 0 } else { self.owed };
        Some(8)
    }

    /// Takes the next bytes, as many as fit or are there, and answers how many.
    pub(crate) fn take(&mut self, out: &mut [u8]) -> usize
        ensures taken { self.new ≡ taken result self.old }
        ensures written { out.new ≡ take result (bytes_of self.old) ++ drop result out.old }
        ensures count { result ≡ min (length (bytes_of self.old)) (length out.old) }
    {
        for i in 0..out.len() {
            match self.pop() {
                Some(byte) => out[i] = byte,
                None => return i,
            }
        }
        out.len()
    }
}

/// Puts bytes behind others, or none of them where memory runs out.
fn append(queue: &mut VecDeque<u8>, bytes: &[u8]) -> Result<(), OutOfMemory>
    ensures put { OnOk result (queue.new.items ≡ queue.old.items ++ bytes.now) }
    ensures same { OnErr result (queue.new.items ≡ queue.old.items) }
{
    queue.reserve(bytes.len())?;
    for b in bytes {
        if queue.push_back(*b).is_err() {
            unreachable!();
        }
    }
    Ok(())
}

/// A byte of an acknowledgement.
fn ack_byte(frame: u32, token: u8, at: u8) -> u8
    requires within { at < 8 }
    ensures byte { Some result ≡ slice_get (spelling (ClientAck frame token)) at }
{
    let low = frame.to_le_bytes();
    let bytes = [8, 0, 23, low[0], low[1], low[2], low[3], token];
    bytes[usize::from(at)]
}
