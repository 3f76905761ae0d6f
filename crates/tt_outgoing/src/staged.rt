//! Packets that are made before anything changes.
ghost use Rattle.std.specs.Prelude.{◌≡◌, ℕ, ◌≤◌, ◌+◌, ◌++◌, ◌∷◌, [], OnOk, OnErr, length, vec_capacity, vec_len};
ghost use Rattle.tt_log.specs.Deed.{game, admin};
ghost use Rattle.tt_outgoing.specs.Waiting.{opened, list_of};
ghost use Rattle.tt_outgoing.specs.Staging.{MayAllBeTold, bytes_for, bytes_in, packet_to, parts_in};

use crate::outs::Outs;
use std::alloc::Global;
use std::marker::Model;
use tt_admin::AdminMsg;
use tt_frame::OutOfMemory;
use tt_game::GameMsg;

/// How many connections are told a packet, and how many bytes it has.
#[derive(Clone, Copy, Debug)]
pub(crate) struct Cut {
    pub(crate) conns: usize,
    pub(crate) bytes: usize,
}

/// The packets of an event, in order, and the connections that each of them is told to. Making them takes all the memory, and
/// changes nothing else; `deliver` takes none.
///
/// Contracts see it as the list of them. The connections of all packets stand in one list, and so do their bytes.
#[derive(Drop)]
pub struct Staged {
    cuts: Vec<Cut>,
    conns: Vec<u32>,
    bytes: Vec<u8>,
}

impl Model for Staged {
    ghost use Rattle.std.specs.Prelude.{List};
    ghost use Rattle.tt_outgoing.specs.Staging.{Packet, cut_up, IsCutUp};

    ghost Value = { List Packet };

    ghost view = { λ s. cut_up s.cuts.items s.conns.items s.bytes.items };

    ghost invariant = { λ s. IsCutUp s.cuts.items s.conns.items s.bytes.items };
}

impl Staged {
    /// No packet yet. It takes no memory.
    pub fn new(alloc: Global) -> Staged
        ensures none { result ≡ [] }
    {
        Staged {
            cuts: Vec::new(alloc),
            conns: Vec::new(alloc),
            bytes: Vec::new(alloc),
        }
    }

    /// No packet any more; the memory stays for others.
    pub fn clear(&mut self)
        ensures none { self.new ≡ [] }
    {
        self.cuts.clear();
        self.conns.clear();
        self.bytes.clear();
    }

    /// A message of the game for these connections, once for all of them; where there are none, it is not even spelled. Where
    /// memory runs out, nothing has changed.
    pub fn tell_game(&mut self, to: &[u32], message: &GameMsg) -> Result<(), OutOfMemory>
        ensures told { OnOk result (self.new ≡ self.old ++ packet_to to.now (game message.now)) }
        ensures err { OnErr result (self.new ≡ self.old) }
    {
        if to.is_empty() {
            return Ok(());
        }
        reserve(&mut self.cuts, &mut self.conns, to.len())?;
        let start = self.bytes.len();
        message.encode(&mut self.bytes)?;
        let bytes = self.bytes.len() - start;
        put(&mut self.cuts, &mut self.conns, to, bytes);
        Ok(())
    }

    /// A message for admins, in the same way.
    pub fn tell_admins(&mut self, to: &[u32], message: &AdminMsg) -> Result<(), OutOfMemory>
        ensures told { OnOk result (self.new ≡ self.old ++ packet_to to.now (admin message.now)) }
        ensures err { OnErr result (self.new ≡ self.old) }
    {
        if to.is_empty() {
            return Ok(());
        }
        reserve(&mut self.cuts, &mut self.conns, to.len())?;
        let start = self.bytes.len();
        message.encode(&mut self.bytes)?;
        let bytes = self.bytes.len() - start;
        put(&mut self.cuts, &mut self.conns, to, bytes);
        Ok(())
    }

    /// How many spare bytes and parts `deliver` asks for.
    pub fn wanted(&self) -> (usize, usize)
        ensures bytes { result.0 ≡ bytes_in self.now }
        ensures parts { result.1 ≡ parts_in self.now }
    {
        (self.bytes.len(), self.conns.len())
    }

    /// Tells the packets, in order, each once to each of its connections. It takes no memory.
    pub fn deliver(&self, outs: &mut Outs)
        requires each { MayAllBeTold (opened outs.old) self.now }
        requires bytes { bytes_in self.now ≤ outs.old.bytes }
        requires parts { parts_in self.now ≤ outs.old.parts }
        ensures told { (c : ℕ) → 1 ≤ c → c ≤ opened outs.old → list_of outs.new c ≡ list_of outs.old c ++ bytes_for c self.now }
        ensures opened { opened outs.new ≡ opened outs.old }
        ensures spare_bytes { outs.old.bytes ≤ outs.new.bytes + bytes_in self.now }
        ensures spare_parts { outs.old.parts ≤ outs.new.parts + parts_in self.now }
    {
        let cuts = self.cuts.as_slice();
        let mut conns = self.conns.as_slice();
        let mut bytes = self.bytes.as_slice();
        for cut in cuts {
            let (to, other_conns) = conns.split_at(cut.conns);
            let (packet, other_bytes) = bytes.split_at(cut.bytes);
            outs.share(to, packet);
            conns = other_conns;
            bytes = other_bytes;
        }
    }
}

/// Makes room for one packet more, to so many connections. The lists stay as they are.
fn reserve(cuts: &mut Vec<Cut>, conns: &mut Vec<u32>, more: usize) -> Result<(), OutOfMemory>
    ensures cuts { cuts.new.items ≡ cuts.old.items }
    ensures conns { conns.new.items ≡ conns.old.items }
    ensures cut_room { OnOk result (vec_len cuts.new + 1 ≤ vec_capacity cuts.new) }
    ensures conn_room { OnOk result (vec_len conns.new + more ≤ vec_capacity conns.new) }
{
    cuts.reserve(1)?;
    conns.reserve(more)?;
    Ok(())
}

/// One packet more, where there is room for it.
fn put(cuts: &mut Vec<Cut>, conns: &mut Vec<u32>, to: &[u32], bytes: usize)
    requires cut_room { vec_len cuts.old + 1 ≤ vec_capacity cuts.old }
    requires conn_room { vec_len conns.old + length to.now ≤ vec_capacity conns.old }
    ensures cuts { cuts.new.items ≡ cuts.old.items ++ record { conns = length to.now; bytes = bytes } ∷ [] }
    ensures conns { conns.new.items ≡ conns.old.items ++ to.now }
{
    match conns.extend_from_slice(to) {
        Ok(()) => (),
        Err(_) => unreachable!(),
    }
    let _ = cuts.push(Cut {
        conns: to.len(),
        bytes,
    });
}
