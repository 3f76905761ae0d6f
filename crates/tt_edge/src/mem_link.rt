//! A link in memory, for tests: bytes that come, room for bytes that go, and calls that fail or answer Nothing.
ghost use Rattle.std.specs.Prelude.{◌≡◌, ◌<◌, ◌≤◌, ◌+◌, ◌⊎◌, ◌↔◌, Some, [], length, min, vec_len, IfOk};
ghost use Rattle.tt_edge.specs.Agenda.{no_calls, one_more, FailsNext, IdlesNext};

use crate::agenda::{Agenda, Turn};
use crate::link::{Link, LinkGot, LinkWrote};
use std::alloc::Global;
use tt_frame::OutOfMemory;

/// Which calls of a link in memory, counted from 0 for reads and for writes, are to fail or to answer Nothing. A call that
/// stands in both lists of its kind fails.
#[derive(Drop)]
pub struct LinkPlan {
    pub failing_reads: Vec<u64>,
    pub idle_reads: Vec<u64>,
    pub failing_writes: Vec<u64>,
    pub idle_writes: Vec<u64>,
}

impl LinkPlan {
    /// All calls do their work.
    pub fn working(alloc: Global) -> LinkPlan
        ensures reads { (result.failing_reads.items ≡ []) × (result.idle_reads.items ≡ []) }
        ensures writes { (result.failing_writes.items ≡ []) × (result.idle_writes.items ≡ []) }
    {
        LinkPlan {
            failing_reads: Vec::new(alloc),
            idle_reads: Vec::new(alloc),
            failing_writes: Vec::new(alloc),
            idle_writes: Vec::new(alloc),
        }
    }
}

/// A link in memory, all of whose memory is taken when it is made. A write that finds its room full fails.
#[derive(Drop)]
pub struct MemLink {
    bytes: Vec<u8>,
    taken: usize,
    buffer: Vec<u8>,
    filled: usize,
    reads: Agenda,
    writes: Agenda,
    most: usize,
    faults: u64,
    ends: u64,
    idle_reads: u64,
    idle_writes: u64,
    stalled: u64,
    ghost within: { taken ≤ vec_len bytes },
    ghost fits: { filled ≤ vec_len buffer },
    ghost some_most: { 0 < most },
    ghost all_taken: { 0 < ends → taken ≡ vec_len bytes },
}

impl MemLink {
    ghost use Rattle.tt_edge.specs.MemLink.{left_of, held_of, free_of, reads_of, writes_of, most_of, IsFreshLink};

    /// All of the bytes are left, and nothing was written yet; so many bytes can be.
    pub fn new(
        alloc: Global,
        bytes: Vec<u8>,
        room: usize,
        plan: LinkPlan,
    ) -> Result<MemLink, OutOfMemory>
        ensures fresh { IfOk result IsFreshLink }
        ensures left { IfOk result (λ link. left_of link ≡ bytes.items) }
        ensures free { IfOk result (λ link. free_of link ≡ room) }
        ensures reads { IfOk result (λ link. reads_of link ≡ no_calls plan.failing_reads.items plan.idle_reads.items) }
        ensures writes { IfOk result (λ link. writes_of link ≡ no_calls plan.failing_writes.items plan.idle_writes.items) }
        ensures most { IfOk result (λ link. most_of link ≡ usize.MAX) }
    {
        let LinkPlan {
            failing_reads,
            idle_reads,
            failing_writes,
            idle_writes,
        } = plan;
        Ok(MemLink {
            bytes,
            taken: 0,
            buffer: vec![in alloc; 0u8; room]?,
            filled: 0,
            reads: Agenda::new(failing_reads, idle_reads),
            writes: Agenda::new(failing_writes, idle_writes),
            most: usize::MAX,
            faults: 0,
            ends: 0,
            idle_reads: 0,
            idle_writes: 0,
            stalled: 0,
        })
    }

    /// The same link, with calls that each move so many bytes at most.
    pub fn at_most(mut self, most: usize) -> MemLink
        requires { 0 < most }
        ensures fresh { IsFreshLink self → IsFreshLink result }
        ensures left { left_of result ≡ left_of self }
        ensures held { held_of result ≡ held_of self }
        ensures free { free_of result ≡ free_of self }
        ensures reads { reads_of result ≡ reads_of self }
        ensures writes { writes_of result ≡ writes_of self }
        ensures most { most_of result ≡ most }
    {
        self.most = most;
        self
    }

    /// The bytes that it was written.
    pub fn written(&self) -> &[u8]
        ensures { result.now ≡ held_of self.now }
    {
        &self.buffer[..self.filled]
    }
}

impl Link for MemLink {
    ghost use Rattle.std.specs.Io.KnownBytes.{Keeps};
    ghost use Rattle.tt_edge.specs.Link.{ReadCounts, ReadMoves, ReadAdds, ReadFits, GetsMost, WriteCounts, WriteMoves, PutsMost};
    ghost use Rattle.tt_edge.specs.MemLink.{counts_of, left_of, read_of, held_of, free_of, reads_of, writes_of, most_of};

    ghost counts = { counts_of };

    ghost left = { λ l. Some (left_of l) };

    ghost was_read = { λ l. Some (read_of l) };

    ghost held = { λ l. Some (held_of l) };

    /// Beside what every link keeps: until it has told its end, it fails and idles exactly where its plan says so, and
    /// else moves as many bytes as it can.
    fn read(&mut self, out: &mut [u8]) -> LinkGot
        requires { 0 < length out.old }
        ensures fits { ReadFits (length out.old) result }
        ensures counts { ReadCounts (counts_of self.old) (counts_of self.new) result }
        ensures moved { ReadMoves (Some (left_of self.old)) (Some (left_of self.new)) out.new result }
        ensures added { ReadAdds (Some (read_of self.old)) (Some (read_of self.new)) out.new result }
        ensures kept { Keeps (Some (held_of self.old)) (Some (held_of self.new)) }
        ensures last { 0 < (counts_of self.old).ends → result ≡ LinkGot.End }
        ensures failed { (result ≡ LinkGot.Failed) ↔ (((counts_of self.old).ends ≡ 0) × FailsNext (reads_of self.old)) }
        ensures idle { (result ≡ LinkGot.Nothing) ↔ (((counts_of self.old).ends ≡ 0) × IdlesNext (reads_of self.old)) }
        ensures most { GetsMost (min (min (length out.old) (most_of self.old)) (length (left_of self.old))) result }
        ensures reads { reads_of self.new ≡ one_more (reads_of self.old) }
        ensures writes { writes_of self.new ≡ writes_of self.old }
        ensures room { (free_of self.new ≡ free_of self.old) × (most_of self.new ≡ most_of self.old) }
    {
        let turn = self.reads.next();
        if self.ends == 0 {
            match turn {
                Turn::Work => {}
                Turn::Idle => {
                    self.idle_reads = self.idle_reads.saturating_add(1);
                    return LinkGot::Nothing;
                }
                Turn::Fail => {
                    self.faults = self.faults.saturating_add(1);
                    return LinkGot::Failed;
                }
            }
        }
        if self.taken == self.bytes.len() {
            self.ends = self.ends.saturating_add(1);
            return LinkGot::End;
        }
        let room = out.len().min(self.most);
        let n = room.min(self.bytes.len() - self.taken);
        out[..n].copy_from_slice(&self.bytes[self.taken..self.taken + n]);
        self.taken += n;
        LinkGot::Bytes(n)
    }

    /// Beside what every link keeps: it fails exactly where it is full or its plan says so, idles exactly where it is not
    /// full and its plan says so, and else moves as many bytes as it can.
    fn write(&mut self, bytes: &[u8]) -> LinkWrote
        requires { 0 < length bytes.now }
        ensures counts { WriteCounts (counts_of self.old) (counts_of self.new) result }
        ensures moved { WriteMoves (Some (held_of self.old)) (Some (held_of self.new)) bytes.now result }
        ensures kept { Keeps (Some (left_of self.old)) (Some (left_of self.new)) }
        ensures read { Keeps (Some (read_of self.old)) (Some (read_of self.new)) }
        ensures failed { (result ≡ LinkWrote.Failed) ↔ ((free_of self.old ≡ 0) ⊎ FailsNext (writes_of self.old)) }
        ensures idle { (result ≡ LinkWrote.Nothing) ↔ ((0 < free_of self.old) × IdlesNext (writes_of self.old)) }
        ensures most { PutsMost (min (min (length bytes.now) (most_of self.old)) (free_of self.old)) result }
        ensures reads { reads_of self.new ≡ reads_of self.old }
        ensures writes { writes_of self.new ≡ one_more (writes_of self.old) }
        ensures room { length (held_of self.new) + free_of self.new ≡ length (held_of self.old) + free_of self.old }
        ensures size { most_of self.new ≡ most_of self.old }
    {
        let turn = self.writes.next();
        if self.filled == self.buffer.len() {
            self.faults = self.faults.saturating_add(1);
            return LinkWrote::Failed;
        }
        match turn {
            Turn::Work => {}
            Turn::Idle => {
                self.idle_writes = self.idle_writes.saturating_add(1);
                self.stalled = self.stalled.saturating_add(1);
                return LinkWrote::Nothing;
            }
            Turn::Fail => {
                self.faults = self.faults.saturating_add(1);
                return LinkWrote::Failed;
            }
        }
        let room = self.buffer.len() - self.filled;
        let n = bytes.len().min(self.most).min(room);
        self.buffer[self.filled..self.filled + n].copy_from_slice(&bytes[..n]);
        self.filled += n;
        self.stalled = 0;
        LinkWrote::Count(n)
    }
}
