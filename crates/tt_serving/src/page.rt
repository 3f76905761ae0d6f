//! A page: text waits on it, and goes to a sink when the page is full.
ghost use Rattle.std.specs.Prelude.{◌≡◌, ◌≤◌, ◌++◌, ℕ, true, false, List, [], OnOk, OnErr};
ghost use Rattle.std.specs.Io.KnownBytes.{Appends};
ghost use Rattle.tt_edge.specs.Count.{Rose};
ghost use Rattle.tt_edge.specs.Sink.{AppendsPart};
ghost use Rattle.tt_serving.specs.Page.{label_text, part_text, parts_text, count_text, Puts, Loses};

use arrayvec::ArrayVec;
use itoa::Buffer;
use std::marker::Model;
use tt_edge::{Sink, SinkFault, write_all};

/// Text that waits to be written, at most 4,096 bytes. None of its calls takes memory.
///
/// Contracts see it as the bytes that wait. After a fault of the sink what waited is lost.
#[derive(Drop)]
pub struct Page {
    bytes: ArrayVec<u8, 4096>,
}

impl Model for Page {
    ghost Value = { List ℕ };

    ghost view = { λ page. page.bytes.items };

    ghost inverse = { λ bytes. record { bytes = record { items = bytes } } };
}

/// Fixed words of a summary.
#[derive(Clone, Copy, Debug, PartialEq, Eq)]
pub enum Label {
    /// Before the number of connections.
    Connections,
    /// Before the frame.
    Frame,
    /// Before the length of the journal.
    Entries,
    /// Before the two random words.
    Random,
    /// Before a connection's number.
    Conn,
    /// Between two of a line.
    Blank,
    /// The end of a line.
    End,
}

/// A part of a line.
#[derive(Clone, Copy, Debug, PartialEq, Eq)]
pub enum Part {
    /// Fixed words.
    Words(Label),
    /// A number in decimal.
    Number(u64),
    /// A word in eight hexadecimal digits.
    Word(u32),
}

/// The text of fixed words.
fn label_text(label: Label) -> &'static [u8]
    ensures { result.now ≡ label_text label }
{
    match label {
        Label::Connections => b"connections ",
        Label::Frame => b"frame ",
        Label::Entries => b"entries ",
        Label::Random => b"words ",
        Label::Conn => b"conn ",
        Label::Blank => b" ",
        Label::End => b"\n",
    }
}

impl Page {
    /// Nothing waits.
    pub fn new() -> Page
        ensures { result ≡ [] }
    {
        Page {
            bytes: ArrayVec::new(),
        }
    }

    /// Writes all that waits.
    pub fn flush<K: Sink>(&mut self, sink: &mut K) -> Result<(), SinkFault>
        ensures all { OnOk result (Appends (K.held sink.old) (K.held sink.new) self.old) }
        ensures empty { OnOk result (self.new ≡ []) }
        ensures kept { OnOk result (K.faults sink.new ≡ K.faults sink.old) }
        ensures front { OnErr result (AppendsPart (K.held sink.old) (K.held sink.new) self.old) }
        ensures fault { OnErr result (Rose (K.faults sink.old) (K.faults sink.new)) }
        ensures counted { K.faults sink.old ≤ K.faults sink.new }
    {
        write_all(sink, self.bytes.as_slice())?;
        self.bytes.clear();
        Ok(())
    }

    /// Puts bytes behind those that wait. Where there is no room, those that wait are written first.
    fn put<K: Sink>(&mut self, sink: &mut K, bytes: &[u8]) -> Result<(), SinkFault>
        ensures puts { OnOk result (Puts (K.held sink.old) (K.held sink.new) self.old self.new bytes.now) }
        ensures kept { OnOk result (K.faults sink.new ≡ K.faults sink.old) }
        ensures loses { OnErr result (Loses (K.held sink.old) (K.held sink.new) self.old bytes.now) }
        ensures fault { OnErr result (Rose (K.faults sink.old) (K.faults sink.new)) }
        ensures counted { K.faults sink.old ≤ K.faults sink.new }
    {
        if self.add(bytes) {
            return Ok(());
        }
        match self.flush(sink) {
            Ok(()) => {}
            Err(fault) => return Err(fault),
        }
        if self.add(bytes) {
            return Ok(());
        }
        match write_all(sink, bytes) {
            Ok(()) => Ok(()),
            Err(fault) => Err(fault),
        }
    }

    /// Lets bytes wait behind those that do, where there is room.
    fn add(&mut self, bytes: &[u8]) -> bool
        ensures added { result ≡ true → self.new ≡ self.old ++ bytes.now }
        ensures full { result ≡ false → self.new ≡ self.old }
    {
        match self.bytes.try_extend_from_slice(bytes) {
            Ok(()) => true,
            Err(_) => false,
        }
    }

    /// Puts one part behind what waits.
    fn put_part<K: Sink>(&mut self, sink: &mut K, part: Part) -> Result<(), SinkFault>
        ensures puts { OnOk result (Puts (K.held sink.old) (K.held sink.new) self.old self.new (part_text part)) }
        ensures kept { OnOk result (K.faults sink.new ≡ K.faults sink.old) }
        ensures loses { OnErr result (Loses (K.held sink.old) (K.held sink.new) self.old (part_text part)) }
        ensures fault { OnErr result (Rose (K.faults sink.old) (K.faults sink.new)) }
        ensures counted { K.faults sink.old ≤ K.faults sink.new }
    {
        match part {
            Part::Words(label) => self.put(sink, label_text(label)),
            Part::Number(number) => {
                let mut buffer = Buffer::new();
                self.put(sink, buffer.format(number).as_bytes())
            }
            Part::Word(word) => {
                let mut digits = [0; 8];
                if hex::encode_to_slice(word.to_be_bytes().as_slice(), &mut digits).is_err() {
                    unreachable!();
                }
                self.put(sink, &digits)
            }
        }
    }

    /// Puts parts behind what waits, in order.
    pub fn put_parts<K: Sink>(&mut self, sink: &mut K, parts: &[Part]) -> Result<(), SinkFault>
        ensures puts { OnOk result (Puts (K.held sink.old) (K.held sink.new) self.old self.new (parts_text parts.now)) }
        ensures kept { OnOk result (K.faults sink.new ≡ K.faults sink.old) }
        ensures loses { OnErr result (Loses (K.held sink.old) (K.held sink.new) self.old (parts_text parts.now)) }
        ensures fault { OnErr result (Rose (K.faults sink.old) (K.faults sink.new)) }
        ensures counted { K.faults sink.old ≤ K.faults sink.new }
    {
        for part in parts {
            match self.put_part(sink, *part) {
                Ok(()) => {}
                Err(fault) => return Err(fault),
            }
        }
        Ok(())
    }

    /// Puts the line of a connection: its number, and how many bytes it was told.
    pub fn put_count<K: Sink>(
        &mut self,
        sink: &mut K,
        conn: u32,
        count: u64,
    ) -> Result<(), SinkFault>
        ensures puts { OnOk result (Puts (K.held sink.old) (K.held sink.new) self.old self.new (count_text conn count)) }
        ensures kept { OnOk result (K.faults sink.new ≡ K.faults sink.old) }
        ensures loses { OnErr result (Loses (K.held sink.old) (K.held sink.new) self.old (count_text conn count)) }
        ensures fault { OnErr result (Rose (K.faults sink.old) (K.faults sink.new)) }
        ensures counted { K.faults sink.old ≤ K.faults sink.new }
    {
        self.put_parts(
            sink,
            &[
                Part::Words(Label::Conn),
                Part::Number(u64::from(conn)),
                Part::Words(Label::Blank),
                Part::Number(count),
                Part::Words(Label::End),
            ],
        )
    }
}
