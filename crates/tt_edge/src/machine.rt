//! A core: a machine over events, which tells bytes to connections.
ghost use Rattle.std.specs.Prelude.{◌≡◌, ◌≢◌, ◌≤◌, ◌<◌, ◌^◌, ℕ, Bool, true, false, List, [], ◌∷◌, ◌++◌, drop, length, IfOk};
ghost use Rattle.std.specs.Prelude.{IfErr, OnOk, IsTrue, ◌↔◌};
ghost use Rattle.tt_edge.specs.declared.event.Event.{Event};
ghost use Rattle.tt_edge.specs.declared.machine.CoreErr.TheVariants.{Memory};
ghost use Rattle.tt_edge.specs.Event.{is_open, opens, conn_of};
ghost use Rattle.tt_edge.specs.Core.{Takes, IsAllTaken, IsRefusal, IsUnopened, GrowsTo};

use crate::event::Event;
use std::alloc::Global;
use thiserror::Error;
use tt_frame::OutOfMemory;

/// Why a core refused an event. The causes are looked at in this order.
#[derive(Clone, Copy, Debug, PartialEq, Eq, Error)]
pub enum CoreErr {
    /// All is over.
    #[error("all is over")]
    Over,
    /// The core doesn't take such an event now: it names a connection that isn't live.
    #[error("no such connection is live")]
    NoSuch,
    /// Memory ran out.
    #[error("memory ran out")]
    Memory,
}

impl From<OutOfMemory> for CoreErr {
    ghost from_gives = { λ _ e. e ≡ Memory };

    fn from(_error: OutOfMemory) -> Self {
        CoreErr::Memory
    }
}

/// What `Core::take` took of a connection's bytes.
#[derive(Clone, Copy, Debug, PartialEq, Eq)]
pub struct Took {
    /// How many bytes, now in the front of the buffer.
    pub count: usize,
    /// The connection isn't live, and nothing of what it is told is left.
    pub done: bool,
}

/// A machine over events. What it tells is a function of what it was made from and of the list of the events that
/// it has taken; it knows no time, no socket and no thread.
///
/// - `event` puts one event in, and is the only call that changes what is told. It can refuse: then the core is as
///   it was, and the event is gone. `Over` and `NoSuch` are told before memory is looked at.
/// - `take` hands out the bytes that a connection is told, each once, in order. It needs no memory, and changes
///   nothing but the number of bytes that were taken of this connection.
/// - `over` asks whether all is over. From then on `event` answers `Over`, and `take` still gives what is left.
///
/// Call `event` for each thing that happens, in the order in which it is to count, and `take` for each connection
/// until it gives no bytes. A caller names a connection by the number that its opening was answered. After a refusal
/// all calls may go on. A connection that isn't live any more stays so, and once `take` tells `done` of it, it need
/// not be asked again.
pub trait Core {
    /// What a core is made from.
    type Made;

    /// What it was made from.
    ghost made: { Self → Self.Made };

    /// All events that it took, in order, ticks too.
    ghost events: { Self → List Event };

    /// How many bytes of a connection were taken; 0 of one that was never opened.
    ghost taken: { Self → ℕ → ℕ };

    /// All that a connection is told over a list of events. An event that can't be taken changes nothing.
    ghost sent: { Self.Made → List Event → ℕ → List ℕ };

    /// Whether a connection is live behind a list of events.
    ghost is_live: { Self.Made → List Event → ℕ → Bool };

    /// Whether all is over behind a list of events.
    ghost is_over: { Self.Made → List Event → Bool };

    /// Whether an event is taken behind a list of events, where all is not over.
    ghost takes: { Self.Made → List Event → Event → Bool };

    /// Takes one event, and answers the connection that it is about, 0 for a tick and a stop. A refusal leaves all
    /// as it was.
    fn event(&mut self, event: Event) -> Result<u32, CoreErr>
        ensures made { made self.new ≡ made self.old }
        ensures taken { (conn : ℕ) → taken self.new conn ≡ taken self.old conn }
        ensures ok { IfOk result (λ conn. (events self.new ≡ events self.old ++ event ∷ [])
            × (conn ≡ conn_of (events self.old) event)) }
        ensures allowed { OnOk result ((is_over (made self.old) (events self.old) ≡ false)
            × (takes (made self.old) (events self.old) event ≡ true)) }
        ensures few { OnOk result (length (events self.new) < 2 ^ 63) }
        ensures fresh { OnOk result (is_open event ≡ true → taken self.new (opens (events self.new)) ≡ 0) }
        ensures err { IfErr result (λ error. (events self.new ≡ events self.old)
            × IsRefusal (is_over (made self.old) (events self.old)) (takes (made self.old) (events self.old) event) error) };

    /// Takes the next bytes that a connection is told, as many as fit or are there.
    fn take(&mut self, conn: u32, out: &mut [u8]) -> Took
        ensures made { made self.new ≡ made self.old }
        ensures events { events self.new ≡ events self.old }
        ensures others { (other : ℕ) → other ≢ conn → taken self.new other ≡ taken self.old other }
        ensures bytes { Takes (sent (made self.old) (events self.old) conn)
            (taken self.old conn) (taken self.new conn) out.old out.new result.count }
        ensures done { IsTrue result.done ↔ IsAllTaken (is_live (made self.old) (events self.old) conn)
            (sent (made self.old) (events self.old) conn) (taken self.new conn) };

    /// Whether all is over.
    fn over(&self) -> bool
        ensures { result ≡ is_over (made self.now) (events self.now) };

    /// What was told stands, and more comes behind it.
    ghost sent_grows: { (m : Self.Made) (before : List Event) (event : Event) (conn : ℕ)
        → GrowsTo (sent m before conn) (sent m (before ++ event ∷ []) conn) };

    /// A connection that was opened and is not live stays so, and nothing more is told to it.
    ghost ended_stays: { (m : Self.Made) (before : List Event) (event : Event) (conn : ℕ)
        → conn ≤ opens before → is_live m before conn ≡ false
        → (is_live m (before ++ event ∷ []) conn ≡ false) × (sent m (before ++ event ∷ []) conn ≡ sent m before conn) };

    /// A connection that was not opened yet is not live, and is told nothing.
    ghost unopened: { (m : Self.Made) (before : List Event) (conn : ℕ)
        → IsUnopened before conn → (is_live m before conn ≡ false) × (sent m before conn ≡ []) };

    /// Where all is over no connection is live, and it stays over.
    ghost over_is_last: { (m : Self.Made) (before : List Event) (event : Event) (conn : ℕ)
        → is_over m before ≡ true → (is_live m before conn ≡ false) × (is_over m (before ++ event ∷ []) ≡ true) };
}

/// How many bytes one call asks for.
const PIECE: usize = 1024;

/// Takes all that a connection is told and that was not taken yet. Where memory runs out, the bytes that were taken
/// by then are lost.
pub fn drain<C: Core>(alloc: Global, core: &mut C, conn: u32) -> Result<Vec<u8>, OutOfMemory>
    ensures rest { IfOk result (λ bytes.
        bytes.items ≡ drop (C.taken core.old conn) (C.sent (C.made core.old) (C.events core.old) conn)) }
    ensures all { OnOk result (length (C.sent (C.made core.old) (C.events core.old) conn) ≤ C.taken core.new conn) }
    ensures events { C.events core.new ≡ C.events core.old }
    ensures made { C.made core.new ≡ C.made core.old }
    ensures others { (other : ℕ) → other ≢ conn → C.taken core.new other ≡ C.taken core.old other }
{
    let mut bytes = Vec::new(alloc);
    let mut piece = [0; PIECE];
    loop {
        let took = core.take(conn, &mut piece);
        if took.count == 0 {
            return Ok(bytes);
        }
        bytes.extend_from_slice(&piece[..took.count])?;
    }
}
