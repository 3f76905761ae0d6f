//! The calls of a thread: each is one turn.
ghost use Rattle.std.specs.Prelude.{◌≡◌, ◌^◌, ◌<◌, true, length, IfOk, IfErr, OnOk, IsTrue, ◌↔◌};
ghost use mathlib.Core.List.{IsPrefix};
ghost use Rattle.tt_edge.specs.Event.{is_open};
ghost use Rattle.tt_edge.specs.Core.{Takes, IsAllTaken, IsRefusal};
ghost use Rattle.tt_room.specs.Passes.{IsOf, start_of, seen, own, mine, Keeps, Puts, HasOpened, KeepsOpened, amount, raised};

use crate::pass::{Pass, Room};
use std::sync::Wait;
use tt_edge::{Core, CoreErr, Event, Took};

impl<C: Core> Room<C> {
    /// Waits for the turn, and puts one event into the core, which answers as it does alone.
    ///
    /// The core's events begin with all that the pass had seen. Where the core takes the event they end with it, the
    /// pass has seen them all, and the event is the pass's own, at its place; of a connection that it opens nothing is taken
    /// yet. Where it refuses, the pass has seen the events on which the refusal stands, and keeps its own.
    pub fn event<R: Wait>(&self, rt: &R, pass: &mut Pass<C>, event: Event) -> Result<u32, CoreErr>
        requires { IsOf self.now pass.old }
        ensures room { IsOf self.now pass.new }
        ensures seen { IsPrefix (seen pass.old) (seen pass.new) }
        ensures owned { KeepsOpened pass.old pass.new }
        ensures ok { IfOk result (λ conn. Puts (C.is_over (C.made (start_of self.now)))
            (C.takes (C.made (start_of self.now))) pass.old event conn pass.new) }
        ensures opened { IfOk result (λ conn. is_open event ≡ true → HasOpened pass.new conn) }
        ensures fresh { IfOk result (λ conn. is_open event ≡ true → amount conn (own pass.new) ≡ 0) }
        ensures few { OnOk result (length (seen pass.new) < 2 ^ 63) }
        ensures kept { IfErr result (λ _. Keeps pass.old pass.new) }
        ensures err { IfErr result (λ error. IsRefusal (C.is_over (C.made (start_of self.now)) (seen pass.new))
            (C.takes (C.made (start_of self.now)) (seen pass.new) event) error) }
    {
        let mut held = self.enter(rt, &mut pass.seat);
        match held.core.event(event) {
            Ok(conn) => {
                held.count += 1;
                self.leave(&mut pass.seat, held);
                Ok(conn)
            }
            Err(refusal) => {
                self.leave(&mut pass.seat, held);
                Err(refusal)
            }
        }
    }

    /// Waits for the turn, and takes the next bytes that a connection is told, as many as fit or are there.
    ///
    /// They stand right behind those that this pass took of the connection before. The connection is one that the pass
    /// opened. It takes no memory.
    pub fn take<R: Wait>(&self, rt: &R, pass: &mut Pass<C>, conn: u32, out: &mut [u8]) -> Took
        requires room { IsOf self.now pass.old }
        requires opened { HasOpened pass.old conn }
        ensures room { IsOf self.now pass.new }
        ensures seen { IsPrefix (seen pass.old) (seen pass.new) }
        ensures owned { KeepsOpened pass.old pass.new }
        ensures mine { mine pass.new ≡ mine pass.old }
        ensures own { own pass.new ≡ raised conn result.count (own pass.old) }
        ensures bytes { Takes (C.sent (C.made (start_of self.now)) (seen pass.new) conn)
            (amount conn (own pass.old)) (amount conn (own pass.new)) out.old out.new result.count }
        ensures done { IsTrue result.done ↔ IsAllTaken (C.is_live (C.made (start_of self.now)) (seen pass.new) conn)
            (C.sent (C.made (start_of self.now)) (seen pass.new) conn) (amount conn (own pass.new)) }
    {
        let mut found = self.enter(rt, &mut pass.seat);
        let took = found.core.take(conn, out);
        self.leave(&mut pass.seat, found);
        took
    }

    /// Waits for the turn, and asks the core whether all is over. It takes no memory.
    pub fn over<R: Wait>(&self, rt: &R, pass: &mut Pass<C>) -> bool
        requires { IsOf self.now pass.old }
        ensures room { IsOf self.now pass.new }
        ensures seen { IsPrefix (seen pass.old) (seen pass.new) }
        ensures owned { KeepsOpened pass.old pass.new }
        ensures kept { Keeps pass.old pass.new }
        ensures over { result ≡ C.is_over (C.made (start_of self.now)) (seen pass.new) }
    {
        let held = self.enter(rt, &mut pass.seat);
        let is_over = held.core.over();
        self.leave(&mut pass.seat, held);
        is_over
    }
}
