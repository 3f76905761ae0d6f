//! Which attempts each connection is an end of: their numbers, in order, found by the connection.
ghost use Rattle.std.specs.Prelude.{◌≡◌, ◌==◌, ◌<◌, ◌||◌, ◌∷◌, ◌++◌, [], ℕ, cond, true, false, is_some, IfSome, IfNone, OnOk, OnErr};
ghost use Rattle.std.specs.Ordering.{nat_cmp, eq_by_cmp};
ghost use Rattle.std.specs.Map.{lookup};
ghost use Rattle.std.specs.List.{AllByRecursion};
ghost use Rattle.tt_gc_table.specs.ByConnection.{numbers_at, without_number};

use std::alloc::Global;
use std::collections::{BTreeMap, BTreeSet};
use std::marker::Model;
use tt_frame::OutOfMemory;

/// The numbers of the attempts of each connection; only those stand here that have one.
#[derive(Drop)]
pub struct ByConnection {
    alloc: Global,
    sets: BTreeMap<u32, BTreeSet<u32>>,
}

impl Model for ByConnection {
    ghost use Rattle.std.specs.Prelude.{ℕ, List};
    ghost use Rattle.std.specs.BTreeSet.{BTreeSet};

    ghost Value = { List (ℕ × BTreeSet ℕ) };

    ghost view = { λ b. b.sets.entries };
}

impl ByConnection {
    /// No connection has an attempt. It takes no memory.
    pub fn new(alloc: Global) -> ByConnection
        ensures { (c : ℕ) → numbers_at result c ≡ [] }
    {
        ByConnection {
            alloc,
            sets: BTreeMap::new(alloc),
        }
    }

    /// The numbers of a connection's attempts, where it has some.
    pub fn numbers(&self, conn: u32) -> Option<&BTreeSet<u32>>
        ensures some { IfSome result (λ set. numbers_at self.now conn ≡ set.now.keys) }
        ensures none { IfNone result (numbers_at self.now conn ≡ []) }
    {
        self.sets.get(&conn)
    }

    /// Whether a connection has a set.
    fn has(&self, conn: u32) -> bool
        ensures { result ≡ is_some (lookup (eq_by_cmp nat_cmp conn) self.now) }
    {
        self.sets.get(&conn).is_some()
    }

    /// One more attempt, behind those that the connection has: into the set that it has.
    fn add_there(&mut self, conn: u32, number: u32) -> Result<(), OutOfMemory>
        requires there { is_some (lookup (eq_by_cmp nat_cmp conn) self.old) ≡ true }
        requires above { AllByRecursion (λ n. n < number) (numbers_at self.old conn) }
        ensures ok { OnOk result ((c : ℕ) → numbers_at self.new c
            ≡ cond (conn == c) (numbers_at self.old c ++ number ∷ []) (numbers_at self.old c)) }
        ensures err { OnErr result ((c : ℕ) → numbers_at self.new c ≡ numbers_at self.old c) }
    {
        let sets = &mut self.sets;
        let Some(set) = sets.get_mut(&conn) else {
            unreachable!();
        };
        set.insert(number)?;
        Ok(())
    }

    /// The first attempt of a connection that has none.
    fn add_first(&mut self, conn: u32, number: u32) -> Result<(), OutOfMemory>
        requires none { is_some (lookup (eq_by_cmp nat_cmp conn) self.old) ≡ false }
        ensures ok { OnOk result ((c : ℕ) → numbers_at self.new c
            ≡ cond (conn == c) (numbers_at self.old c ++ number ∷ []) (numbers_at self.old c)) }
        ensures err { OnErr result ((c : ℕ) → numbers_at self.new c ≡ numbers_at self.old c) }
    {
        let mut set = BTreeSet::new(self.alloc);
        set.insert(number)?;
        self.sets.insert(conn, set)?;
        Ok(())
    }

    /// One more attempt of a connection, behind those that it has. Where memory runs out, nothing was changed.
    fn add(&mut self, conn: u32, number: u32) -> Result<(), OutOfMemory>
        requires above { AllByRecursion (λ n. n < number) (numbers_at self.old conn) }
        ensures ok { OnOk result ((c : ℕ) → numbers_at self.new c
            ≡ cond (conn == c) (numbers_at self.old c ++ number ∷ []) (numbers_at self.old c)) }
        ensures err { OnErr result ((c : ℕ) → numbers_at self.new c ≡ numbers_at self.old c) }
    {
        if self.has(conn) {
            self.add_there(conn, number)
        } else {
            self.add_first(conn, number)
        }
    }

    /// The attempt with this number isn't one of the connection's any more.
    fn take(&mut self, conn: u32, number: u32)
        ensures { (c : ℕ) → numbers_at self.new c ≡ cond (conn == c) (without_number number (numbers_at self.old c)) (numbers_at self.old c) }
    {
        let sets = &mut self.sets;
        let Some(set) = sets.get_mut(&conn) else {
            return;
        };
        let _was = set.remove(&number);
    }

    /// Whether a connection has a set with nothing in it.
    fn is_bare(&self, conn: u32) -> bool
        ensures { result ≡ true → numbers_at self.now conn ≡ [] }
    {
        match self.sets.get(&conn) {
            Some(set) => set.is_empty(),
            None => false,
        }
    }

    /// A connection that has no attempts any more needs no set.
    fn tidy(&mut self, conn: u32)
        ensures { (c : ℕ) → numbers_at self.new c ≡ numbers_at self.old c }
    {
        if self.is_bare(conn) {
            let _bare = self.sets.remove(&conn);
        }
    }

    /// The attempt with this number isn't one of the connection's any more.
    fn forget(&mut self, conn: u32, number: u32)
        ensures { (c : ℕ) → numbers_at self.new c ≡ cond (conn == c) (without_number number (numbers_at self.old c)) (numbers_at self.old c) }
    {
        self.take(conn, number);
        self.tidy(conn);
    }

    /// The attempt with this number, which has these ends, is over.
    pub fn forget_both(&mut self, first: u32, second: u32, number: u32)
        ensures { (c : ℕ) → numbers_at self.new c
            ≡ cond (first == c || second == c) (without_number number (numbers_at self.old c)) (numbers_at self.old c) }
    {
        self.forget(first, number);
        if second != first {
            self.forget(second, number);
        }
    }

    /// One more attempt, with these ends, and a number above all those of before. Where memory runs out, nothing was changed.
    pub fn add_both(&mut self, first: u32, second: u32, number: u32) -> Result<(), OutOfMemory>
        requires above { (c : ℕ) → AllByRecursion (λ n. n < number) (numbers_at self.old c) }
        ensures ok { OnOk result ((c : ℕ) → numbers_at self.new c
            ≡ cond (first == c || second == c) (numbers_at self.old c ++ number ∷ []) (numbers_at self.old c)) }
        ensures err { OnErr result ((c : ℕ) → numbers_at self.new c ≡ numbers_at self.old c) }
    {
        self.add(first, number)?;
        if second == first {
            return Ok(());
        }
        if self.add(second, number).is_err() {
            self.forget(first, number);
            return Err(OutOfMemory);
        }
        Ok(())
    }
}
