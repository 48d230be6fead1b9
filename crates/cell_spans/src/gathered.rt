//! Numbers in a long sorted list and a short one.

ghost use Rattle.std.specs.Prelude.{◌≡◌, ℕ, ◌<◌, ◌+◌, Bool, [], length, count_by, cond, nat_eq, nat_lt, OnOk, OnErr};

use crate::sorted::Sorted;
use std::alloc::{AllocError, Global};
use std::marker::Model;

/// Numbers, some perhaps more than once. The latest are in a short list of their own, so that few numbers move for each that is added.
#[derive(Drop)]
pub(crate) struct Gathered {
    settled: Sorted,
    recent: Sorted,
}

impl Model for Gathered {
    ghost use Rattle.std.specs.Prelude.{ℕ, List, ◌++◌};

    ghost Value = { List ℕ };

    ghost view = { λ g. g.settled ++ g.recent };
}

// How many numbers the short list may have, whatever the long one has.
const SHORT: usize = 1024;

impl Gathered {
    /// No number. Takes no memory.
    pub(crate) fn empty(alloc: Global) -> Self
        ensures { result ≡ [] }
    {
        Gathered {
            settled: Sorted::empty(alloc),
            recent: Sorted::empty(alloc),
        }
    }

    /// Takes all numbers out.
    pub(crate) fn clear(&mut self)
        ensures { self.new ≡ [] }
    {
        self.settled.clear();
        self.recent.clear();
    }

    /// How many numbers there are.
    pub(crate) fn len(&self) -> usize
        ensures { result ≡ length self.now }
    {
        self.settled.len() + self.recent.len()
    }

    /// How many numbers are below this one.
    pub(crate) fn below(&self, limit: u64) -> usize
        ensures { result ≡ count_by (λ number. nat_lt number limit) self.now }
    {
        self.settled.below(limit) + self.recent.below(limit)
    }

    /// How often this number is there.
    pub(crate) fn count_of(&self, number: u64) -> usize
        ensures { result ≡ count_by (nat_eq number) self.now }
    {
        self.settled.count_of(number) + self.recent.count_of(number)
    }

    /// Adds a number.
    pub(crate) fn add(&mut self, number: u64) -> Result<(), AllocError>
        ensures added { OnOk result ((test : ℕ → Bool) → count_by test self.new ≡ count_by test self.old + cond (test number) 1 0) }
        ensures unchanged { OnErr result (self.new ≡ self.old) }
    {
        self.recent.add(number)?;
        self.settle();
        Ok(())
    }

    // Merges the short list into the long one once it is longer than the root of that one's length. Without memory for that it goes on growing.
    fn settle(&mut self)
        ensures { (test : ℕ → Bool) → count_by test self.new ≡ count_by test self.old }
    {
        if SHORT.max(self.settled.len().isqrt()) <= self.recent.len() {
            let _merged = self.settled.take_over(&mut self.recent);
        }
    }

    /// Takes a number out, once. Moves all those above it.
    pub(crate) fn remove(&mut self, number: u64)
        ensures { 0 < count_by (nat_eq number) self.old → (test : ℕ → Bool) → count_by test self.new + cond (test number) 1 0 ≡ count_by test self.old }
    {
        if 0 < self.recent.count_of(number) {
            self.recent.remove(number);
        } else {
            self.settled.remove(number);
        }
    }
}
