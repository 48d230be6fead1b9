//! A bag of numbers, of which is asked how many are below another.

ghost use Rattle.std.specs.Prelude.{◌≡◌, ℕ, ◌<◌, ◌+◌, Bool, [], count_by, cond, nat_eq, nat_lt, OnOk, OnErr};
ghost use Rattle.cell_spans.specs.Bags.{IsPart};

use crate::gathered::Gathered;
use std::alloc::{AllocError, Global};
use std::marker::Model;

/// Numbers, some perhaps more than once: those that were added, and apart from them those of these that were removed.
/// An addition or a removal takes time of about the square root of how many there are, on the average of many.
#[derive(Drop)]
pub(crate) struct NumberBag {
    added: Gathered,
    removed: Gathered,
}

impl Model for NumberBag {
    ghost use Rattle.std.specs.Prelude.{ℕ, List};
    ghost use Rattle.cell_spans.specs.Bags.{without, IsPart};

    ghost Value = { List ℕ };

    ghost view = { λ a. without a.removed a.added };

    ghost invariant = { λ a. IsPart a.removed a.added };
}

impl NumberBag {
    /// No number. Takes no memory.
    pub(crate) fn empty(alloc: Global) -> Self
        ensures { result ≡ [] }
    {
        NumberBag {
            added: Gathered::empty(alloc),
            removed: Gathered::empty(alloc),
        }
    }

    /// Takes all numbers out.
    pub(crate) fn clear(&mut self)
        ensures { self.new ≡ [] }
    {
        self.added.clear();
        self.removed.clear();
    }

    /// How many numbers are below this one.
    pub(crate) fn below(&self, limit: u64) -> usize
        ensures { result ≡ count_by (λ number. nat_lt number limit) self.now }
    {
        self.added.below(limit) - self.removed.below(limit)
    }

    /// Adds a number.
    pub(crate) fn add(&mut self, number: u64) -> Result<(), AllocError>
        ensures added { OnOk result ((test : ℕ → Bool) → count_by test self.new ≡ count_by test self.old + cond (test number) 1 0) }
        ensures unchanged { OnErr result (self.new ≡ self.old) }
    {
        self.added.add(number)?;
        Ok(())
    }

    /// Takes a number out, once.
    pub(crate) fn remove(&mut self, number: u64)
        ensures { 0 < count_by (nat_eq number) self.old → (test : ℕ → Bool) → count_by test self.new + cond (test number) 1 0 ≡ count_by test self.old }
    {
        if self.removed.count_of(number) < self.added.count_of(number) {
            take_out(&mut self.added, &mut self.removed, number);
            self.forget();
        }
    }

    // Keeps nothing of numbers that were all removed.
    fn forget(&mut self)
        ensures { self.new ≡ self.old }
    {
        if self.added.len() == self.removed.len() {
            self.clear();
        }
    }
}

// Removes a number that was added once more than it was removed. Without memory for it among the removed ones it leaves the added ones.
fn take_out(added: &mut Gathered, removed: &mut Gathered, number: u64)
    requires part { IsPart removed.old added.old }
    requires there { count_by (nat_eq number) removed.old < count_by (nat_eq number) added.old }
    ensures part { IsPart removed.new added.new }
    ensures taken { (test : ℕ → Bool)
        → (count_by test added.new + count_by test removed.old) + cond (test number) 1 0 ≡ count_by test added.old + count_by test removed.new }
{
    match removed.add(number) {
        Ok(()) => {}
        Err(_) => added.remove(number),
    }
}
