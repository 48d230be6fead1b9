//! Numbers in one sorted list.

ghost use Rattle.std.specs.Prelude.{◌≡◌, ℕ, ◌<◌, ◌≤◌, ◌+◌, ◌++◌, ◌^◌, Bool, [], length, count_by, cond, nat_eq, nat_lt, nat_le, slice_index_or, OnOk, OnErr};
ghost use Rattle.std.specs.List.Sorted.{IsNonDecreasing};

use std::alloc::{AllocError, Global};
use std::marker::Model;

/// Numbers in ascending order, some perhaps more than once. A number that is added or removed moves all those above it.
#[derive(Drop)]
pub(crate) struct Sorted {
    numbers: Vec<u64>,
}

impl Model for Sorted {
    ghost use Rattle.std.specs.Prelude.{ℕ, List};
    ghost use Rattle.std.specs.List.Sorted.{IsNonDecreasing};

    ghost Value = { List ℕ };

    ghost view = { λ s. s.numbers.items };

    ghost invariant = { λ s. IsNonDecreasing s.numbers.items };
}

/// How many of the ascending numbers are below this one. Halves the numbers in question until none is left.
pub(crate) fn count_below(numbers: &[u64], limit: u64) -> usize
    requires { IsNonDecreasing numbers.now }
    ensures within { result ≤ length numbers.now }
    ensures before { (k : ℕ) → k < result → slice_index_or numbers.now k 0 < limit }
    ensures after { (k : ℕ) → result ≤ k → k < length numbers.now → limit ≤ slice_index_or numbers.now k 0 }
    ensures count { result ≡ count_by (λ number. nat_lt number limit) numbers.now }
{
    let mut low = 0;
    let mut high = numbers.len();
    while low < high {
        let middle = low + (high - low) / 2;
        if numbers[middle] < limit {
            low = middle + 1;
        } else {
            high = middle;
        }
    }
    low
}

// How many of the ascending numbers are at most this one.
fn count_up_to(numbers: &[u64], number: u64) -> usize
    requires { IsNonDecreasing numbers.now }
    ensures within { result ≤ length numbers.now }
    ensures count { result ≡ count_by (λ other. nat_le other number) numbers.now }
{
    match number.checked_add(1) {
        Some(next) => count_below(numbers, next),
        None => numbers.len(),
    }
}

impl Sorted {
    /// No number. Takes no memory.
    pub(crate) fn empty(alloc: Global) -> Self
        ensures { result ≡ [] }
    {
        Sorted {
            numbers: Vec::new(alloc),
        }
    }

    /// Takes all numbers out.
    pub(crate) fn clear(&mut self)
        ensures { self.new ≡ [] }
    {
        self.numbers.clear();
    }

    /// How many numbers there are.
    pub(crate) fn len(&self) -> usize
        ensures length { result ≡ length self.now }
        ensures few { result < 2 ^ 63 }
    {
        self.numbers.len()
    }

    /// How many numbers are below this one.
    pub(crate) fn below(&self, limit: u64) -> usize
        ensures count { result ≡ count_by (λ number. nat_lt number limit) self.now }
        ensures few { result < 2 ^ 63 }
    {
        count_below(&self.numbers, limit)
    }

    /// How often this number is there.
    pub(crate) fn count_of(&self, number: u64) -> usize
        ensures count { result ≡ count_by (nat_eq number) self.now }
        ensures few { result < 2 ^ 63 }
    {
        count_up_to(&self.numbers, number) - count_below(&self.numbers, number)
    }

    /// Adds a number.
    pub(crate) fn add(&mut self, number: u64) -> Result<(), AllocError>
        ensures added { OnOk result ((test : ℕ → Bool) → count_by test self.new ≡ count_by test self.old + cond (test number) 1 0) }
        ensures unchanged { OnErr result (self.new ≡ self.old) }
    {
        let place = count_below(&self.numbers, number);
        self.numbers.insert(place, number)?;
        Ok(())
    }

    /// Takes a number out, once.
    pub(crate) fn remove(&mut self, number: u64)
        ensures { 0 < count_by (nat_eq number) self.old → (test : ℕ → Bool) → count_by test self.new + cond (test number) 1 0 ≡ count_by test self.old }
    {
        let place = count_below(&self.numbers, number);
        if place < self.numbers.len() && self.numbers[place] == number {
            let _taken = self.numbers.remove(place);
        }
    }

    /// Takes all numbers of another list over, in time linear in all of them. Want of memory changes nothing.
    pub(crate) fn take_over(&mut self, other: &mut Sorted) -> Result<(), AllocError>
        ensures merged { OnOk result ((test : ℕ → Bool) → count_by test self.new ≡ count_by test self.old + count_by test other.old) }
        ensures left { OnOk result (other.new ≡ []) }
        ensures unchanged { OnErr result (self.new ≡ self.old) }
        ensures kept { OnErr result (other.new ≡ other.old) }
    {
        self.numbers.append(&mut other.numbers)?;
        sort(&mut self.numbers);
        Ok(())
    }
}

// Puts the numbers in order. Two sorted lists one after the other are merged through a buffer, or, where there is no memory for one, sorted in place.
fn sort(numbers: &mut Vec<u64>)
    ensures ascends { IsNonDecreasing numbers.new.items }
    ensures same { (test : ℕ → Bool) → count_by test numbers.new.items ≡ count_by test numbers.old.items }
{
    match numbers.sort() {
        Ok(()) => {}
        Err(_) => numbers.sort_unstable(),
    }
}
