//! A number for each task, and how many of the numbers are 0.

ghost use Rattle.std.specs.Prelude.{◌≡◌, ◌+◌, ◌-◌, ◌^◌, ◌<◌, ◌↔◌, IsTrue, List, ℕ, length, count_by, replicate, slice_get, slice_set, slice_index_or, Some};
ghost use Rattle.std.specs.Prelude.{IfOk, cond};
ghost use Rattle.book_counts.specs.Counted.{is_zero};

use std::alloc::{AllocError, Global};
use std::marker::Model;

/// A number for each task. How many of them are 0 is counted. Contracts see the numbers.
#[derive(Drop)]
pub struct Counts {
    numbers: Vec<u32>,
    zeros: usize,
}

impl Model for Counts {
    ghost use Rattle.std.specs.Prelude.{◌≡◌, ℕ, List, count_by};
    ghost use Rattle.book_counts.specs.Counted.{is_zero};

    ghost Value = { List ℕ };

    ghost view = { λ c. c.numbers.items };

    ghost invariant = { λ c. c.zeros ≡ count_by is_zero c.numbers.items };
}

impl Counts {
    /// The number 1 for each of so many tasks.
    pub fn ones(alloc: Global, tasks: usize) -> Result<Counts, AllocError>
        ensures { IfOk result (λ counts. counts ≡ replicate tasks 1) }
    {
        Ok(Counts {
            numbers: vec![in alloc; 1; tasks]?,
            zeros: 0,
        })
    }

    /// The number 0 for each of so many tasks.
    pub fn nothing(alloc: Global, tasks: usize) -> Result<Counts, AllocError>
        ensures { IfOk result (λ counts. counts ≡ replicate tasks 0) }
    {
        Ok(Counts {
            numbers: vec![in alloc; 0; tasks]?,
            zeros: tasks,
        })
    }

    /// The number of the task.
    pub fn at(&self, task: u32) -> u32
        requires { task < length self.now }
        ensures { slice_get self.now task ≡ Some result }
    {
        self.numbers[task as usize]
    }

    /// The task has this number from now on.
    pub fn set(&mut self, task: u32, number: u32)
        requires { task < length self.old }
        ensures { self.new ≡ slice_set self.old task number }
    {
        let before = self.numbers[task as usize];
        self.zeros = self.zeros + one_if_zero(number) - one_if_zero(before);
        self.numbers[task as usize] = number;
    }

    /// Whether no number is 0. Takes constant time.
    pub fn none_zero(&self) -> bool
        ensures { IsTrue result ↔ (count_by is_zero self.now ≡ 0) }
    {
        self.zeros == 0
    }

    /// The task has one less, where it has any.
    pub fn lower(&mut self, task: u32)
        requires { task < length self.old }
        ensures { self.new ≡ slice_set self.old task (slice_index_or self.old task 0 - 1) }
    {
        let before = self.at(task);
        self.set(task, before.saturating_sub(1));
    }

    /// The task has so many more.
    pub fn raise(&mut self, task: u32, more: u32)
        requires within { task < length self.old }
        requires few { slice_index_or self.old task 0 + more < 2 ^ 32 }
        ensures { self.new ≡ slice_set self.old task (slice_index_or self.old task 0 + more) }
    {
        let before = self.at(task);
        self.set(task, before + more);
    }
}

// 1 for 0, and else 0.
fn one_if_zero(number: u32) -> usize
    ensures { result ≡ cond (is_zero number) 1 0 }
{
    if number == 0 { 1 } else { 0 }
}
