//! How many requests each task has posted.

ghost use Rattle.std.specs.Prelude.{◌≡◌, ◌<◌, ◌+◌, ◌^◌, length, replicate, slice_get, slice_set, slice_index_or, Some, IfOk};

use rt_base::TaskNo;
use std::alloc::{AllocError, Global};
use std::marker::Model;

/// How many requests each task has posted. Contracts see the numbers.
#[derive(Drop)]
pub struct Posted {
    numbers: Vec<u32>,
}

impl Model for Posted {
    ghost use Rattle.std.specs.Prelude.{ℕ, List};

    ghost Value = { List ℕ };

    ghost view = { λ p. p.numbers.items };
}

impl Posted {
    /// None yet, for so many tasks.
    pub fn none(alloc: Global, tasks: usize) -> Result<Posted, AllocError>
        ensures { IfOk result (λ posted. posted ≡ replicate tasks 0) }
    {
        Ok(Posted {
            numbers: vec![in alloc; 0; tasks]?,
        })
    }

    /// How many requests the task has posted: the number of its next one.
    pub fn next(&self, task: TaskNo) -> u32
        requires { task.0 < length self.now }
        ensures { slice_get self.now task.0 ≡ Some result }
    {
        self.numbers[task.0 as usize]
    }

    /// The number of the request that the task posted last.
    pub fn last(&self, task: TaskNo) -> u32
        requires { 0 < slice_index_or self.now task.0 0 }
        ensures { slice_get self.now task.0 ≡ Some (result + 1) }
    {
        self.numbers[task.0 as usize] - 1
    }

    /// The task has posted one request more.
    pub fn add(&mut self, task: TaskNo)
        requires within { task.0 < length self.old }
        requires few { slice_index_or self.old task.0 0 + 1 < 2 ^ 32 }
        ensures { self.new ≡ slice_set self.old task.0 (slice_index_or self.old task.0 0 + 1) }
    {
        self.numbers[task.0 as usize] += 1;
    }
}
