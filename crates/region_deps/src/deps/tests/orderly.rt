//! Whether tasks stand in the order of rank and epoch, and the accesses of each of them share no cell.

ghost use Rattle.std.specs.Prelude.{◌≡◌, ◌+◌, ◌<◌, ◌≤◌, ◌↔◌, ℕ, IsTrue, All, AllPairs, length, sum_by, slice_index_or};
ghost use Rattle.rt_base.specs.declared.data.Access.{Access};
ghost use Rattle.rt_base.specs.declared.data.TaskDef.{TaskDef};
ghost use Rattle.rt_base.specs.Spans.{Overlaps};
ghost use Rattle.rt_base.specs.WellFormed.{InOrder};
ghost use Rattle.region_deps.specs.Lines.{IsApart, access_count};
ghost use Rattle.region_deps.specs.Holding.{IsOrderly};

use crate::scan::overlaps;
use rt_base::{Access, TaskDef};

// Whether the access overlaps with none behind it.
fn is_alone(accesses: &[Access], one: usize) -> bool
    requires { one < length accesses.now }
    ensures { IsTrue result → (j : ℕ) (d : Access) → one < j → j < length accesses.now
        → ¬ Overlaps (slice_index_or accesses.now one d).span (slice_index_or accesses.now j d).span }
{
    for other in one + 1..accesses.len() {
        if overlaps(&accesses[one].span, &accesses[other].span) {
            return false;
        }
    }
    true
}

// Whether no two of the accesses overlap.
fn are_apart(accesses: &[Access]) -> bool
    ensures { IsTrue result → AllPairs (λ (one other : Access). ¬ Overlaps one.span other.span) accesses.now }
{
    for one in 0..accesses.len() {
        if !is_alone(accesses, one) {
            return false;
        }
    }
    true
}

// Whether no two accesses of the task overlap.
fn is_apart(tasks: &[TaskDef], task: usize) -> bool
    requires { task < length tasks.now }
    ensures { IsTrue result → (d : TaskDef) → IsApart (slice_index_or tasks.now task d) }
{
    are_apart(tasks[task].accesses.as_slice())
}

// Whether no task has two accesses that overlap.
fn are_all_apart(tasks: &[TaskDef]) -> bool
    ensures { IsTrue result → All IsApart tasks.now }
{
    for task in 0..tasks.len() {
        if !is_apart(tasks, task) {
            return false;
        }
    }
    true
}

// Whether the one task may stand before the other.
fn is_in_order(earlier: &TaskDef, later: &TaskDef) -> bool
    ensures { IsTrue result → InOrder earlier.now later.now }
{
    earlier.rank < later.rank || (earlier.rank == later.rank && earlier.epoch <= later.epoch)
}

// Whether the task may stand behind all tasks before it.
fn is_behind_all(tasks: &[TaskDef], task: usize) -> bool
    requires { task < length tasks.now }
    ensures { IsTrue result → (i : ℕ) (d : TaskDef) → i < task → InOrder (slice_index_or tasks.now i d) (slice_index_or tasks.now task d) }
{
    for earlier in 0..task {
        if !is_in_order(&tasks[earlier], &tasks[task]) {
            return false;
        }
    }
    true
}

// Whether the tasks stand in the order of rank and epoch.
fn are_in_order(tasks: &[TaskDef]) -> bool
    ensures { IsTrue result → AllPairs InOrder tasks.now }
{
    for task in 0..tasks.len() {
        if !is_behind_all(tasks, task) {
            return false;
        }
    }
    true
}

// Whether there are few tasks, each of few accesses.
fn are_few(tasks: &[TaskDef]) -> bool
    ensures { IsTrue result → sum_by access_count tasks.now + length tasks.now < 4294967296 }
{
    if tasks.len() > 1000 {
        return false;
    }
    let mut total = 0usize;
    for task in tasks {
        if task.accesses.len() > 1000 {
            return false;
        }
        total += task.accesses.len();
    }
    true
}

/// Whether the dependency graph takes these tasks.
pub fn is_orderly(tasks: &[TaskDef]) -> bool
    ensures { IsTrue result → IsOrderly tasks.now }
{
    are_few(tasks) && are_all_apart(tasks) && are_in_order(tasks)
}
