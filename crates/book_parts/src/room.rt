//! How much room a book needs, and items that go into it.

ghost use Rattle.std.specs.Prelude.{◌≡◌, ◌≤◌, ◌<◌, ◌^◌, ◌==◌, ◌∷◌, [], ◌++◌, ℕ, Some, drop, length, slice_get, sum, sum_by, vec_capacity, replicate, pos};
ghost use Rattle.std.specs.Prelude.{IfOk, if◌then◌else◌};
ghost use Rattle.rt_base.specs.declared.data.Phase.TheVariants as phase;
ghost use Rattle.rt_base.specs.declared.data.TaskDef.{TaskDef};
ghost use Rattle.rt_base.specs.WellFormed.{over_operations};
ghost use Rattle.task_machine.specs.Course.{most_moves};
ghost use Rattle.run_bounds.specs.Bounds.{most_postings, tells};
ghost use Rattle.book_parts.specs.Kept.{opens};

use rt_base::{Op, Phase, Status, TaskDef};
use std::alloc::{AllocError, Global};
use wait_steps::{note, postings_of};

// At most how many moves these tasks make.
pub(crate) fn most_moves(tasks: &[TaskDef]) -> usize
    requires few { most_moves tasks.now < 2 ^ 32 }
    ensures { result ≡ most_moves tasks.now }
{
    let mut moves = 0;
    for task in tasks {
        moves += 2 * task.body.len() + 3;
    }
    moves
}

// How many requests these tasks post.
pub(crate) fn most_postings(tasks: &[TaskDef]) -> usize
    requires few { most_postings tasks.now < 2 ^ 32 }
    ensures { result ≡ most_postings tasks.now }
{
    let mut count = 0;
    for task in tasks {
        count += postings_of(task.body.as_slice());
    }
    count
}

// At most how many statuses these tasks tell.
pub(crate) fn most_told(tasks: &[TaskDef]) -> usize
    requires few { over_operations tells tasks.now < 2 ^ 32 }
    ensures { result ≡ over_operations tells tasks.now }
{
    let mut count = 0;
    for task in tasks {
        count += told_of(task.body.as_slice());
    }
    count
}

// At most how many statuses these operations tell.
fn told_of(body: &[Op]) -> usize
    requires few { sum_by tells body.now < 2 ^ 32 }
    ensures { result ≡ sum_by tells body.now }
{
    let mut count = 0;
    for operation in body {
        count += told_by(operation);
    }
    count
}

// At most how many statuses the operation tells.
fn told_by(operation: &Op) -> usize
    ensures { result ≡ tells operation.now }
{
    match operation {
        Op::Compute { .. } => 0,
        Op::Post { .. } => 1,
        Op::Await { handles, .. } => handles.len(),
    }
}

// At most how many requests one call of these tasks opens.
pub(crate) fn longest_wait(tasks: &[TaskDef]) -> usize
    ensures { (t k : ℕ) (def : TaskDef) → slice_get tasks.now t ≡ Some def → opens (slice_get def.body.items k) ≤ result }
{
    let mut most = 0;
    for task in tasks {
        most = greater(most, longest_of(task.body.as_slice()));
    }
    most
}

// At most how many requests the call of one of these operations opens.
fn longest_of(body: &[Op]) -> usize
    ensures { (k : ℕ) → opens (slice_get body.now k) ≤ result }
{
    let mut most = 0;
    for operation in body {
        most = greater(most, told_by(operation));
    }
    most
}

// The greater of two numbers.
fn greater(one: usize, other: usize) -> usize
    ensures one { one ≤ result }
    ensures other { other ≤ result }
{
    if one < other { other } else { one }
}

// How many cells arrays of these lengths have.
pub(crate) fn cell_count(lens: &[u32]) -> u32
    requires { sum lens.now < 2 ^ 32 }
    ensures { result ≡ sum lens.now }
{
    lens.iter().sum()
}

/// Adds an item where this number isn't 0 and there is a place for it.
pub fn note_some<T: Drop>(list: &mut Vec<T>, item: T, number: u32)
    requires { length list.old.items < vec_capacity list.old }
    ensures items { list.new.items ≡ list.old.items ++ (if number == 0 then [] else item ∷ []) }
    ensures places { vec_capacity list.old ≤ vec_capacity list.new }
{
    if number > 0 {
        note(list, item);
    }
}

/// How many statuses there are.
pub fn count_of(statuses: &[Status]) -> u32
    requires { length statuses.now < 2 ^ 32 }
    ensures { result ≡ length statuses.now }
{
    statuses.len() as u32
}

// So many cells, all 0.
pub(crate) fn zeros(alloc: Global, cells: usize) -> Result<Vec<i64>, AllocError>
    ensures { IfOk result (λ made. made.items ≡ replicate cells (pos 0)) }
{
    Ok(vec![in alloc; 0; cells]?)
}

// So many tasks, all waiting.
pub(crate) fn all_waiting(alloc: Global, tasks: usize) -> Result<Vec<Phase>, AllocError>
    ensures { IfOk result (λ made. made.items ≡ replicate tasks phase.Waiting) }
{
    Ok(vec![in alloc; Phase::Waiting; tasks]?)
}

/// The statuses from this place on.
pub fn statuses_from(statuses: &[Status], from: u32) -> &[Status]
    requires { from ≤ length statuses.now }
    ensures { result.now ≡ drop from statuses.now }
{
    &statuses[from as usize..]
}
