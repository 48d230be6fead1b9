//! The tasks of one rank between two taskwaits are a group, and each group has to wait for the one before.

ghost use Rattle.std.specs.Prelude.{◌≡◌, ◌==◌, ℕ, ◌+◌, ◌-◌, ◌<◌, ◌≤◌, ◌++◌, ◌↔◌, All, IsTrue, IfOk, IfSome, IfNone, OnOk, length, count_by, slice_index};
ghost use Rattle.std.specs.Option.{option_to_list};
ghost use Rattle.region_deps.specs.declared.graph.Link.{Link};
ghost use Rattle.region_deps.specs.Epochs.{IsOneGroup, IsHead, IsGrouped, IsBarrier, HasBarriers};

use crate::graph::Link;
use crate::order::zeros;
use rt_base::TaskDef;
use std::alloc::{AllocError, Global};

// Whether the task is of the rank of the one before, with no taskwait between them.
fn goes_on(tasks: &[TaskDef], task: usize) -> bool
    requires later { 0 < task }
    requires known { task < length tasks.now }
    ensures { IsTrue result ↔ IsOneGroup tasks.now (task - 1) task }
{
    let before = &tasks[task - 1];
    let this = &tasks[task];
    before.rank == this.rank && before.epoch == this.epoch
}

// The first task of the task's group, after those of the tasks before.
fn head_of(tasks: &[TaskDef], heads: &[u32], task: usize) -> u32
    requires known { task < length tasks.now }
    requires numbered { length tasks.now < 4294967296 }
    requires long { length heads.now ≡ task }
    requires low { (k : ℕ) → k < task → slice_index heads.now k ≤ k }
    ensures { IsHead tasks.now heads.now task result }
{
    if task == 0 {
        return 0;
    }
    if goes_on(tasks, task) {
        heads[task - 1]
    } else {
        task as u32
    }
}

/// For each task the first task of its group.
pub fn heads(alloc: Global, tasks: &[TaskDef]) -> Result<Vec<u32>, AllocError>
    requires { length tasks.now < 4294967296 }
    ensures { IfOk result (λ heads. IsGrouped tasks.now heads.items) }
{
    let mut heads = Vec::with_capacity(alloc, tasks.len())?;
    for task in 0..tasks.len() {
        let head = head_of(tasks, &heads, task);
        heads.push(head)?;
    }
    Ok(heads)
}

/// How many tasks the group of each head has.
pub fn group_sizes(alloc: Global, heads: &[u32]) -> Result<Vec<usize>, AllocError>
    requires { (k : ℕ) → k < length heads.now → slice_index heads.now k ≤ k }
    ensures long { IfOk result (λ sizes. length sizes.items ≡ length heads.now) }
    ensures counted { IfOk result (λ sizes. (head : ℕ) → head < length heads.now → slice_index sizes.items head ≡ count_by (λ x. x == head) heads.now) }
{
    let mut sizes = zeros(alloc, heads.len())?;
    for head in heads {
        sizes[*head as usize] += 1;
    }
    Ok(sizes)
}

// The link to the task from the group before its own, if there is one of the same rank.
fn barrier(tasks: &[TaskDef], heads: &[u32], accesses: usize, task: usize) -> Option<Link>
    requires known { task < length tasks.now }
    requires grouped { IsGrouped tasks.now heads.now }
    requires numbered { accesses + length tasks.now < 4294967296 }
    ensures some { IfSome result (λ l. (l.task ≡ task) × IsBarrier tasks.now heads.now accesses l) }
    ensures none { IfNone result ((l : Link) → l.task ≡ task → ¬ IsBarrier tasks.now heads.now accesses l) }
{
    let head = heads[task] as usize;
    if head == 0 || tasks[head - 1].rank != tasks[task].rank {
        return None;
    }
    Some(Link {
        source: accesses as u32 + heads[head - 1],
        task: task as u32,
    })
}

// Adds the link, if there is one.
fn add(links: &mut Vec<Link>, found: Option<Link>) -> Result<(), AllocError>
    ensures { OnOk result (links.new.items ≡ links.old.items ++ option_to_list found) }
{
    match found {
        Some(link) => {
            links.push(link)?;
            Ok(())
        }
        None => Ok(()),
    }
}

/// Adds the links from each group to the tasks of the next one of its rank.
pub fn add_barriers(
    links: &mut Vec<Link>,
    tasks: &[TaskDef],
    heads: &[u32],
    accesses: usize,
) -> Result<(), AllocError>
    requires grouped { IsGrouped tasks.now heads.now }
    requires numbered { accesses + length tasks.now < 4294967296 }
    ensures { OnOk result (HasBarriers tasks.now heads.now accesses (length tasks.now) links.old.items links.new.items) }
{
    for task in 0..tasks.len() {
        let found = barrier(tasks, heads, accesses, task);
        add(links, found)?;
    }
    Ok(())
}
