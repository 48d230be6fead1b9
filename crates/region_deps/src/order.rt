//! How a graph lays out its links: by source, with a place for each source and a count for each task.

ghost use Rattle.std.specs.Prelude.{◌≡◌, ℕ, ◌+◌, ◌<◌, ◌≤◌, List, Bool, All, IfOk, OnOk, length, count_by, true, false, replicate, slice_index_or, ◌++◌, vec_len, vec_capacity};
ghost use Rattle.std.specs.List.Sorted.{IsPermutation, IsNonDecreasingBy};
ghost use Rattle.region_deps.specs.Links.{IsWithin, is_to};
ghost use Rattle.region_deps.specs.Queues.{IsQueued, HasRoom, HasPlace, IsPlace, offered};

use crate::graph::Link;
use std::alloc::{AllocError, Global};

/// Puts the links in the order of their sources. Takes no memory.
pub fn arrange(links: &mut Vec<Link>)
    ensures same { IsPermutation links.old.items links.new.items }
    ensures sorted { IsNonDecreasingBy (λ (l : Link). l.source) links.new.items }
{
    links.sort_unstable_by_key(|link| link.source);
}

// How many links come from sources with a lower number.
fn place(links: &[Link], source: u32) -> usize
    requires sorted { IsNonDecreasingBy (λ (l : Link). l.source) links.now }
    ensures { IsPlace links.now source result }
{
    links.partition_point(|link| link.source < source)
}

/// Where the links of each source begin, and where those of the last one end.
pub fn places(alloc: Global, links: &[Link], sources: usize) -> Result<Vec<usize>, AllocError>
    requires sorted { IsNonDecreasingBy (λ (l : Link). l.source) links.now }
    requires numbered { sources < 4294967296 }
    ensures length { IfOk result (λ first. length first.items ≡ sources + 1) }
    ensures place { IfOk result (λ first. (source : ℕ) → source < sources → HasPlace links.now first.items source) }
{
    let mut first = Vec::with_capacity(alloc, sources + 1)?;
    for source in 0..sources + 1 {
        first.push(place(links, source as u32))?;
    }
    Ok(first)
}

/// For so many places, that it is true of none.
pub fn none_yet(alloc: Global, places: usize) -> Result<Vec<bool>, AllocError>
    ensures { IfOk result (λ marks. marks.items ≡ replicate places false) }
{
    Ok(vec![in alloc; false; places]?)
}

/// For so many places, a count of 0.
pub fn zeros(alloc: Global, places: usize) -> Result<Vec<usize>, AllocError>
    ensures { IfOk result (λ counts. counts.items ≡ replicate places 0) }
{
    Ok(vec![in alloc; 0usize; places]?)
}

/// How many links lead to each task.
pub fn counts(alloc: Global, links: &[Link], tasks: usize) -> Result<Vec<usize>, AllocError>
    requires { All (λ (l : Link). l.task < tasks) links.now }
    ensures length { IfOk result (λ left. length left.items ≡ tasks) }
    ensures counted { IfOk result (λ left. (task : ℕ) → task < tasks → slice_index_or left.items task 1 ≡ count_by (is_to task) links.now) }
{
    let mut left = zeros(alloc, tasks)?;
    for link in links {
        left[link.task as usize] += 1;
    }
    Ok(left)
}

// Adds the task where nothing holds it.
fn offer(startable: &mut Vec<u32>, task: u32, left: usize) -> Result<(), AllocError>
    ensures added { OnOk result (startable.new.items ≡ startable.old.items ++ offered task left) }
    ensures room { vec_capacity startable.old ≤ vec_capacity startable.new }
{
    if left == 0 {
        startable.push(task)?;
    }
    Ok(())
}

/// The tasks that nothing holds, with room for the others.
pub fn idle(alloc: Global, left: &[usize]) -> Result<Vec<u32>, AllocError>
    requires { length left.now < 4294967296 }
    ensures queued { IfOk result (λ startable. IsQueued left.now (replicate (length left.now) false) startable.items) }
    ensures room { IfOk result (λ startable. HasRoom left.now startable.items (vec_capacity startable)) }
{
    let mut startable = Vec::with_capacity(alloc, left.len())?;
    for task in 0..left.len() {
        offer(&mut startable, task as u32, left[task])?;
    }
    Ok(startable)
}
