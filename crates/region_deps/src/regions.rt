//! The accesses of a program as regions on one line of places.

ghost use Rattle.std.specs.Prelude.{◌≡◌, ℕ, ◌+◌, ◌<◌, ◌≤◌, ◌++◌, All, IfOk, OnOk, length, slice_index, sum_by};
ghost use Rattle.region_deps.specs.Lines.{place_of, region_of, regions_of, regions_from, access_count, accesses_before, IsSmall, IsSmallTask};

use crate::segments::Region;
use rt_base::{Access, TaskDef};
use std::alloc::{AllocError, Global};

// How many places each array has on the line, and each rank.
const ARRAY: u64 = 4_294_967_296;

const RANK: u64 = 281_474_976_710_656;

// Where the cell stands on the line of all cells of all arrays of all ranks.
fn place_of(rank: u16, array: u16, cell: u32) -> u64
    ensures place { result ≡ place_of rank array cell }
    ensures array { array < 65536 }
    ensures cell { cell < 4294967296 }
{
    u64::from(rank) * RANK + u64::from(array) * ARRAY + u64::from(cell)
}

// The region of an access of the task.
fn region_of(task: u32, rank: u16, access: &Access) -> Region
    ensures region { result ≡ region_of task rank access.now }
    ensures small { IsSmall access.now }
{
    let span = access.span;
    Region {
        task,
        from: place_of(rank, span.array, span.from),
        to: place_of(rank, span.array, span.to),
        writes: access.mode.is_written(),
    }
}

// Adds the regions of the task.
fn add(regions: &mut Vec<Region>, task: u32, def: &TaskDef) -> Result<(), AllocError>
    ensures added { OnOk result (regions.new.items ≡ regions.old.items ++ regions_of task def.now) }
    ensures small { OnOk result (IsSmallTask def.now) }
{
    let rank = def.rank;
    let accesses = def.accesses.as_slice();
    for access in accesses {
        regions.push(region_of(task, rank, access))?;
    }
    Ok(())
}

/// The regions of all accesses, in the order of the tasks.
pub fn regions(alloc: Global, tasks: &[TaskDef]) -> Result<Vec<Region>, AllocError>
    requires { length tasks.now < 4294967296 }
    ensures regions { IfOk result (λ regions. regions.items ≡ regions_from 0 tasks.now) }
    ensures small { OnOk result (All IsSmallTask tasks.now) }
{
    let mut regions = Vec::new(alloc);
    for task in 0..tasks.len() {
        add(&mut regions, task as u32, &tasks[task])?;
    }
    Ok(regions)
}

/// The number of each task's first access, and behind them the number of all accesses.
pub fn firsts(alloc: Global, tasks: &[TaskDef]) -> Result<Vec<usize>, AllocError>
    requires tasks { length tasks.now < 4294967296 }
    requires accesses { sum_by access_count tasks.now < 4294967296 }
    ensures length { IfOk result (λ first. length first.items ≡ length tasks.now + 1) }
    ensures first { IfOk result (λ first. (task : ℕ) → task ≤ length tasks.now → slice_index first.items task ≡ accesses_before tasks.now task) }
{
    let mut first = Vec::with_capacity(alloc, tasks.len() + 1)?;
    let mut before = 0;
    for task in tasks {
        first.push(before)?;
        before += task.accesses.len();
    }
    first.push(before)?;
    Ok(first)
}
