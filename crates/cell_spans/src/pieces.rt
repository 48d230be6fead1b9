//! The pieces into which the accesses of all tasks cut the arrays.

ghost use Rattle.std.specs.Prelude.{◌≡◌, ℕ, ◌+◌, ◌<◌, ◌≤◌, ◌↔◌, [], ◌∷◌, ◌++◌, Contains, IfOk, OnOk, IfSome, IfNone, nat_le};
ghost use Rattle.std.specs.List.Sorted.{IsStrictlyIncreasing};
ghost use Rattle.rt_base.specs.Pieces.{pieces};
ghost use Rattle.cell_spans.specs.Covering.{AreSmall};
ghost use Rattle.cell_spans.specs.Line.{IsSmall};
ghost use Rattle.cell_spans.specs.Cuts.{spot, bounds_of, all_bounds, AreTasksSmall, cut_cells, cut_by_accesses};

use crate::sorted::count_below;
use rt_base::{Access, Span, TaskDef};
use std::alloc::{AllocError, Global};

/// Whether the pairs of an access and an elementary segment inside it are at most so many. Sorts the bounds of all accesses, and looks for those of each
/// access among them.
pub fn pieces_within(alloc: Global, tasks: &[TaskDef], most: u64) -> Result<bool, AllocError>
    ensures { IfOk result (λ within. within ≡ nat_le (pieces tasks.now) most) }
{
    let cuts = cuts_of(alloc, tasks)?;
    let mut total = 0;
    for task in tasks {
        match with_accesses(&cuts, task.rank, task.accesses.as_slice(), total, most) {
            Some(sum) => total = sum,
            None => return Ok(false),
        }
    }
    Ok(true)
}

// Where a cell of an array of a rank lies on the line of all ranks.
fn spot(rank: u16, array: u16, cell: u32) -> u64
    ensures { result ≡ spot rank array cell }
{
    (rank as u64 * 65_536 + array as u64) * 0x1_0000_0000 + cell as u64
}

// Adds where the access begins and where it ends.
fn push_bounds(bounds: &mut Vec<u64>, rank: u16, span: Span) -> Result<(), AllocError>
    ensures bounds { OnOk result (bounds.new.items ≡ (bounds.old.items ++ spot rank span.array span.from ∷ []) ++ spot rank span.array span.to ∷ []) }
    ensures small { IsSmall span }
{
    bounds.push(spot(rank, span.array, span.from))?;
    bounds.push(spot(rank, span.array, span.to))?;
    Ok(())
}

// The same of several accesses.
fn push_all(bounds: &mut Vec<u64>, rank: u16, accesses: &[Access]) -> Result<(), AllocError>
    ensures bounds { OnOk result (bounds.new.items ≡ bounds.old.items ++ bounds_of rank accesses.now) }
    ensures small { OnOk result (AreSmall accesses.now) }
    ensures rank { rank < 65536 }
{
    for access in accesses {
        push_bounds(bounds, rank, access.span)?;
    }
    Ok(())
}

// The same of the accesses of all tasks.
fn all_bounds(alloc: Global, tasks: &[TaskDef]) -> Result<Vec<u64>, AllocError>
    ensures bounds { IfOk result (λ bounds. bounds.items ≡ all_bounds tasks.now) }
    ensures small { OnOk result (AreTasksSmall tasks.now) }
{
    let mut bounds = Vec::new(alloc);
    for task in tasks {
        push_all(&mut bounds, task.rank, task.accesses.as_slice())?;
    }
    Ok(bounds)
}

// The bounds in ascending order, each once.
fn cuts_of(alloc: Global, tasks: &[TaskDef]) -> Result<Vec<u64>, AllocError>
    ensures rises { IfOk result (λ cuts. IsStrictlyIncreasing cuts.items) }
    ensures bounds { IfOk result (λ cuts. (place : ℕ) → Contains cuts.items place ↔ Contains (all_bounds tasks.now) place) }
    ensures small { OnOk result (AreTasksSmall tasks.now) }
{
    let mut bounds = all_bounds(alloc, tasks)?;
    bounds.sort_unstable();
    bounds.dedup();
    Ok(bounds)
}

// How many cells of the span begin a segment.
fn cut_cells(cuts: &[u64], rank: u16, span: Span) -> usize
    requires { IsStrictlyIncreasing cuts.now }
    ensures { result ≡ cut_cells cuts.now rank span }
{
    if span.to <= span.from {
        return 0;
    }
    let up_to = count_below(cuts, spot(rank, span.array, span.to));
    let before = count_below(cuts, spot(rank, span.array, span.from));
    up_to - before
}

// The sum with the pieces of these accesses, where it is at most so many.
fn with_accesses(cuts: &[u64], rank: u16, accesses: &[Access], sum: u64, most: u64) -> Option<u64>
    requires rises { IsStrictlyIncreasing cuts.now }
    requires within { sum ≤ most }
    ensures some { IfSome result (λ total. (total ≡ sum + cut_by_accesses cuts.now rank accesses.now) × (total ≤ most)) }
    ensures none { IfNone result (most < sum + cut_by_accesses cuts.now rank accesses.now) }
{
    let mut total = sum;
    for access in accesses {
        let more = cut_cells(cuts, rank, access.span) as u64;
        if most - total < more {
            return None;
        }
        total += more;
    }
    Some(total)
}
