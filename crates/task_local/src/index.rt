//! The regions of a task in order, and the place of each in the copy.

ghost use Rattle.std.specs.Prelude.{◌≡◌, ◌+◌, ◌*◌, true, ◌^◌, ◌<◌, ◌≤◌, [], ◌∷◌, ◌++◌, not, ◌==◌};
ghost use Rattle.std.specs.Prelude.{length, filter, take, drop, sum_by, All, AllPairs, IfOk, OnOk};
ghost use Rattle.std.specs.List.Sorted.{IsNonDecreasingBy};
ghost use Rattle.rt_base.specs.declared.data.Access.{Access};
ghost use Rattle.rt_base.specs.Spans.{span_len, Overlaps};
ghost use Rattle.task_local.specs.Regions.{numbered, regions, cells_before, spliced};
ghost use Rattle.task_local.specs.Kept.{first_cell, is_nonempty, place_in, cell_total, FitsIn, HasBegun, HasOffsets};

use rt_base::{Access, Span};
use std::alloc::{AllocError, Global};
use std::marker::Model;

/// A region of a task: an access with its number, from 0 in the order of the task's text.
#[derive(Clone, Copy)]
pub struct Region {
    pub number: u32,
    pub access: Access,
}

/// The regions of a task, by array and then by first cell. Contracts see them as a list.
#[derive(Drop)]
pub(crate) struct RegionIndex {
    ordered: Vec<Region>,
    offsets: Vec<usize>,
}

impl Model for RegionIndex {
    ghost use Rattle.std.specs.Prelude.{List};
    ghost use Rattle.task_local.specs.declared.index.Region.{Region};
    ghost use Rattle.task_local.specs.Kept.{IsIndex};

    ghost Value = { List Region };

    ghost view = { λ index. index.ordered.items };

    ghost invariant = { λ index. IsIndex index.ordered.items index.offsets.items };
}

impl RegionIndex {
    // The index of a task's accesses.
    pub(crate) fn make(alloc: Global, accesses: &[Access]) -> Result<Self, AllocError>
        requires low { All (λ (access : Access). not (span_len access.span == 0) ≡ true → access.span.to < 2 ^ 32) accesses.now }
        requires apart { AllPairs (λ (one other : Access). ¬ Overlaps one.span other.span) accesses.now }
        requires total { sum_by (λ (access : Access). span_len access.span) accesses.now < 2 ^ 63 }
        requires few { length accesses.now < 2 ^ 32 }
        ensures { IfOk result (λ index. index ≡ regions accesses.now) }
    {
        let ordered = ordered_regions(alloc, accesses)?;
        let offsets = offsets_of(alloc, ordered.as_slice())?;
        Ok(RegionIndex { ordered, offsets })
    }

    // The regions in order.
    pub(crate) fn as_slice(&self) -> &[Region]
        ensures { result.now ≡ self.now }
    {
        self.ordered.as_slice()
    }

    // How many cells the regions have.
    pub(crate) fn cell_total(&self) -> usize
        ensures { result ≡ cell_total self.now }
    {
        cell_total_of(&self.ordered)
    }

    // How many cells of the regions come before this cell, by array and then by cell.
    pub(crate) fn place_of(&self, array: u16, cell: u32) -> usize
        ensures { result ≡ place_in self.now array cell }
    {
        let begun = begun_at(&self.ordered, array, cell);
        if begun == 0 {
            return 0;
        }
        self.offsets[begun - 1]
            + cells_of_access_before(&self.ordered[begun - 1].access, array, cell)
    }
}

// The cells of a span in the copy.
pub(crate) fn cells_in<'c>(index: &RegionIndex, copy: &'c [i64], span: Span) -> &'c [i64]
    requires fits { FitsIn index.now (length copy.now) span }
    ensures { result.now ≡ take (span_len span) (drop (place_in index.now span.array span.from) copy.now) }
{
    let at = index.place_of(span.array, span.from);
    &copy[at..at + span.len() as usize]
}

// Writes cells into the copy from the span's first cell on.
pub(crate) fn put_cells(index: &RegionIndex, copy: &mut [i64], span: Span, cells: &[i64])
    requires fits { place_in index.now span.array span.from + length cells.now ≤ length copy.old }
    ensures { copy.new ≡ spliced (place_in index.now span.array span.from) cells.now copy.old }
{
    let at = index.place_of(span.array, span.from);
    copy[at..at + cells.len()].copy_from_slice(cells);
}

// The accesses that aren't empty, with their numbers, by array and then by first cell.
fn ordered_regions(alloc: Global, accesses: &[Access]) -> Result<Vec<Region>, AllocError>
    requires low { All (λ (access : Access). not (span_len access.span == 0) ≡ true → access.span.to < 2 ^ 32) accesses.now }
    requires apart { AllPairs (λ (one other : Access). ¬ Overlaps one.span other.span) accesses.now }
    requires few { length accesses.now < 2 ^ 32 }
    ensures { IfOk result (λ ordered. ordered.items ≡ regions accesses.now) }
{
    let mut ordered = filled_regions(alloc, accesses)?;
    ordered.sort_unstable_by_key(|region| first_cell_of(region));
    Ok(ordered)
}

// The accesses that aren't empty, with their numbers.
fn filled_regions(alloc: Global, accesses: &[Access]) -> Result<Vec<Region>, AllocError>
    requires few { length accesses.now < 2 ^ 32 }
    ensures { IfOk result (λ found. found.items ≡ filter is_nonempty (numbered 0 accesses.now)) }
{
    let mut found = Vec::with_capacity(alloc, accesses.len())?;
    for k in 0..accesses.len() {
        add_filled(&mut found, k as u32, &accesses[k])?;
    }
    Ok(found)
}

// Adds an access with its number, where it isn't empty.
fn add_filled(found: &mut Vec<Region>, number: u32, access: &Access) -> Result<(), AllocError>
    ensures { OnOk result (found.new.items ≡ found.old.items ++ filter is_nonempty (record { number = number; access = access.now } ∷ [])) }
{
    if access.span.len() != 0 {
        found.push(Region {
            number,
            access: *access,
        })?;
    }
    Ok(())
}

// The number of a cell, by array and then by cell.
fn cell_number(array: u16, from: u32) -> u64
    ensures { result ≡ array * 2 ^ 32 + from }
{
    u64::from(array) * (1 << 32) + u64::from(from)
}

// The number of the region's first cell.
fn first_cell_of(region: &Region) -> u64
    ensures { result ≡ first_cell region.now }
{
    cell_number(region.access.span.array, region.access.span.from)
}

// For each region how many cells come before it.
fn offsets_of(alloc: Global, ordered: &[Region]) -> Result<Vec<usize>, AllocError>
    requires { cell_total ordered.now < 2 ^ 63 }
    ensures { IfOk result (λ offsets. HasOffsets ordered.now offsets.items) }
{
    let mut offsets = Vec::with_capacity(alloc, ordered.len())?;
    let mut total = 0;
    for region in ordered {
        offsets.push(total)?;
        total += region.access.span.len() as usize;
    }
    Ok(offsets)
}

// How many regions begin at this cell or before it.
fn begun_at(ordered: &[Region], array: u16, cell: u32) -> usize
    requires { IsNonDecreasingBy first_cell ordered.now }
    ensures { HasBegun ordered.now (array * 2 ^ 32 + cell) result }
{
    let number = cell_number(array, cell);
    ordered.partition_point(|region| first_cell_of(region) <= number)
}

// How many cells of the access come before this cell.
fn cells_of_access_before(access: &Access, array: u16, cell: u32) -> usize
    ensures { result ≡ cells_before array cell access.now }
{
    let Span {
        array: own,
        from,
        to,
    } = access.span;
    if own < array {
        return access.span.len() as usize;
    }
    if own == array {
        return cell.min(to).saturating_sub(from) as usize;
    }
    0
}

// How many cells the regions have.
fn cell_total_of(ordered: &[Region]) -> usize
    requires { cell_total ordered.now < 2 ^ 63 }
    ensures { result ≡ cell_total ordered.now }
{
    let mut total = 0;
    for region in ordered {
        total += region.access.span.len() as usize;
    }
    total
}
