//! Local operations: kernels on the copy of a task.

ghost use Rattle.std.specs.Prelude.{◌≡◌, ◌^◌, ◌<◌, ◌≤◌, length, drop, All};
ghost use Rattle.rt_base.specs.Spans.{span_len};
ghost use Rattle.task_local.specs.Regions.{regions};
ghost use Rattle.task_local.specs.Local.{kernel_value, computed, run_front, stop_at};
ghost use Rattle.task_local.specs.Placed.{FitPlaces, IsApart, IsOverLeft, IsOverRight, IsOverBoth, FitsWay, HasScratch, placed_value};
ghost use Rattle.task_local.specs.Kept.{TakesCells, CanRun, FitsSend, IsScratchFor, IsScratchOf, sent_in};

use crate::index::{RegionIndex, cells_in};
use crate::parts::{
    Part, cells_beside, is_apart, is_apart_from_sources, is_same, part_of_source, part_of_span,
};
use rt_base::{Kernel, Op, Phase, TaskDef};

// Runs the local operations from this one on, up to the first other operation or the end of the body.
pub(crate) fn run_from(
    def: &TaskDef,
    index: &RegionIndex,
    copy: &mut [i64],
    scratch: &mut [i64],
    first: u32,
) -> Phase
    requires regions { index.now ≡ regions def.now.accesses.items }
    requires place { first ≤ length def.now.body.items }
    requires few { length def.now.body.items < 2 ^ 32 }
    requires can { All (CanRun index.now (length copy.old) (length scratch.old)) def.now.body.items }
    ensures copy { copy.new ≡ run_front def.now (drop first def.now.body.items) copy.old }
    ensures phase { result ≡ stop_at first (drop first def.now.body.items) }
{
    let body = def.body.as_slice();
    for k in first as usize..body.len() {
        if !body[k].is_local() {
            return Phase::At(k as u32);
        }
        run_operation(def, index, copy, scratch, &body[k]);
    }
    Phase::Ended
}

// Runs an operation on the copy, where it is a local one. All sources are read before a cell is written.
fn run_operation(def: &TaskDef, index: &RegionIndex, copy: &mut [i64], scratch: &mut [i64], op: &Op)
    requires regions { index.now ≡ regions def.now.accesses.items }
    requires can { CanRun index.now (length copy.old) (length scratch.old) op.now }
    ensures { copy.new ≡ computed def.now op.now copy.old }
{
    if let Op::Compute {
        kernel,
        dst,
        left,
        right,
        value,
        step,
    } = op
    {
        let placed = Placed {
            kernel: *kernel,
            dst: part_of_span(index, *dst),
            left: part_of_source(index, *left),
            right: part_of_source(index, *right),
            value: *value,
            step: *step,
        };
        run_placed(copy, scratch, &placed);
    }
}

// A local operation, its spans as parts of the copy.
#[derive(Clone, Copy)]
pub(crate) struct Placed {
    pub(crate) kernel: Kernel,
    pub(crate) dst: Part,
    pub(crate) left: Part,
    pub(crate) right: Part,
    pub(crate) value: i64,
    pub(crate) step: i64,
}

// How many cells of scratch are enough for each of these operations, and no more.
pub(crate) fn longest_scratch(index: &RegionIndex, body: &[Op]) -> usize
    ensures { IsScratchOf index.now body.now result }
{
    let mut longest = 0;
    for op in body {
        longest = scratch_len(index, op).max(longest);
    }
    longest
}

// How many cells of scratch an operation needs: those of a destination that may share cells with a source.
fn scratch_len(index: &RegionIndex, op: &Op) -> usize
    ensures { IsScratchFor index.now result op.now }
{
    let Op::Compute {
        dst,
        left,
        right,
        ..
    } = op
    else {
        return 0;
    };
    let dst = part_of_span(index, *dst);
    let left = part_of_source(index, *left);
    let right = part_of_source(index, *right);
    if is_apart_from_sources(dst, left, right) {
        0
    } else {
        dst.count
    }
}

// Runs a kernel. One whose destination lies apart from its sources writes into the copy; another one writes into the scratch.
pub(crate) fn run_placed(copy: &mut [i64], scratch: &mut [i64], placed: &Placed)
    requires fits { FitPlaces (length copy.old) placed.now }
    requires room { HasScratch (length scratch.old) placed.now }
    ensures { copy.new ≡ placed_value placed.now copy.old }
{
    match way_of(placed) {
        Way::Apart => run_into_copy(copy, placed),
        Way::Along => block_kernels::copy_along(
            copy,
            placed.left.at,
            placed.dst.at,
            placed.dst.count,
        ),
        Way::OverLeft => run_over_left(copy, placed),
        Way::OverRight => run_over_right(copy, placed),
        Way::OverBoth => run_over_both(copy, placed),
        Way::Scratch => run_into_scratch(copy, scratch, placed),
    }
}

// How a kernel reaches its cells.
enum Way {
    // the destination lies apart from both sources
    Apart,
    // the cells of one part are copied to another, which may share cells with it
    Along,
    // the destination is the left source, and lies apart from the right one
    OverLeft,
    // the destination is the right source, and lies apart from the left one
    OverRight,
    // the destination is both sources
    OverBoth,
    // the destination shares cells with a source in another way
    Scratch,
}

// The way in which a kernel reaches its cells.
fn way_of(placed: &Placed) -> Way
    ensures { FitsWay placed.now result }
{
    let Placed {
        kernel,
        dst,
        left,
        right,
        ..
    } = *placed;
    if is_apart_from_sources(dst, left, right) {
        return Way::Apart;
    }
    if let Kernel::Copy = kernel {
        return Way::Along;
    }
    match (is_same(dst, left), is_same(dst, right)) {
        (true, true) => Way::OverBoth,
        (true, false) if is_apart(dst, right) => Way::OverLeft,
        (false, true) if is_apart(dst, left) => Way::OverRight,
        _ => Way::Scratch,
    }
}

// Runs a kernel whose destination shares no cell with its sources.
fn run_into_copy(copy: &mut [i64], placed: &Placed)
    requires fits { FitPlaces (length copy.old) placed.now }
    requires apart { IsApart placed.now }
    ensures { copy.new ≡ placed_value placed.now copy.old }
{
    let Part { at, count } = placed.dst;
    let (front, rest) = copy.split_at_mut(at);
    let (cells, back) = rest.split_at_mut(count);
    let from = cells_beside(front, back, at + count, placed.left);
    let with = cells_beside(front, back, at + count, placed.right);
    run_kernel(placed.kernel, cells, from, with, placed.value, placed.step);
}

// Runs a kernel whose destination is its left source.
fn run_over_left(copy: &mut [i64], placed: &Placed)
    requires fits { FitPlaces (length copy.old) placed.now }
    requires over { IsOverLeft placed.now }
    ensures { copy.new ≡ placed_value placed.now copy.old }
{
    let Part { at, count } = placed.dst;
    let (front, rest) = copy.split_at_mut(at);
    let (cells, back) = rest.split_at_mut(count);
    let with = cells_beside(front, back, at + count, placed.right);
    run_kernel_over_left(placed.kernel, cells, with, placed.value, placed.step);
}

// Runs a kernel whose destination is its right source.
fn run_over_right(copy: &mut [i64], placed: &Placed)
    requires fits { FitPlaces (length copy.old) placed.now }
    requires over { IsOverRight placed.now }
    ensures { copy.new ≡ placed_value placed.now copy.old }
{
    let Part { at, count } = placed.dst;
    let (front, rest) = copy.split_at_mut(at);
    let (cells, back) = rest.split_at_mut(count);
    let from = cells_beside(front, back, at + count, placed.left);
    run_kernel_over_right(placed.kernel, cells, from, placed.value, placed.step);
}

// Runs a kernel whose destination is both sources.
fn run_over_both(copy: &mut [i64], placed: &Placed)
    requires fits { FitPlaces (length copy.old) placed.now }
    requires over { IsOverBoth placed.now }
    ensures { copy.new ≡ placed_value placed.now copy.old }
{
    let Part { at, count } = placed.dst;
    let cells = &mut copy[at..at + count];
    run_kernel_over_both(placed.kernel, cells, placed.value, placed.step);
}

// Runs a kernel whose destination may share cells with its sources.
fn run_into_scratch(copy: &mut [i64], scratch: &mut [i64], placed: &Placed)
    requires fits { FitPlaces (length copy.old) placed.now }
    requires room { placed.now.dst.count ≤ length scratch.old }
    ensures { copy.new ≡ placed_value placed.now copy.old }
{
    let Part { at, count } = placed.dst;
    let cells = &mut scratch[..count];
    let from = &copy[placed.left.at..placed.left.at + placed.left.count];
    let with = &copy[placed.right.at..placed.right.at + placed.right.count];
    run_kernel(placed.kernel, cells, from, with, placed.value, placed.step);
    copy[at..at + count].copy_from_slice(cells);
}

// Writes what the kernel gives into its destination.
#[tactic(auto, unfolding(crate::specs::Local::kernel_value))]
fn run_kernel(kind: Kernel, dst: &mut [i64], left: &[i64], right: &[i64], value: i64, step: i64)
    requires { TakesCells kind (length dst.old) (length left.now) (length right.now) value }
    ensures { dst.new ≡ kernel_value kind (length dst.old) left.now right.now value step }
{
    match kind {
        Kernel::Fill => block_kernels::fill(dst, value),
        Kernel::Ramp => block_kernels::ramp(dst, value, step),
        Kernel::Copy => block_kernels::copy(dst, left),
        Kernel::Add => block_kernels::add(dst, left, right),
        Kernel::Sub => block_kernels::sub(dst, left, right),
        Kernel::Scale => block_kernels::scale(dst, left, value),
        Kernel::Shift => block_kernels::shift(dst, left, value as u32),
        Kernel::Jacobi2 => block_kernels::jacobi2(dst, left),
        Kernel::Sum => block_kernels::fill(dst, block_kernels::sum(left)),
        Kernel::Least => block_kernels::fill(dst, block_kernels::least(left)),
        Kernel::Greatest => block_kernels::fill(dst, block_kernels::greatest(left)),
    }
}

// Writes what the kernel gives over its left source.
#[tactic(auto, unfolding(crate::specs::Local::kernel_value))]
fn run_kernel_over_left(kind: Kernel, dst: &mut [i64], right: &[i64], value: i64, step: i64)
    requires { TakesCells kind (length dst.old) (length dst.old) (length right.now) value }
    ensures { dst.new ≡ kernel_value kind (length dst.old) dst.old right.now value step }
{
    match kind {
        Kernel::Fill => block_kernels::fill(dst, value),
        Kernel::Ramp => block_kernels::ramp(dst, value, step),
        Kernel::Copy => {}
        Kernel::Add => block_kernels::add_to_left(dst, right),
        Kernel::Sub => block_kernels::sub_to_left(dst, right),
        Kernel::Scale => block_kernels::scale_to_left(dst, value),
        Kernel::Shift => block_kernels::shift_to_left(dst, value as u32),
        // it takes two cells more than it gives
        Kernel::Jacobi2 => {}
        Kernel::Sum => {
            let total = block_kernels::sum(dst);
            block_kernels::fill(dst, total);
        }
        Kernel::Least => {
            let least = block_kernels::least(dst);
            block_kernels::fill(dst, least);
        }
        Kernel::Greatest => {
            let greatest = block_kernels::greatest(dst);
            block_kernels::fill(dst, greatest);
        }
    }
}

// Writes what the kernel gives over its right source.
#[tactic(auto, unfolding(crate::specs::Local::kernel_value))]
fn run_kernel_over_right(kind: Kernel, dst: &mut [i64], left: &[i64], value: i64, step: i64)
    requires { TakesCells kind (length dst.old) (length left.now) (length dst.old) value }
    ensures { dst.new ≡ kernel_value kind (length dst.old) left.now dst.old value step }
{
    match kind {
        Kernel::Add => block_kernels::add_to_right(dst, left),
        Kernel::Sub => block_kernels::sub_to_right(dst, left),
        _ => run_kernel(kind, dst, left, &[], value, step),
    }
}

// Writes what the kernel gives over both its sources.
#[tactic(auto, unfolding(crate::specs::Local::kernel_value))]
fn run_kernel_over_both(kind: Kernel, dst: &mut [i64], value: i64, step: i64)
    requires { TakesCells kind (length dst.old) (length dst.old) (length dst.old) value }
    ensures { dst.new ≡ kernel_value kind (length dst.old) dst.old dst.old value step }
{
    match kind {
        Kernel::Add => block_kernels::add_to_both(dst),
        Kernel::Sub => block_kernels::sub_to_both(dst),
        _ => run_kernel_over_left(kind, dst, &[], value, step),
    }
}

// The cells that an operation sends, none where it is no send.
pub(crate) fn sent_cells<'c>(index: &RegionIndex, copy: &'c [i64], op: &Op) -> &'c [i64]
    requires fits { FitsSend index.now (length copy.now) op.now }
    ensures { result.now ≡ sent_in index.now copy.now op.now }
{
    match op {
        Op::Post { how, span, .. } if !how.is_receive() => cells_in(index, copy, *span),
        _ => &[],
    }
}
