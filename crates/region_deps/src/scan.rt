//! The order of tasks by a look at all earlier ones and at each pair of their accesses: the yardstick of the tests.

ghost use Rattle.std.specs.Prelude.{◌↔◌, IsTrue};
ghost use Rattle.rt_base.specs.Spans.{Overlaps};

use rt_base::{Access, Span, TaskDef};

/// Whether the two spans name one array and share a cell.
pub fn overlaps(one: &Span, other: &Span) -> bool
    ensures { IsTrue result ↔ Overlaps one.now other.now }
{
    one.array == other.array && one.from.max(other.from) < one.to.min(other.to)
}

// Whether the regions overlap and at least one of them is written.
fn conflicts(one: &Access, other: &Access) -> bool {
    overlaps(&one.span, &other.span) && (one.mode.is_written() || other.mode.is_written())
}

// Whether some region of the one conflicts with some region of the other.
fn shares_regions(one: &[Access], other: &[Access]) -> bool {
    one.iter().any(|a| other.iter().any(|b| conflicts(a, b)))
}

// Whether the later task has to wait for the earlier one.
fn comes_before(earlier: &TaskDef, later: &TaskDef) -> bool {
    let shares = shares_regions(earlier.accesses.as_slice(), later.accesses.as_slice());
    earlier.rank == later.rank && (shares || earlier.epoch < later.epoch)
}

/// Whether all tasks are released that the task of this number has to wait for.
pub fn may_start(tasks: &[TaskDef], released: &[bool], task: usize) -> bool {
    if task >= tasks.len() || released.len() < task {
        return false;
    }
    for earlier in 0..task {
        if !released[earlier] && comes_before(&tasks[earlier], &tasks[task]) {
            return false;
        }
    }
    true
}
