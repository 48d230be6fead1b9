//! The waits of a body: what they name, and where their statuses go.

ghost use Rattle.std.specs.Prelude.{◌≡◌, ◌<◌, ◌↔◌, IsTrue, ℕ, length, slice_get};
ghost use Rattle.task_local.specs.Waits.{handles_of, status_span_of};
ghost use Rattle.tidy_runs.specs.Tidy.{binds};
ghost use Rattle.book_parts.specs.Kept.{IsAwait, IsWait, IsBind};

use rt_base::{Handle, Op, Span, TaskDef};

/// The handles of the wait that is operation k, which waits now or later.
pub fn handles_at(def: &TaskDef, k: u32) -> &[Handle]
    requires within { k < length def.now.body.items }
    requires waits { IsAwait (slice_get def.now.body.items k) }
    ensures { (n : ℕ) → handles_of n (slice_get def.now.body.items k) ≡ result.now }
{
    match &def.body.as_slice()[k as usize] {
        Op::Compute { .. } => unreachable!(),
        Op::Post { .. } => unreachable!(),
        Op::Await { handles, .. } => handles.as_slice(),
    }
}

/// Where the statuses of the wait that is operation k go, if they go anywhere.
pub fn status_at(def: &TaskDef, k: u32) -> Option<Span>
    requires within { k < length def.now.body.items }
    requires waits { IsWait (slice_get def.now.body.items k) }
    ensures { status_span_of (slice_get def.now.body.items k) ≡ result }
{
    match &def.body.as_slice()[k as usize] {
        Op::Compute { .. } => unreachable!(),
        Op::Post { .. } => unreachable!(),
        Op::Await { status, .. } => *status,
    }
}

/// Whether operation k binds what it names.
pub fn binds_at(def: &TaskDef, k: u32) -> bool
    ensures { IsTrue result ↔ IsBind (slice_get def.now.body.items k) }
{
    match def.body.get(k as usize) {
        Some(operation) => binds(operation),
        None => false,
    }
}

// Whether the operation binds what it names.
pub(crate) fn binds(operation: &Op) -> bool
    ensures { result ≡ binds operation.now }
{
    match operation {
        Op::Compute { .. } => false,
        Op::Post { .. } => false,
        Op::Await { later, .. } => *later,
    }
}
