//! What a new book begins with: lists with all the places that its moves need, and the numbers and marks of its tasks.

ghost use Rattle.std.specs.Prelude.{◌≡◌, ◌≤◌, ◌+◌, [], ℕ, Some, length, pos, replicate, slice_get, vec_capacity, IfOk};
ghost use Rattle.std.specs.VecDeque.{deque_capacity};
ghost use Rattle.rt_base.specs.declared.data.Phase.TheVariants as phase;
ghost use Rattle.rt_base.specs.declared.data.TaskDef.{TaskDef};
ghost use Rattle.rt_base.specs.Layout.{memory_len};
ghost use Rattle.rt_base.specs.WellFormed.{WellFormed};
ghost use Rattle.wait_steps.specs.MarkedRows.{unmarked};
ghost use Rattle.run_bounds.specs.Bounds.{most_entries, most_postings, most_statuses};
ghost use Rattle.book_parts.specs.Kept.{opens};

use crate::room::{
    all_waiting, cell_count, longest_wait, most_moves, most_postings, most_told, zeros,
};
use book_counts::{Counts, Posted};
use rt_base::{Entry, Phase, Program, ReqNo, Status};
use std::alloc::{AllocError, Global};
use std::collections::VecDeque;
use wait_steps::Marks;

/// The lists of a new book.
#[derive(Drop)]
pub struct Lists {
    pub memory: Vec<i64>,
    pub phases: Vec<Phase>,
    pub notices: VecDeque<ReqNo>,
    pub entries: Vec<Entry>,
    pub statuses: Vec<Status>,
    pub opened: Vec<ReqNo>,
}

/// Cells and phases as the program begins, and empty lists with places for all that the moves of its tasks, and polls, add to them.
pub fn fresh_lists(alloc: Global, prog: &Program) -> Result<Lists, AllocError>
    requires well_formed { WellFormed prog.now }
    ensures memory { IfOk result (λ lists. lists.memory.items ≡ replicate (memory_len prog.now) (pos 0)) }
    ensures phases { IfOk result (λ lists. lists.phases.items ≡ replicate (length prog.now.tasks.items) phase.Waiting) }
    ensures notices { IfOk result (λ lists. lists.notices.items ≡ []) }
    ensures entries { IfOk result (λ lists. lists.entries.items ≡ []) }
    ensures statuses { IfOk result (λ lists. lists.statuses.items ≡ []) }
    ensures opened { IfOk result (λ lists. lists.opened.items ≡ []) }
    ensures notice_places { IfOk result (λ lists. most_postings prog.now.tasks.items ≤ deque_capacity lists.notices) }
    ensures entry_places { IfOk result (λ lists. most_entries prog.now ≤ vec_capacity lists.entries) }
    ensures status_places { IfOk result (λ lists. most_statuses prog.now ≤ vec_capacity lists.statuses) }
    ensures opened_places { IfOk result (λ lists. (t k : ℕ) (def : TaskDef) → slice_get prog.now.tasks.items t ≡ Some def
        → opens (slice_get def.body.items k) ≤ vec_capacity lists.opened) }
{
    let tasks = prog.tasks.as_slice();
    let moves = most_moves(tasks);
    let postings = most_postings(tasks);
    Ok(Lists {
        memory: zeros(alloc, cell_count(prog.lens.as_slice()) as usize)?,
        phases: all_waiting(alloc, prog.tasks.len())?,
        notices: VecDeque::with_capacity(alloc, postings)?,
        entries: Vec::with_capacity(alloc, moves + postings)?,
        statuses: Vec::with_capacity(alloc, most_told(tasks))?,
        opened: Vec::with_capacity(alloc, longest_wait(tasks))?,
    })
}

/// What a new book counts and marks.
#[derive(Drop)]
pub struct Numbers {
    pub waits: Counts,
    pub posted: Posted,
    pub marks: Marks,
    pub bound: Counts,
    pub incomplete: Counts,
}

/// Each task waits to be handed out, and nothing is posted or bound.
pub fn fresh_numbers(alloc: Global, prog: &Program) -> Result<Numbers, AllocError>
    ensures waits { IfOk result (λ numbers. numbers.waits ≡ replicate (length prog.now.tasks.items) 1) }
    ensures posted { IfOk result (λ numbers. numbers.posted ≡ replicate (length prog.now.tasks.items) 0) }
    ensures marks { IfOk result (λ numbers. numbers.marks ≡ unmarked prog.now) }
    ensures bound { IfOk result (λ numbers. numbers.bound ≡ replicate (length prog.now.tasks.items) 0) }
    ensures incomplete { IfOk result (λ numbers. numbers.incomplete ≡ replicate (length prog.now.tasks.items) 0) }
{
    let tasks = prog.tasks.len();
    Ok(Numbers {
        waits: Counts::ones(alloc, tasks)?,
        posted: Posted::none(alloc, tasks)?,
        marks: Marks::build(alloc, prog)?,
        bound: Counts::nothing(alloc, tasks)?,
        incomplete: Counts::nothing(alloc, tasks)?,
    })
}
