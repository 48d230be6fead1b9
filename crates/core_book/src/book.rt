//! The book: the machine's state after its history, and the moves that go on from it.

ghost use Rattle.std.specs.Prelude.{◌≡◌, ◌≤◌, true, false, ℕ, slice_get, slice_set, Some, IfOk, IfSome, IfNone};
ghost use Rattle.rt_base.specs.declared.data.Phase.TheVariants as phase;
ghost use Rattle.rt_base.specs.WellFormed.{WellFormed};
ghost use Rattle.rt_base.specs.MayMove.{MayMove};
ghost use Rattle.task_local.specs.StandsFor.{StandsFor};
ghost use Rattle.task_machine.specs.Legal.{final, phases_of, IsLegal};
ghost use Rattle.task_local.specs.Standing.{def, packed_next, IsAtCall};
ghost use Rattle.task_machine.specs.Machine.{move};
ghost use Rattle.book_parts.specs.Ledger.{MakesMove, IsReady, IsInOperation, LeavesPending, TakesNotice, new_ledger};

mod calls;
mod leaves;
mod polls;
mod questions;
mod releases;

use book_counts::{Counts, Posted};
use book_parts::{
    binds_at, blocked_place, call_place, fresh_lists, fresh_numbers, phase_before, posting_at,
    stop, task_of,
};
use match_engine::Engine;
use region_deps::Deps;
use rt_base::{Cells, Entry, History, Listed, Phase, Phases, Program, ReqNo, Status, TaskNo};
use std::alloc::{AllocError, Global};
use std::collections::VecDeque;
use std::marker::Model;
use std::snapshot::Snapshot;
use task_local::TaskRec;
use wait_steps::{Marks, note};

/// What is left of a book: the history, and the cells and the phases of the state after it.
#[derive(Debug, Drop)]
pub struct BookEnd {
    pub history: History,
    pub cells: Cells,
    pub phases: Phases,
}

/// The machine that has a thread for each task, after the moves of its history. Contracts see the program, the history and
/// which tasks were handed out; the state is the one after that history.
#[derive(Drop)]
pub struct Book {
    program: Snapshot<Program>,
    workers: u16,
    deps: Deps,
    engine: Engine,
    memory: Vec<i64>,
    phases: Vec<Phase>,
    notices: VecDeque<ReqNo>,
    entries: Vec<Entry>,
    statuses: Vec<Status>,
    // How many tasks are not released.
    unreleased: usize,
    // For how many things each task waits before its next move.
    waits: Counts,
    // How many requests each task has posted.
    posted: Posted,
    // Which requests are bound to their tasks.
    marks: Marks,
    // How many requests each task has bound.
    bound: Counts,
    // How many of these are incomplete.
    incomplete: Counts,
    // The requests that the last move opened.
    opened: Vec<ReqNo>,
}

impl Model for Book {
    ghost use Rattle.std.specs.Prelude.{vec_capacity};
    ghost use Rattle.std.specs.VecDeque.{deque_capacity};
    ghost use Rattle.book_parts.specs.Ledger.{Ledger};
    ghost use Rattle.book_parts.specs.Kept.{IsBook};

    ghost Value = { Ledger };

    ghost view = { λ b. record {
      program = b.program.value;
      workers = b.workers;
      history = b.entries.items;
      statuses = b.statuses.items;
      handed = b.deps.handed;
    } };

    ghost invariant = { λ b. IsBook (record {
      program = b.program.value;
      workers = b.workers;
      ready = b.deps;
      engine = b.engine;
      memory = b.memory.items;
      phases = b.phases.items;
      notices = b.notices.items;
      entries = b.entries.items;
      statuses = b.statuses.items;
      unreleased = b.unreleased;
      waits = b.waits;
      posted = b.posted;
      marks = b.marks;
      bound = b.bound;
      incomplete = b.incomplete;
      opened = b.opened.items;
      entry_places = vec_capacity b.entries;
      status_places = vec_capacity b.statuses;
      notice_places = deque_capacity b.notices;
      opened_places = vec_capacity b.opened;
    }) };
}

impl Book {
    /// The book of a program in its opening state, for so many workers. Takes all memory that its moves need.
    pub fn build(alloc: Global, prog: &Program, workers: u16) -> Result<Book, AllocError>
        requires well_formed { WellFormed prog.now }
        requires workers { 1 ≤ workers }
        ensures { IfOk result (λ book. book ≡ new_ledger prog.now workers) }
    {
        let lists = fresh_lists(alloc, prog)?;
        let numbers = fresh_numbers(alloc, prog)?;
        Ok(Book {
            program: Snapshot::of(prog),
            workers,
            deps: Deps::build(alloc, prog)?,
            engine: Engine::build(alloc, prog)?,
            memory: lists.memory,
            phases: lists.phases,
            notices: lists.notices,
            entries: lists.entries,
            statuses: lists.statuses,
            unreleased: prog.tasks.len(),
            waits: numbers.waits,
            posted: numbers.posted,
            marks: numbers.marks,
            bound: numbers.bound,
            incomplete: numbers.incomplete,
            opened: lists.opened,
        })
    }

    /// Hands out a task that may start and was not handed out. None exactly where there is no such task. Takes no memory.
    pub fn ready(&mut self) -> Option<TaskNo>
        ensures startable { IfSome result (λ task. IsReady self.old task.0) }
        ensures handed { IfSome result (λ task. self.new ≡ record self.old { handed = slice_set self.old.handed task.0 true }) }
        ensures none { IfNone result ((t : ℕ) → ¬ IsReady self.old t) }
        ensures unchanged { IfNone result (self.new ≡ self.old) }
    {
        let task = self.deps.next_startable()?;
        self.waits.set(task.0, 0);
        Some(task)
    }

    /// The task starts, with a copy of its cells. Takes no memory. Its time grows with the task's accesses and cells, and with the local operations
    /// that come first.
    pub fn start(&mut self, prog: &Program, rec: &mut TaskRec)
        requires well_formed { WellFormed prog.now }
        requires same { prog.now ≡ self.old.program }
        requires stands { StandsFor prog.now rec.old (final prog.now self.old.history) }
        requires fresh { rec.old.phase ≡ phase.Waiting }
        requires enabled { MayMove prog.now (final prog.now self.old.history) rec.old.task }
        requires handed { slice_get self.old.handed rec.old.task ≡ Some true }
        ensures { MakesMove self.old self.new rec.old rec.new }
    {
        let memory = &self.memory;
        let task = rec.task();
        let def = task_of(prog, task);
        self.opened.clear();
        rec.load(prog, memory);
        rec.go(prog, phase_before(def, 0));
        self.phases[task.0 as usize] = stop(def, 0);
        note(&mut self.entries, Entry::Start { task });
    }

    /// The task calls its next operation: a posting or a wait, into which it goes where it blocks, or an `iwait` or `iwaitall`, which binds what it
    /// names and is incomplete and goes on (TAMPI, `TAMPI_Iwait`). Answers how many of its requests are incomplete then. Takes no memory. A posting is
    /// matched in constant time over all postings; the time of a call grows with the handles of its own wait or binding, with those of the wait in
    /// which the other task is, and with the local operations that come next.
    pub fn call(&mut self, prog: &Program, rec: &mut TaskRec, cells: Cells) -> u32
        requires well_formed { WellFormed prog.now }
        requires same { prog.now ≡ self.old.program }
        requires stands { StandsFor prog.now rec.old (final prog.now self.old.history) }
        requires before { IsAtCall (def rec.old) rec.old.phase }
        requires packed { cells.items ≡ packed_next (def rec.old) rec.old.phase rec.old.copy }
        ensures moves { MakesMove self.old self.new rec.old rec.new }
        ensures pending { LeavesPending (move prog.now (final prog.now self.old.history) rec.old.task).entry result }
    {
        let k = call_place(rec.at(prog));
        match posting_at(task_of(prog, rec.task()), k) {
            Some(posting) => self.post(prog, rec, k, posting, cells),
            None if binds_at(task_of(prog, rec.task()), k) => self.bind(prog, rec, k),
            None => self.wait(prog, rec, k),
        }
    }

    /// The task leaves the operation in which it waits: received cells and statuses go into its copy. Takes no memory.
    /// Its time grows with the handles of a wait, with the cells received, and with the local operations that come next.
    pub fn leave(&mut self, prog: &Program, rec: &mut TaskRec)
        requires well_formed { WellFormed prog.now }
        requires same { prog.now ≡ self.old.program }
        requires stands { StandsFor prog.now rec.old (final prog.now self.old.history) }
        requires within { IsInOperation rec.old.phase }
        requires enabled { MayMove prog.now (final prog.now self.old.history) rec.old.task }
        ensures { MakesMove self.old self.new rec.old rec.new }
    {
        let k = blocked_place(rec.at(prog));
        match posting_at(task_of(prog, rec.task()), k) {
            Some(posting) => self.leave_posting(prog, rec, k, posting),
            None => self.leave_wait(prog, rec, k),
        }
    }

    /// The history, with the cells and the phases of the state after it. Takes no memory.
    pub fn into_end(self) -> BookEnd
        ensures history { result.history.entries.items ≡ self.history }
        ensures statuses { result.history.statuses.items ≡ self.statuses }
        ensures legal { IsLegal self.program self.workers self.history self.statuses }
        ensures cells { result.cells.items ≡ (final self.program self.history).memory }
        ensures phases { result.phases.items ≡ phases_of (final self.program self.history).tasks }
    {
        let Book {
            program: _,
            workers: _,
            deps: _,
            engine: _,
            memory,
            phases,
            notices: _,
            entries,
            statuses,
            unreleased: _,
            waits: _,
            posted: _,
            marks: _,
            bound: _,
            incomplete: _,
            opened: _,
        } = self;
        BookEnd {
            history: History {
                entries: Listed::from_vec(entries),
                statuses: Listed::from_vec(statuses),
            },
            cells: Listed::from_vec(memory),
            phases: Listed::from_vec(phases),
        }
    }
}
