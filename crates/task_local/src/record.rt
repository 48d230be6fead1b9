//! The record of a task.

ghost use Rattle.std.specs.Prelude.{◌≡◌, ◌≤◌, ◌<◌, length, IfOk};
ghost use Rattle.rt_base.specs.declared.data.Phase.TheVariants as phase;
ghost use Rattle.rt_base.specs.Spans.{span_len};
ghost use Rattle.rt_base.specs.Layout.{memory_len};
ghost use Rattle.rt_base.specs.WellFormed.{WellFormed, IsDeclared, region_cells};
ghost use Rattle.task_local.specs.Regions.{put, loaded, saved};
ghost use Rattle.task_local.specs.Standing.{def, at_phase, moved_on, packed_next, GoesTo, IsAtCall};

use crate::compute::{longest_scratch, run_from, sent_cells};
use crate::index::{RegionIndex, put_cells};
use crate::memory::{load_regions, save_regions};
use crate::standing::{At, at_phase_of, operation, task_def};
use rt_base::{Cells, Phase, Program, Span, TaskNo};
use std::alloc::{AllocError, Global};
use std::marker::Model;
use std::snapshot::Snapshot;

/// The record of a task of a program: its own copy of the cells that it declares, and where it stands.
#[derive(Drop)]
pub struct TaskRec {
    program: Snapshot<Program>,
    task: TaskNo,
    phase: Phase,
    regions: RegionIndex,
    copy: Vec<i64>,
    scratch: Vec<i64>,
}

impl Model for TaskRec {
    ghost use Rattle.task_local.specs.StandsFor.{Record};
    ghost use Rattle.task_local.specs.Kept.{KeepsCopy};

    ghost Value = { Record };

    ghost view = { λ held. record { program = held.program.value; task = held.task.0; phase = held.phase; copy = held.copy.items } };

    ghost invariant = { λ held. KeepsCopy held.program.value held.task.0 held.phase held.regions held.copy.items held.scratch.items };
}

impl TaskRec {
    /// The record of a task that was not started. Takes all memory that the task's body needs. Time grows with the task's
    /// cells, and with its accesses and operations, times the logarithm of how many accesses it has.
    pub fn make(alloc: Global, prog: &Program, task: TaskNo) -> Result<TaskRec, AllocError>
        requires well_formed { WellFormed prog.now }
        requires task { task.0 < length prog.now.tasks.items }
        ensures program { IfOk result (λ held. held.program ≡ prog.now) }
        ensures task { IfOk result (λ held. held.task ≡ task.0) }
        ensures phase { IfOk result (λ held. held.phase ≡ phase.Waiting) }
    {
        let def = task_def(prog, task);
        let regions = RegionIndex::make(alloc, def.accesses.as_slice())?;
        let copy = vec![in alloc; 0; regions.cell_total()]?;
        let scratch = vec![in alloc; 0; longest_scratch(&regions, def.body.as_slice())]?;
        Ok(TaskRec {
            program: Snapshot::of(prog),
            task,
            phase: Phase::Waiting,
            regions,
            copy,
            scratch,
        })
    }

    /// The task.
    pub fn task(&self) -> TaskNo
        ensures { result.0 ≡ self.now.task }
    {
        self.task
    }

    /// How the task stands.
    pub fn at(&self, prog: &Program) -> At
        requires same { prog.now ≡ self.now.program }
        ensures at { result ≡ at_phase (def self.now) self.now.phase }

        // The copy has as many cells as the task declares.
        ensures cells { length self.now.copy ≡ region_cells (def self.now) }
    {
        at_phase_of(task_def(prog, self.task), self.phase)
    }

    /// Runs the local operations that come next, up to the first other operation or the end of the body. Time grows with the
    /// cells that they read and write, and for each operation with the logarithm of how many accesses the task has.
    pub fn run_local(&mut self, prog: &Program)
        requires well_formed { WellFormed prog.now }
        requires same { prog.now ≡ self.old.program }
        ensures { self.new ≡ moved_on (def self.old) self.old.phase self.old }
    {
        let def = task_def(prog, self.task);
        match self.phase {
            Phase::Waiting => {}
            Phase::At(k) => self.phase = run_from(
                def,
                &self.regions,
                &mut self.copy,
                &mut self.scratch,
                k,
            ),
            Phase::In(_) => {}
            Phase::Ended => {}
            Phase::Returned => {}
            Phase::Released => {}
        }
    }

    /// Copies the task's cells in from the cells of all arrays of all ranks. Time grows with the cells and the accesses of the
    /// task: where each array begins is read off the program's table.
    pub fn load(&mut self, prog: &Program, memory: &[i64])
        requires well_formed { WellFormed prog.now }
        requires same { prog.now ≡ self.old.program }
        requires memory { length memory.now ≡ memory_len prog.now }
        ensures { self.new ≡ record self.old { copy = loaded prog.now (def self.old) memory.now } }
    {
        let def = task_def(prog, self.task);
        load_regions(
            prog,
            def.rank,
            self.regions.as_slice(),
            memory,
            &mut self.copy,
        );
    }

    /// Puts the task's `out` and `inout` cells back into the cells of all arrays of all ranks. Time grows with those cells and
    /// the accesses of the task.
    pub fn save(&self, prog: &Program, memory: &mut [i64])
        requires well_formed { WellFormed prog.now }
        requires same { prog.now ≡ self.now.program }
        requires memory { length memory.old ≡ memory_len prog.now }
        ensures { memory.new ≡ saved prog.now (def self.now) self.now.copy memory.old }
    {
        let def = task_def(prog, self.task);
        save_regions(prog, def.rank, self.regions.as_slice(), &self.copy, memory);
    }

    /// Sets where the task stands, to a phase that a call or a return may bring about.
    pub fn go(&mut self, prog: &Program, phase: Phase)
        requires same { prog.now ≡ self.old.program }
        requires goes_to { GoesTo (def self.old) self.old.phase phase }
        ensures { self.new ≡ record self.old { phase = phase } }
    {
        let _ = prog;
        self.phase = phase;
    }

    /// Stores cells at the front of a span of the task's cells. Time grows with the cells that are stored, and with the
    /// logarithm of how many accesses the task has.
    pub fn store(&mut self, prog: &Program, span: Span, cells: &[i64])
        requires well_formed { WellFormed prog.now }
        requires same { prog.now ≡ self.old.program }
        requires declared { IsDeclared (def self.old).accesses.items span }
        requires fits { length cells.now ≤ span_len span }
        ensures { self.new ≡ record self.old { copy = put (def self.old) span cells.now self.old.copy } }
    {
        let _ = prog;
        put_cells(&self.regions, &mut self.copy, span, cells);
    }

    /// The cells that the call that is next sends, none where it is no send. Takes memory for them. Time grows with them, and
    /// with the logarithm of how many accesses the task has.
    pub fn pack(&self, alloc: Global, prog: &Program) -> Result<Cells, AllocError>
        requires well_formed { WellFormed prog.now }
        requires same { prog.now ≡ self.now.program }
        requires at_call { IsAtCall (def self.now) self.now.phase }
        ensures { IfOk result (λ cells. cells.items ≡ packed_next (def self.now) self.now.phase self.now.copy) }
    {
        let def = task_def(prog, self.task);
        match self.phase {
            Phase::At(k) => listed(
                alloc,
                sent_cells(&self.regions, &self.copy, operation(def, k)),
            ),
            Phase::Waiting | Phase::In(_) | Phase::Ended | Phase::Returned | Phase::Released => Ok(
                Cells::empty(alloc),
            ),
        }
    }
}

// These cells as an owned list.
fn listed(alloc: Global, cells: &[i64]) -> Result<Cells, AllocError>
    ensures { IfOk result (λ found. found.items ≡ cells.now) }
{
    Ok(Cells::from_vec(cells.to_vec(alloc)?))
}
