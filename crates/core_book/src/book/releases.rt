//! The end of a task: its return, and its release.

ghost use Rattle.std.specs.Prelude.{◌≡◌};
ghost use Rattle.rt_base.specs.declared.data.Phase.TheVariants as phase;
ghost use Rattle.rt_base.specs.WellFormed.{WellFormed};
ghost use Rattle.rt_base.specs.MayMove.{MayMove};
ghost use Rattle.task_local.specs.StandsFor.{StandsFor};
ghost use Rattle.task_machine.specs.Legal.{final};
ghost use Rattle.book_parts.specs.Ledger.{MakesMove};

use crate::book::Book;
use book_parts::{count_of, task_of};
use rt_base::{Entry, Phase, Program};
use task_local::TaskRec;
use wait_steps::{note, take_bound};

impl Book {
    /// The task returns: its body has ended. Takes no memory.
    pub fn ret(&mut self, prog: &Program, rec: &mut TaskRec)
        requires well_formed { WellFormed prog.now }
        requires same { prog.now ≡ self.old.program }
        requires stands { StandsFor prog.now rec.old (final prog.now self.old.history) }
        requires ended { rec.old.phase ≡ phase.Ended }
        ensures { MakesMove self.old self.new rec.old rec.new }
    {
        let phases = &mut self.phases;
        let task = rec.task();
        self.opened.clear();
        let open = self.incomplete.at(task.0);
        self.waits.set(task.0, open);
        phases[task.0 as usize] = Phase::Returned;
        rec.go(prog, Phase::Returned);
        note(&mut self.entries, Entry::Return { task });
    }

    /// The task lets go of its accesses: what its bound requests received and their statuses are stored, its written cells are put back, and the
    /// tasks that waited for it may start. Takes no memory. Its time grows with the operations of its body, with the cells that its bound requests
    /// received, with its accesses and cells, with the links of its accesses, and with those of its group where it is the last of that.
    pub fn release(&mut self, prog: &Program, rec: &mut TaskRec)
        requires well_formed { WellFormed prog.now }
        requires same { prog.now ≡ self.old.program }
        requires stands { StandsFor prog.now rec.old (final prog.now self.old.history) }
        requires returned { rec.old.phase ≡ phase.Returned }
        requires enabled { MayMove prog.now (final prog.now self.old.history) rec.old.task }
        ensures { MakesMove self.old self.new rec.old rec.new }
    {
        let memory = &mut self.memory;
        let task = rec.task();
        self.opened.clear();
        let from = count_of(&self.statuses);
        take_bound(
            rec,
            &mut self.statuses,
            prog,
            &self.engine,
            task_of(prog, task),
        );
        let count = count_of(&self.statuses) - from;
        rec.save(prog, memory);
        rec.go(prog, Phase::Released);
        self.phases[task.0 as usize] = Phase::Released;
        self.unreleased -= 1;
        self.waits.set(task.0, 1);
        self.deps.release(task);
        note(&mut self.entries, Entry::Release { task, from, count });
    }
}
