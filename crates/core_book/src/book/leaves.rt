//! The ends of operations that block: of a posting, and of a wait.

ghost use Rattle.std.specs.Prelude.{◌≡◌, false, slice_get};
ghost use Rattle.rt_base.specs.declared.data.Phase.TheVariants as phase;
ghost use Rattle.rt_base.specs.WellFormed.{WellFormed};
ghost use Rattle.rt_base.specs.MayMove.{MayMove};
ghost use Rattle.task_local.specs.StandsFor.{StandsFor};
ghost use Rattle.task_local.specs.Standing.{def};
ghost use Rattle.task_machine.specs.Legal.{final};
ghost use Rattle.book_parts.specs.Ledger.{MakesMove};
ghost use Rattle.book_parts.specs.Kept.{PostsAs, is_posting_at};

use crate::book::Book;
use book_parts::{
    Posting, count_of, handles_at, phase_before, status_at, statuses_from, stop, task_of,
    tell_status,
};
use rt_base::{Entry, Program, ReqNo};
use task_local::TaskRec;
use wait_steps::{note, store_received, store_statuses, tell_each};

impl Book {
    // The task leaves the posting in which it waits: received cells and the status go into its copy.
    pub(super) fn leave_posting(
        &mut self,
        prog: &Program,
        rec: &mut TaskRec,
        k: u32,
        posting: Posting,
    )
        requires well_formed { WellFormed prog.now }
        requires same { prog.now ≡ self.old.program }
        requires stands { StandsFor prog.now rec.old (final prog.now self.old.history) }
        requires within { rec.old.phase ≡ phase.In k }
        requires posts { PostsAs (slice_get (def rec.old).body.items k) posting }
        requires enabled { MayMove prog.now (final prog.now self.old.history) rec.old.task }
        ensures { MakesMove self.old self.new rec.old rec.new }
    {
        let phases = &mut self.phases;
        let task = rec.task();
        let def = task_of(prog, task);
        let req = ReqNo {
            task,
            nth: self.posted.last(task),
        };
        self.opened.clear();
        rec.store(prog, posting.span, self.engine.cells(req));
        let from = count_of(&self.statuses);
        let count = tell_status(&mut self.statuses, &self.engine, prog, req, posting.how);
        store_statuses(
            rec,
            prog,
            posting.status,
            statuses_from(&self.statuses, from),
        );
        phases[task.0 as usize] = stop(def, k + 1);
        rec.go(prog, phase_before(def, k + 1));
        note(
            &mut self.entries,
            Entry::Leave {
                task,
                op: k,
                from,
                count,
            },
        );
    }

    // The task leaves the wait in which it is: what its requests received goes into its copy, and then their statuses.
    pub(super) fn leave_wait(&mut self, prog: &Program, rec: &mut TaskRec, k: u32)
        requires well_formed { WellFormed prog.now }
        requires same { prog.now ≡ self.old.program }
        requires stands { StandsFor prog.now rec.old (final prog.now self.old.history) }
        requires within { rec.old.phase ≡ phase.In k }
        requires other { is_posting_at (slice_get (def rec.old).body.items k) ≡ false }
        requires enabled { MayMove prog.now (final prog.now self.old.history) rec.old.task }
        ensures { MakesMove self.old self.new rec.old rec.new }
    {
        let phases = &mut self.phases;
        let task = rec.task();
        let def = task_of(prog, task);
        let handles = handles_at(def, k);
        self.opened.clear();
        store_received(rec, prog, &self.engine, handles);
        let from = count_of(&self.statuses);
        tell_each(&mut self.statuses, &self.engine, prog, task, handles);
        store_statuses(
            rec,
            prog,
            status_at(def, k),
            statuses_from(&self.statuses, from),
        );
        phases[task.0 as usize] = stop(def, k + 1);
        rec.go(prog, phase_before(def, k + 1));
        note(
            &mut self.entries,
            Entry::Leave {
                task,
                op: k,
                from,
                count: handles.len() as u32,
            },
        );
    }
}
