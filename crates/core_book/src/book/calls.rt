//! Calls: a posting, a wait, and a binding.

ghost use Rattle.std.specs.Prelude.{◌≡◌, length, slice_get};
ghost use Rattle.rt_base.specs.declared.data.Phase.TheVariants as phase;
ghost use Rattle.rt_base.specs.WellFormed.{WellFormed, region_cells};
ghost use Rattle.task_local.specs.StandsFor.{StandsFor};
ghost use Rattle.task_local.specs.Standing.{def, packed_next};
ghost use Rattle.task_machine.specs.Machine.{move};
ghost use Rattle.task_machine.specs.Legal.{final};
ghost use Rattle.book_parts.specs.Ledger.{MakesMove, LeavesPending};
ghost use Rattle.book_parts.specs.Kept.{PostsAs, IsWait, IsBind};

use crate::book::Book;
use book_counts::{lower_bound, lower_waited, tell, who_is_told};
use book_parts::{
    Posting, handles_at, note_some, pending, phase_after, phase_before, place_after, post, stop,
    task_of, waits_after,
};
use rt_base::{Cells, Entry, Phase, Program, ReqNo};
use task_local::TaskRec;
use wait_steps::{bind_all, note, note_open, open_among};

impl Book {
    // The task posts the request of operation k, and goes into it where it blocks; answers how many of its requests are incomplete then.
    pub(super) fn post(
        &mut self,
        prog: &Program,
        rec: &mut TaskRec,
        k: u32,
        posting: Posting,
        cells: Cells,
    ) -> u32
        requires well_formed { WellFormed prog.now }
        requires same { prog.now ≡ self.old.program }
        requires stands { StandsFor prog.now rec.old (final prog.now self.old.history) }
        requires at { rec.old.phase ≡ phase.At k }
        requires cells { length rec.old.copy ≡ region_cells (def rec.old) }
        requires posts { PostsAs (slice_get (def rec.old).body.items k) posting }
        requires packed { cells.items ≡ packed_next (def rec.old) rec.old.phase rec.old.copy }
        ensures moves { MakesMove self.old self.new rec.old rec.new }
        ensures pending { LeavesPending (move prog.now (final prog.now self.old.history) rec.old.task).entry result }
    {
        let phases = &mut self.phases;
        let task = rec.task();
        let def = task_of(prog, task);
        let req = ReqNo {
            task,
            nth: self.posted.next(task),
        };
        let partner = post(&mut self.engine, prog, req, posting.how, cells);
        let told = who_is_told(
            &self.engine,
            prog,
            phases,
            &self.posted,
            &self.marks,
            partner,
        );
        tell(&mut self.notices, told);
        lower_bound(&mut self.incomplete, told);
        lower_waited(&mut self.waits, told);
        self.posted.add(task);
        phases[task.0 as usize] = phase_after(def, k, posting.how);
        rec.go(prog, place_after(def, k, posting.how));
        let pending = pending(&self.engine, req);
        let awaited = waits_after(posting.how, pending);
        self.waits.set(task.0, awaited);
        self.opened.clear();
        note_some(&mut self.opened, req, awaited);
        note(
            &mut self.entries,
            Entry::Call {
                task,
                op: k,
                pending,
            },
        );
        pending
    }

    // The task goes into the wait that is operation k; answers how many of the requests that it names are incomplete.
    pub(super) fn wait(&mut self, prog: &Program, rec: &mut TaskRec, k: u32) -> u32
        requires well_formed { WellFormed prog.now }
        requires same { prog.now ≡ self.old.program }
        requires stands { StandsFor prog.now rec.old (final prog.now self.old.history) }
        requires at { rec.old.phase ≡ phase.At k }
        requires waits { IsWait (slice_get (def rec.old).body.items k) }
        ensures moves { MakesMove self.old self.new rec.old rec.new }
        ensures pending { LeavesPending (move prog.now (final prog.now self.old.history) rec.old.task).entry result }
    {
        let task = rec.task();
        let handles = handles_at(task_of(prog, task), k);
        self.opened.clear();
        note_open(&mut self.opened, &self.engine, task, handles);
        let pending = open_among(&self.engine, task, handles);
        self.phases[task.0 as usize] = Phase::In(k);
        rec.go(prog, Phase::In(k));
        self.waits.set(task.0, pending);
        note(
            &mut self.entries,
            Entry::Call {
                task,
                op: k,
                pending,
            },
        );
        pending
    }

    // The task binds what operation k names and is incomplete, and goes on; answers how many requests that are.
    pub(super) fn bind(&mut self, prog: &Program, rec: &mut TaskRec, k: u32) -> u32
        requires well_formed { WellFormed prog.now }
        requires same { prog.now ≡ self.old.program }
        requires stands { StandsFor prog.now rec.old (final prog.now self.old.history) }
        requires at { rec.old.phase ≡ phase.At k }
        requires binds { IsBind (slice_get (def rec.old).body.items k) }
        ensures moves { MakesMove self.old self.new rec.old rec.new }
        ensures pending { LeavesPending (move prog.now (final prog.now self.old.history) rec.old.task).entry result }
    {
        let task = rec.task();
        let def = task_of(prog, task);
        let handles = handles_at(def, k);
        self.opened.clear();
        let pending = bind_all(
            &mut self.marks,
            &mut self.opened,
            &self.engine,
            task,
            handles,
        );
        self.bound.raise(task.0, pending);
        self.incomplete.raise(task.0, pending);
        self.phases[task.0 as usize] = stop(def, k + 1);
        rec.go(prog, phase_before(def, k + 1));
        note(
            &mut self.entries,
            Entry::Call {
                task,
                op: k,
                pending,
            },
        );
        pending
    }
}
