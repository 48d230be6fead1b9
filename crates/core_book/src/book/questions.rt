//! What a book answers: which tasks may move, whether none may, what the last move opened, and what is bound.

ghost use Rattle.std.specs.Prelude.{◌≡◌, ◌<◌, ◌↔◌, IsTrue, length, slice_get};
ghost use Rattle.rt_base.specs.WellFormed.{WellFormed};
ghost use Rattle.rt_base.specs.MayMove.{MayMove};
ghost use Rattle.task_machine.specs.Legal.{final, IsQuiet, IsFinished};
ghost use Rattle.task_machine.specs.Owed.{last_opened};
ghost use Rattle.book_parts.specs.Ledger.{bound_in};

use crate::book::Book;
use book_parts::is_waiting;
use rt_base::{Program, ReqNo, TaskNo};

impl Book {
    /// Whether the program has the task and it may make its next move. Takes no memory, and constant time.
    pub fn can_move(&self, prog: &Program, task: TaskNo) -> bool
        requires well_formed { WellFormed prog.now }
        requires same { prog.now ≡ self.now.program }
        ensures { IsTrue result ↔ MayMove prog.now (final prog.now self.now.history) task.0 }
    {
        if task.0 as usize >= self.phases.len() {
            return false;
        }
        if is_waiting(self.phases[task.0 as usize]) {
            self.deps.may_start(task)
        } else {
            self.waits.at(task.0) == 0
        }
    }

    /// Whether no task may move. Takes no memory, and constant time.
    pub fn quiet(&self, prog: &Program) -> bool
        requires well_formed { WellFormed prog.now }
        requires same { prog.now ≡ self.now.program }
        ensures { IsTrue result ↔ IsQuiet prog.now (final prog.now self.now.history) }
    {
        self.waits.none_zero() && self.deps.none_startable()
    }

    /// Whether all tasks are released. Takes no memory, and constant time.
    pub fn finished(&self) -> bool
        ensures { IsTrue result ↔ IsFinished (final self.now.program self.now.history) }
    {
        self.unreleased == 0
    }

    /// Whether a notice of a completion stands. Takes no memory, and constant time.
    pub fn has_notice(&self) -> bool
        ensures { IsTrue result ↔ (0 < length (final self.now.program self.now.history).notices) }
    {
        !self.notices.is_empty()
    }

    /// How many requests the task has bound so far, complete or not; 0 for a task that the program lacks. Takes no memory, and constant time.
    pub fn bound(&self, task: TaskNo) -> u32
        ensures { result ≡ length (bound_in (final self.now.program self.now.history) task.0) }
    {
        if task.0 as usize >= self.phases.len() {
            return 0;
        }
        self.bound.at(task.0)
    }

    /// The requests that the last move opened, by place: incomplete after it, and awaited by its task, or bound to it, from then on. None behind the
    /// last of them, and before the first move. Takes constant time.
    pub fn open_request(&self, i: u32) -> Option<ReqNo>
        ensures { result ≡ slice_get (last_opened self.now.program self.now.history) i }
    {
        self.opened.get(i as usize).copied()
    }
}
