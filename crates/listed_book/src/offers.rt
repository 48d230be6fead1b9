//! The offer of a task that may start.

ghost use Rattle.std.specs.Prelude.{◌≡◌, slice_get, slice_set, Some, None, IfSome, IfNone};
ghost use Rattle.pass_table.specs.Passes.{PassIs};
ghost use Rattle.shared_lists.specs.Sound.{IsPoller};
ghost use Rattle.shared_lists.specs.Said.{NoneLeft};
ghost use Rattle.listed_book.specs.Listed.{LooksAt};
ghost use Rattle.listed_book.specs.Replies.{OffersTask};

use crate::listed::ListedBook;
use crate::replies::Offered;
use pass_table::{Pass, PassTable};
use rt_base::TaskNo;

// The pass that lies there for the task.
fn take_pass(passes: &mut Vec<Option<Pass>>, task: TaskNo) -> Pass
    requires there { (pass : PassIs) × (slice_get passes.old.items task.0 ≡ Some (Some pass)) }
    ensures pass { slice_get passes.old.items task.0 ≡ Some (Some result) }
    ensures passes { passes.new.items ≡ slice_set passes.old.items task.0 None }
{
    let lying = passes[task.0 as usize].take();
    let Some(pass) = lying else { unreachable!() };
    pass
}

impl ListedBook {
    /// A poller offers a task that may start and was not offered, and gets its pass. None exactly where each task that may start was offered: the call is
    /// then a look. Takes no memory, and constant time beside that of `Book::ready`.
    pub fn fresh(&mut self, table: &PassTable, pass: Pass) -> (Pass, Option<Offered>)
        requires table { table.now ≡ self.old.table }
        requires pass { pass.table ≡ self.old.table }
        requires poller { IsPoller self.old.program self.old.workers pass.caller }
        ensures offers { IfSome result.1 (λ offered. OffersTask self.old self.new pass result.0 offered) }
        ensures looks { IfNone result.1 (LooksAt self.old self.new pass result.0) }
        ensures none { IfNone result.1 (NoneLeft self.old.program result.0.seen) }
    {
        match self.book.ready() {
            Some(task) => {
                let pass = self.pen.append(table, pass, task.0 + 1);
                let lying = take_pass(&mut self.passes, task);
                let own = self.pen.catch_up(table, lying);
                (pass, Some(Offered { task, pass: own }))
            }
            None => (self.look(table, pass), None),
        }
    }
}
