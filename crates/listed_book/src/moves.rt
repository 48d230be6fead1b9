//! The moves of tasks.

ghost use Rattle.std.specs.Prelude.{◌≡◌};
ghost use Rattle.rt_base.specs.declared.data.Phase.TheVariants as phase;
ghost use Rattle.rt_base.specs.MayMove.{MayMove};
ghost use Rattle.task_local.specs.Standing.{def, packed_next, IsAtCall};
ghost use Rattle.task_machine.specs.Machine.{move};
ghost use Rattle.book_parts.specs.Ledger.{IsInOperation, LeavesPending};
ghost use Rattle.shared_lists.specs.Deeds.{state_seen};
ghost use Rattle.shared_lists.specs.Said.{IsFreshTask, IsLiveTask};
ghost use Rattle.listed_book.specs.Listed.{MovesTask, state_in};

use crate::listed::ListedBook;
use pass_table::{Pass, PassTable};
use rt_base::{Cells, Program};
use task_local::TaskRec;

impl ListedBook {
    /// The task that was offered starts, with a copy of its cells. Takes no memory. Its time is that of the book's move.
    pub fn start(
        &mut self,
        table: &PassTable,
        prog: &Program,
        pass: Pass,
        rec: &mut TaskRec,
    ) -> Pass
        requires same { prog.now ≡ self.old.program }
        requires table { table.now ≡ self.old.table }
        requires fresh { IsFreshTask self.old.program self.old.workers self.old.table rec.old.task pass }
        requires made { rec.old.program ≡ self.old.program }
        requires waits { rec.old.phase ≡ phase.Waiting }
        ensures { MovesTask self.old self.new pass result rec.old rec.new }
    {
        let pass = self.pen.catch_up(table, pass);
        self.book.start(prog, rec);
        self.pen.append(table, pass, 0)
    }

    /// The task calls its next operation, a posting or a wait, and goes into it where it blocks; answers how many of its requests are incomplete
    /// then. Takes no memory. Its time is that of the book's move.
    pub fn call(
        &mut self,
        table: &PassTable,
        prog: &Program,
        pass: Pass,
        rec: &mut TaskRec,
        cells: Cells,
    ) -> (Pass, u32)
        requires same { prog.now ≡ self.old.program }
        requires table { table.now ≡ self.old.table }
        requires live { IsLiveTask self.old.program self.old.workers self.old.table rec.old pass }
        requires enabled { MayMove self.old.program (state_seen self.old.program pass.seen) rec.old.task }
        requires before { IsAtCall (def rec.old) rec.old.phase }
        requires packed { cells.items ≡ packed_next (def rec.old) rec.old.phase rec.old.copy }
        ensures moves { MovesTask self.old self.new pass result.0 rec.old rec.new }
        ensures pending { LeavesPending (move self.old.program (state_in self.old) rec.old.task).entry result.1 }
    {
        let pass = self.pen.catch_up(table, pass);
        let pending = self.book.call(prog, rec, cells);
        (self.pen.append(table, pass, 0), pending)
    }

    /// The task leaves the operation in which it waits: received cells and statuses go into its copy. Takes no memory. Its time is that of the book's
    /// move.
    pub fn leave(
        &mut self,
        table: &PassTable,
        prog: &Program,
        pass: Pass,
        rec: &mut TaskRec,
    ) -> Pass
        requires same { prog.now ≡ self.old.program }
        requires table { table.now ≡ self.old.table }
        requires live { IsLiveTask self.old.program self.old.workers self.old.table rec.old pass }
        requires enabled { MayMove self.old.program (state_seen self.old.program pass.seen) rec.old.task }
        requires within { IsInOperation rec.old.phase }
        ensures { MovesTask self.old self.new pass result rec.old rec.new }
    {
        let pass = self.pen.catch_up(table, pass);
        self.book.leave(prog, rec);
        self.pen.append(table, pass, 0)
    }

    /// The task returns: its body has ended. Takes no memory, and constant time.
    pub fn ret(&mut self, table: &PassTable, prog: &Program, pass: Pass, rec: &mut TaskRec) -> Pass
        requires same { prog.now ≡ self.old.program }
        requires table { table.now ≡ self.old.table }
        requires live { IsLiveTask self.old.program self.old.workers self.old.table rec.old pass }
        requires enabled { MayMove self.old.program (state_seen self.old.program pass.seen) rec.old.task }
        requires ended { rec.old.phase ≡ phase.Ended }
        ensures { MovesTask self.old self.new pass result rec.old rec.new }
    {
        let pass = self.pen.catch_up(table, pass);
        self.book.ret(prog, rec);
        self.pen.append(table, pass, 0)
    }

    /// The task lets go of its accesses. Takes no memory. Its time is that of the book's move.
    pub fn release(
        &mut self,
        table: &PassTable,
        prog: &Program,
        pass: Pass,
        rec: &mut TaskRec,
    ) -> Pass
        requires same { prog.now ≡ self.old.program }
        requires table { table.now ≡ self.old.table }
        requires live { IsLiveTask self.old.program self.old.workers self.old.table rec.old pass }
        requires enabled { MayMove self.old.program (state_seen self.old.program pass.seen) rec.old.task }
        requires returned { rec.old.phase ≡ phase.Returned }
        ensures { MovesTask self.old self.new pass result rec.old rec.new }
    {
        let pass = self.pen.catch_up(table, pass);
        self.book.release(prog, rec);
        self.pen.append(table, pass, 0)
    }
}
