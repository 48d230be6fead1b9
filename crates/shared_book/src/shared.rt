//! The book that all workers share.

ghost use Rattle.std.specs.Prelude.{◌≡◌, ◌+◌, ◌<◌, [], length, map, slice_get, Some, IfSome, IfNone};
ghost use mathlib.Core.List.{IsPrefix};
ghost use Rattle.rt_base.specs.declared.data.Phase.TheVariants as phase;
ghost use Rattle.rt_base.specs.MayMove.{MayMove};
ghost use Rattle.task_local.specs.StandsFor.{Record};
ghost use Rattle.task_local.specs.Standing.{def, packed_next, IsAtCall};
ghost use Rattle.task_machine.specs.Legal.{callers, final, phases_of, IsLegal, IsQuiet};
ghost use Rattle.book_parts.specs.Ledger.{IsInOperation};
ghost use Rattle.pass_table.specs.Passes.{new_pass};
ghost use Rattle.meet_hall.specs.Holders.{desk, first_desks};
ghost use Rattle.shared_lists.specs.Deeds.{moves, state_seen};
ghost use Rattle.shared_lists.specs.Sound.{IsPoller};
ghost use Rattle.shared_lists.specs.Said.{Looks, Stops, NoneLeft};
ghost use Rattle.listed_book.specs.Replies.{IsIdle};
ghost use Rattle.shared_tasks.specs.Keeping.{IsAble};
ghost use Rattle.shared_book.specs.Answers.{MovesOn, Calls, IsReturned, GoesOn, Takes, Offers};
ghost use Rattle.shared_book.specs.Parts.{meeting_places};

use crate::moved::Moved;
use crate::pairs::paired;
use crate::parts::Parts;
use crate::section::Section;
use core_book::BookEnd;
use crossbeam_utils::CachePadded;
use listed_book::Idle;
use meet_hall::{Hall, Holder};
use pass_table::{Note, Pass, PassTable};
use rt_base::{Cells, Program};
use shared_tasks::{Arrival, Fresh, Live, Notice, Parked, Run, Site};
use std::marker::{Model, PhantomData};
use std::sync::{Mutex, Wait};
use task_local::TaskRec;

/// The book of the machine under one lock, with the tickets of open requests and the holders of tasks that were not offered. Each call takes the lock
/// once, for one step of the book and one pair of its list, and takes no memory. Kernels, packing and parking are outside.
#[derive(Drop)]
pub struct SharedBook<K: Run, H: Site> {
    table: PassTable,
    section: CachePadded<Mutex<Section<K, H>>>,
}

impl<K: Run, H: Site> Model for SharedBook<K, H> {
    ghost use Rattle.std.specs.Prelude.{◌≡◌};
    ghost use Rattle.pass_table.specs.Passes.{TableId};

    ghost Value = { TableId };

    ghost view = { λ b. b.table };

    ghost invariant = { λ b. b.table ≡ K.passes };
}

impl<K: Run, H: Site> SharedBook<K, H> {
    /// The shared book of these parts and of the new holders of a hall of their places, and the passes of the pollers in order.
    pub fn open(parts: Parts, holders: Vec<Holder>) -> (SharedBook<K, H>, Vec<Pass>)
        requires program { parts.program ≡ K.program }
        requires workers { parts.workers ≡ K.workers }
        requires table { parts.table ≡ K.passes }
        requires holders { map desk holders.items ≡ first_desks H.hall (meeting_places K.program.tasks.items) (length (meeting_places K.program.tasks.items)) }
        ensures pollers { length result.1.items ≡ K.workers }
        ensures passes { (w : _) → w < K.workers → slice_get result.1.items w ≡ Some (new_pass K.passes (length K.program.tasks.items + w)) }
    {
        let Parts {
            table,
            book,
            tickets,
            pollers,
            room,
            places: _,
        } = parts;
        let (pairs, spare) = paired(room, holders);
        let section = Section {
            book,
            tickets,
            pairs,
            spare,
            of: PhantomData,
        };
        let shared = SharedBook {
            table,
            section: CachePadded::new(Mutex::new(section)),
        };
        (shared, pollers)
    }

    /// The table of the book's passes.
    pub fn table(&self) -> &PassTable
        ensures { result.now ≡ K.passes }
    {
        &self.table
    }

    /// A poller offers a task that may start and was not offered: the offer stands last in the list that the poller's pass and the task's pass have seen.
    /// None exactly where, at its step, each task that may start had been offered; it is then a look.
    pub fn fresh<R: Wait>(&self, rt: &R, prog: &Program, pass: Pass) -> (Pass, Option<Fresh<K, H>>)
        requires same { prog.now ≡ K.program }
        requires pass { pass.table ≡ K.passes }
        requires poller { IsPoller K.program K.workers pass.caller }
        ensures offers { IfSome result.1 (Offers K.program K.workers pass result.0) }
        ensures looks { IfNone result.1 (Looks K.program K.workers pass result.0) }
        ensures none { IfNone result.1 (NoneLeft K.program result.0.seen) }
    {
        let _ = prog;
        let mut section = self.section.lock(rt);
        section.fresh(&self.table, pass)
    }

    /// The task starts, with a copy of its cells in its fresh record. It may make its next move.
    pub fn start<R: Wait>(
        &self,
        rt: &R,
        prog: &Program,
        fresh: Fresh<K, H>,
        rec: TaskRec,
    ) -> Live<K, H>
        requires same { prog.now ≡ K.program }
        requires made { rec.program ≡ K.program }
        requires its { rec.task ≡ fresh.task }
        requires waits { rec.phase ≡ phase.Waiting }
        ensures moves { MovesOn K.program K.workers fresh.pass result.pass rec result.rec }
        ensures able { IsAble K.program result }
    {
        let mut section = self.section.lock(rt);
        section.start(&self.table, prog, fresh, rec)
    }

    /// The task calls its next operation with the cells that it packed. A ticket is issued for each request that this opens: at the pause meeting where the
    /// task awaits it in the operation, and else at the event meeting. `Pending(Door::Pause)` exactly where the call blocks and leaves requests incomplete;
    /// the task may then park at its pause meeting, and else make its next move.
    pub fn call<R: Wait>(
        &self,
        rt: &R,
        prog: &Program,
        hall: &Hall<Parked<K>, Arrival<K>>,
        live: Live<K, H>,
        cells: Cells,
    ) -> (Live<K, H>, Moved)
        requires same { prog.now ≡ K.program }
        requires hall { hall.now ≡ H.hall }
        requires enabled { MayMove K.program (state_seen K.program live.pass.seen) live.rec.task }
        requires before { IsAtCall (def live.rec) live.rec.phase }
        requires packed { cells.items ≡ packed_next (def live.rec) live.rec.phase live.rec.copy }
        ensures calls { Calls K.program K.workers live result.0 result.1 }
        ensures goes { GoesOn K.program result.0 result.1 }
    {
        let mut section = self.section.lock(rt);
        section.call(&self.table, prog, hall, live, cells)
    }

    /// The task leaves the operation in which it waits: received cells and statuses go into its copy. It may make its next move.
    pub fn leave<R: Wait>(&self, rt: &R, prog: &Program, live: Live<K, H>) -> Live<K, H>
        requires same { prog.now ≡ K.program }
        requires enabled { MayMove K.program (state_seen K.program live.pass.seen) live.rec.task }
        requires within { IsInOperation live.rec.phase }
        requires idle { live.pause.issued ≡ [] }
        ensures moves { MovesOn K.program K.workers live.pass result.pass live.rec result.rec }
        ensures able { IsAble K.program result }
    {
        let mut section = self.section.lock(rt);
        section.leave(&self.table, prog, live)
    }

    /// The task returns: its body has ended. `Pending(Door::Events)` exactly where a request was ever bound to it (TAMPI, `TAMPI_Iwait`); the task may then
    /// park at its event meeting, and else make its next move.
    pub fn ret<R: Wait>(&self, rt: &R, prog: &Program, live: Live<K, H>) -> (Live<K, H>, Moved)
        requires same { prog.now ≡ K.program }
        requires enabled { MayMove K.program (state_seen K.program live.pass.seen) live.rec.task }
        requires ended { live.rec.phase ≡ phase.Ended }
        ensures moves { MovesOn K.program K.workers live.pass result.0.pass live.rec result.0.rec }
        ensures returned { IsReturned (state_seen K.program result.0.pass.seen) live.rec.task result.1 }
        ensures holders { (result.0.pause ≡ live.pause) × (result.0.events ≡ live.events) }
        ensures goes { GoesOn K.program result.0 result.1 }
    {
        let mut section = self.section.lock(rt);
        section.ret(&self.table, prog, live)
    }

    /// The task lets go of its accesses; what is left of it is its pass.
    pub fn release<R: Wait>(&self, rt: &R, prog: &Program, live: Live<K, H>) -> Pass
        requires same { prog.now ≡ K.program }
        requires enabled { MayMove K.program (state_seen K.program live.pass.seen) live.rec.task }
        requires returned { live.rec.phase ≡ phase.Returned }
        ensures { (left : Record) × MovesOn K.program K.workers live.pass result live.rec left }
    {
        let mut section = self.section.lock(rt);
        section.release(&self.table, prog, live)
    }

    /// A poller takes the first notice of a completion, with the ticket of its request and a note of the list after which the request is complete (TAMPI,
    /// completion by polling). None exactly where no notice stood at its step; it is then a look.
    pub fn poll<R: Wait>(&self, rt: &R, pass: Pass) -> (Pass, Option<Notice<K, H>>)
        requires pass { pass.table ≡ K.passes }
        requires poller { IsPoller K.program K.workers pass.caller }
        ensures takes { IfSome result.1 (Takes K.program K.workers pass result.0) }
        ensures looks { IfNone result.1 (Looks K.program K.workers pass result.0) }
        ensures none { IfNone result.1 ((state_seen K.program result.0.seen).notices ≡ []) }
    {
        let mut section = self.section.lock(rt);
        section.poll(&self.table, pass)
    }

    /// A worker without work looks: `Stopped` exactly where a stop stands in the list at its step, else `Quiet` exactly where no task may move, each with a
    /// note of that list, and else `Work`.
    pub fn idle<R: Wait>(&self, rt: &R, prog: &Program, pass: Pass) -> (Pass, Idle)
        requires same { prog.now ≡ K.program }
        requires pass { pass.table ≡ K.passes }
        requires poller { IsPoller K.program K.workers pass.caller }
        ensures looks { Looks K.program K.workers pass result.0 }
        ensures idle { IsIdle K.program result.0 result.1 }
    {
        let mut section = self.section.lock(rt);
        section.idle(&self.table, prog, pass)
    }

    /// A stop stands in the list that the pass has seen: this one, where none stood there.
    pub fn stop<R: Wait>(&self, rt: &R, pass: Pass) -> Pass
        requires pass { pass.table ≡ K.passes }
        requires poller { IsPoller K.program K.workers pass.caller }
        ensures { Stops K.program K.workers pass result }
    {
        let mut section = self.section.lock(rt);
        section.stop(&self.table, pass)
    }

    /// The history of the run, which is legal, with the cells and the phases of the state after it. Its callers begin with those of the steps that the note
    /// has seen: so where no task might move after these, none may at the end.
    pub fn finish(self, note: Note) -> BookEnd
        requires note { note.table ≡ K.passes }
        ensures legal { IsLegal K.program K.workers result.history.entries.items result.history.statuses.items }
        ensures begins { IsPrefix (moves note.seen) (callers K.program result.history.entries.items) }
        ensures quiet { IsQuiet K.program (state_seen K.program note.seen) → IsQuiet K.program (final K.program result.history.entries.items) }
        ensures cells { result.cells.items ≡ (final K.program result.history.entries.items).memory }
        ensures phases { result.phases.items ≡ phases_of (final K.program result.history.entries.items).tasks }
    {
        let SharedBook { table, section } = self;
        let section = section.into_inner().into_inner();
        section.finish(&table, note)
    }
}
