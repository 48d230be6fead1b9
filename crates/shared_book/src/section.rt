//! What is done under the lock.

ghost use Rattle.std.specs.Prelude.{◌≡◌, [], IfSome, IfNone};
ghost use mathlib.Core.List.{IsPrefix};
ghost use Rattle.rt_base.specs.declared.data.Phase.TheVariants as phase;
ghost use Rattle.rt_base.specs.MayMove.{MayMove};
ghost use Rattle.task_local.specs.StandsFor.{Record};
ghost use Rattle.task_local.specs.Standing.{def, packed_next, IsAtCall};
ghost use Rattle.task_machine.specs.Legal.{callers, final, phases_of, IsLegal, IsQuiet};
ghost use Rattle.book_parts.specs.Ledger.{IsInOperation};
ghost use Rattle.shared_lists.specs.Deeds.{moves, state_seen};
ghost use Rattle.shared_lists.specs.Sound.{IsPoller};
ghost use Rattle.shared_lists.specs.Said.{Looks, Stops, NoneLeft};
ghost use Rattle.listed_book.specs.Replies.{IsIdle};
ghost use Rattle.shared_tasks.specs.Keeping.{IsAble};
ghost use Rattle.shared_book.specs.Answers.{MovesOn, Calls, IsReturned, GoesOn, Takes, Offers};
ghost use Rattle.shared_book.specs.Computed.{is_inside, answered, returned};

use crate::moved::Moved;
use crate::opening::open_all;
use crate::pairs::{Pair, take_pair};
use core_book::BookEnd;
use listed_book::{Idle, ListedBook, Offered, Told};
use meet_hall::{Hall, Holder};
use pass_table::{Note, Pass, PassTable};
use rt_base::{Cells, Program};
use shared_tasks::{Arrival, Door, Fresh, Live, Notice, Parked, Run, Site, Tickets};
use std::marker::{Model, PhantomData};
use task_local::{At, TaskRec};

// The book with its list, the tickets of open requests, and the holders of the tasks that were not offered. Contracts see the book.
#[derive(Drop)]
pub(crate) struct Section<K: Run, H: Site> {
    pub(crate) book: ListedBook,
    pub(crate) tickets: Tickets,
    // The holders of each task, until the task is offered.
    pub(crate) pairs: Vec<Option<Pair>>,
    // The holder of the meeting that is no task's.
    pub(crate) spare: Option<Holder>,
    pub(crate) of: PhantomData<(K, H)>,
}

impl<K: Run, H: Site> Model for Section<K, H> {
    ghost use Rattle.listed_book.specs.Listed.{BookIs};
    ghost use Rattle.shared_book.specs.Kept.{KeepsSection};

    ghost Value = { BookIs };

    ghost view = { λ s. s.book };

    ghost invariant = { λ s. KeepsSection K.program K.workers K.passes H.hall s.book s.tickets s.pairs.items };
}

impl<K: Run, H: Site> Section<K, H> {
    // The task starts.
    pub(crate) fn start(
        &mut self,
        table: &PassTable,
        prog: &Program,
        fresh: Fresh<K, H>,
        rec: TaskRec,
    ) -> Live<K, H>
        requires table { table.now ≡ K.passes }
        requires same { prog.now ≡ K.program }
        requires made { rec.program ≡ K.program }
        requires its { rec.task ≡ fresh.task }
        requires waits { rec.phase ≡ phase.Waiting }
        ensures moves { MovesOn K.program K.workers fresh.pass result.pass rec result.rec }
        ensures able { IsAble K.program result }
    {
        let mut rec = rec;
        let (_, pass, pause, events) = fresh.into_parts();
        let pass = self.book.start(table, prog, pass, &mut rec);
        Live::new(rec, pass, pause, events)
    }

    // The task calls its next operation, and a ticket is issued for each request that this opens.
    pub(crate) fn call(
        &mut self,
        table: &PassTable,
        prog: &Program,
        hall: &Hall<Parked<K>, Arrival<K>>,
        live: Live<K, H>,
        cells: Cells,
    ) -> (Live<K, H>, Moved)
        requires table { table.now ≡ K.passes }
        requires same { prog.now ≡ K.program }
        requires hall { hall.now ≡ H.hall }
        requires enabled { MayMove K.program (state_seen K.program live.pass.seen) live.rec.task }
        requires before { IsAtCall (def live.rec) live.rec.phase }
        requires packed { cells.items ≡ packed_next (def live.rec) live.rec.phase live.rec.copy }
        ensures calls { Calls K.program K.workers live result.0 result.1 }
        ensures goes { GoesOn K.program result.0 result.1 }
    {
        let (mut rec, pass, mut pause, mut events) = live.into_parts();
        let (pass, pending) = self.book.call(table, prog, pass, &mut rec, cells);
        if is_inside(rec.at(prog)) {
            open_all(hall, &self.book, &mut self.tickets, &mut pause, pending);
            return (Live::new(rec, pass, pause, events), answer(pending));
        }
        open_all(hall, &self.book, &mut self.tickets, &mut events, pending);
        (Live::new(rec, pass, pause, events), Moved::Done)
    }

    // The task leaves the operation in which it waits.
    pub(crate) fn leave(
        &mut self,
        table: &PassTable,
        prog: &Program,
        live: Live<K, H>,
    ) -> Live<K, H>
        requires table { table.now ≡ K.passes }
        requires same { prog.now ≡ K.program }
        requires enabled { MayMove K.program (state_seen K.program live.pass.seen) live.rec.task }
        requires within { IsInOperation live.rec.phase }
        requires idle { live.pause.issued ≡ [] }
        ensures moves { MovesOn K.program K.workers live.pass result.pass live.rec result.rec }
        ensures able { IsAble K.program result }
    {
        let (mut rec, pass, pause, events) = live.into_parts();
        let pass = self.book.leave(table, prog, pass, &mut rec);
        Live::new(rec, pass, pause, events)
    }

    // The task returns.
    pub(crate) fn ret(
        &mut self,
        table: &PassTable,
        prog: &Program,
        live: Live<K, H>,
    ) -> (Live<K, H>, Moved)
        requires table { table.now ≡ K.passes }
        requires same { prog.now ≡ K.program }
        requires enabled { MayMove K.program (state_seen K.program live.pass.seen) live.rec.task }
        requires ended { live.rec.phase ≡ phase.Ended }
        ensures moves { MovesOn K.program K.workers live.pass result.0.pass live.rec result.0.rec }
        ensures returned { IsReturned (state_seen K.program result.0.pass.seen) live.rec.task result.1 }
        ensures holders { (result.0.pause ≡ live.pause) × (result.0.events ≡ live.events) }
        ensures goes { GoesOn K.program result.0 result.1 }
    {
        let (mut rec, pass, pause, events) = live.into_parts();
        let pass = self.book.ret(table, prog, pass, &mut rec);
        let bound = self.book.bound(rec.task());
        (Live::new(rec, pass, pause, events), returned(bound))
    }

    // The task lets go of its accesses.
    pub(crate) fn release(&mut self, table: &PassTable, prog: &Program, live: Live<K, H>) -> Pass
        requires table { table.now ≡ K.passes }
        requires same { prog.now ≡ K.program }
        requires enabled { MayMove K.program (state_seen K.program live.pass.seen) live.rec.task }
        requires returned { live.rec.phase ≡ phase.Returned }
        ensures { (left : Record) × MovesOn K.program K.workers live.pass result live.rec left }
    {
        let (mut rec, pass, _, _) = live.into_parts();
        self.book.release(table, prog, pass, &mut rec)
    }

    // A poller offers a task that may start and was not offered.
    pub(crate) fn fresh(&mut self, table: &PassTable, pass: Pass) -> (Pass, Option<Fresh<K, H>>)
        requires table { table.now ≡ K.passes }
        requires pass { pass.table ≡ K.passes }
        requires poller { IsPoller K.program K.workers pass.caller }
        ensures offers { IfSome result.1 (Offers K.program K.workers pass result.0) }
        ensures looks { IfNone result.1 (Looks K.program K.workers pass result.0) }
        ensures none { IfNone result.1 (NoneLeft K.program result.0.seen) }
    {
        let (pass, offered) = self.book.fresh(table, pass);
        match offered {
            None => (pass, None),
            Some(Offered { task, pass: own }) => {
                let Pair { pause, events } = take_pair(&mut self.pairs, task);
                (pass, Some(Fresh::new(task, own, pause, events)))
            }
        }
    }

    // A poller takes the first notice of a completion, with the ticket of its request.
    pub(crate) fn poll(&mut self, table: &PassTable, pass: Pass) -> (Pass, Option<Notice<K, H>>)
        requires table { table.now ≡ K.passes }
        requires pass { pass.table ≡ K.passes }
        requires poller { IsPoller K.program K.workers pass.caller }
        ensures takes { IfSome result.1 (Takes K.program K.workers pass result.0) }
        ensures looks { IfNone result.1 (Looks K.program K.workers pass result.0) }
        ensures none { IfNone result.1 ((state_seen K.program result.0.seen).notices ≡ []) }
    {
        let (pass, told) = self.book.poll(table, pass);
        match told {
            None => (pass, None),
            Some(Told { req, note }) => {
                let lying = self.tickets.take(req);
                let Some(ticket) = lying else { unreachable!() };
                (pass, Some(Notice::new(req, ticket, note)))
            }
        }
    }

    // A worker without work looks.
    pub(crate) fn idle(&mut self, table: &PassTable, prog: &Program, pass: Pass) -> (Pass, Idle)
        requires table { table.now ≡ K.passes }
        requires same { prog.now ≡ K.program }
        requires pass { pass.table ≡ K.passes }
        requires poller { IsPoller K.program K.workers pass.caller }
        ensures looks { Looks K.program K.workers pass result.0 }
        ensures idle { IsIdle K.program result.0 result.1 }
    {
        self.book.idle(table, prog, pass)
    }

    // A stop stands in the list.
    pub(crate) fn stop(&mut self, table: &PassTable, pass: Pass) -> Pass
        requires table { table.now ≡ K.passes }
        requires pass { pass.table ≡ K.passes }
        requires poller { IsPoller K.program K.workers pass.caller }
        ensures { Stops K.program K.workers pass result }
    {
        self.book.stop(table, pass)
    }

    // The end of the book, whose history begins with what the note has seen.
    pub(crate) fn finish(self, table: &PassTable, note: Note) -> BookEnd
        requires table { table.now ≡ K.passes }
        requires note { note.table ≡ K.passes }
        ensures legal { IsLegal K.program K.workers result.history.entries.items result.history.statuses.items }
        ensures begins { IsPrefix (moves note.seen) (callers K.program result.history.entries.items) }
        ensures quiet { IsQuiet K.program (state_seen K.program note.seen) → IsQuiet K.program (final K.program result.history.entries.items) }
        ensures cells { result.cells.items ≡ (final K.program result.history.entries.items).memory }
        ensures phases { result.phases.items ≡ phases_of (final K.program result.history.entries.items).tasks }
    {
        let Section {
            book,
            tickets: _,
            pairs: _,
            spare: _,
            of: _,
        } = self;
        book.finish(table, note)
    }
}

// Whether a task that stands so is in an operation.
fn is_inside(at: At) -> bool
    ensures { result ≡ is_inside at }
{
    matches!(at, At::In(_))
}

// What a task is answered that is in an operation of which so many requests are incomplete.
fn answer(pending: u32) -> Moved
    ensures { result ≡ answered pending }
{
    if pending > 0 {
        Moved::Pending(Door::Pause)
    } else {
        Moved::Done
    }
}

// What a task is answered that has returned and to which so many requests were bound.
fn returned(bound: u32) -> Moved
    ensures { result ≡ returned bound }
{
    if bound > 0 {
        Moved::Pending(Door::Events)
    } else {
        Moved::Done
    }
}
