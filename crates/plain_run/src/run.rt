//! The plain run of a program: one thread, no workers, one move after another.

ghost use Rattle.std.specs.Prelude.{◌≡◌, ◌≢◌, ◌≤◌, [], false, length, IfOk, IfSome, IfNone, ℕ};
ghost use Rattle.rt_base.specs.declared.data.Phase.TheVariants as phase;
ghost use Rattle.rt_base.specs.WellFormed.{WellFormed};
ghost use Rattle.rt_base.specs.MayMove.{MayMove};
ghost use Rattle.task_local.specs.Standing.{def, moved_on};
ghost use Rattle.task_machine.specs.Legal.{final, phases_of, IsLegal, IsQuiet};
ghost use Rattle.book_parts.specs.Ledger.{MakesMove, IsReady};
ghost use Rattle.plain_run.specs.Turns.{IsInLine, AreInLine, AreFresh, EndsTurn};

use core_book::{Book, BookEnd};
use rt_base::{Program, TaskNo};
use std::alloc::{AllocError, Global};
use task_local::{At, TaskRec};

/// Runs the program on one thread over a book, until no task may move and no notice stands; notices are taken as the only worker's. Takes memory for
/// all records first, and then for the cells of each send and for a list of tasks to look at again, with at most one place for each task and one
/// for each completion that was noticed.
pub fn run_plainly(alloc: Global, prog: &Program) -> Result<BookEnd, AllocError>
    requires well_formed { WellFormed prog.now }
    ensures legal { IfOk result (λ end. IsLegal prog.now 1 end.history.entries.items end.history.statuses.items) }
    ensures quiet { IfOk result (λ end. IsQuiet prog.now (final prog.now end.history.entries.items)) }
    ensures told { IfOk result (λ end. (final prog.now end.history.entries.items).notices ≡ []) }
    ensures cells { IfOk result (λ end. end.cells.items ≡ (final prog.now end.history.entries.items).memory) }
    ensures phases { IfOk result (λ end. end.phases.items ≡ phases_of (final prog.now end.history.entries.items).tasks) }
{
    let mut book = Book::build(alloc, prog, 1)?;
    let mut recs = fresh_records(alloc, prog)?;
    let mut again = Vec::new(alloc);
    while turn(alloc, prog, &mut book, &mut recs, &mut again)? {}
    Ok(book.into_end())
}

// The records of all tasks, none of them started.
fn fresh_records(alloc: Global, prog: &Program) -> Result<Vec<TaskRec>, AllocError>
    requires { WellFormed prog.now }
    ensures count { IfOk result (λ recs. length recs.items ≡ length prog.now.tasks.items) }
    ensures fresh { IfOk result (λ recs. AreFresh prog.now recs.items) }
{
    let mut recs = Vec::with_capacity(alloc, prog.tasks.len())?;
    for t in 0..prog.tasks.len() {
        recs.push(TaskRec::make(alloc, prog, TaskNo(t as u32))?)?;
    }
    Ok(recs)
}

// Takes a notice where one stands, and makes one move else, if a task may move. Answers whether it did either.
fn turn(
    alloc: Global,
    prog: &Program,
    book: &mut Book,
    recs: &mut [TaskRec],
    again: &mut Vec<TaskNo>,
) -> Result<bool, AllocError>
    requires well_formed { WellFormed prog.now }
    requires same { prog.now ≡ book.old.program }
    requires working { 1 ≤ book.old.workers }
    requires in_line { AreInLine book.old recs.old }
    ensures turn { IfOk result (λ moved. EndsTurn book.old book.new recs.new moved) }
    ensures told { IfOk result (λ moved. moved ≡ false → (final prog.now book.old.history).notices ≡ []) }
{
    if book.has_notice() {
        let req = book.poll(0);
        again.push(req.task)?;
        Ok(true)
    } else {
        move_on(alloc, prog, book, recs, again)
    }
}

// Makes one move, if a task may move. Answers whether one did. Tasks that are ready start first.
fn move_on(
    alloc: Global,
    prog: &Program,
    book: &mut Book,
    recs: &mut [TaskRec],
    again: &mut Vec<TaskNo>,
) -> Result<bool, AllocError>
    requires well_formed { WellFormed prog.now }
    requires same { prog.now ≡ book.old.program }
    requires in_line { AreInLine book.old recs.old }
    ensures { IfOk result (λ moved. EndsTurn book.old book.new recs.new moved) }
{
    match book.ready() {
        Some(task) => {
            book.start(prog, &mut recs[task.0 as usize]);
            again.push(task)?;
            Ok(true)
        }
        None => go_on(alloc, prog, book, recs, again),
    }
}

// Makes a move of a task that was started, if one may move. Answers whether one did.
fn go_on(
    alloc: Global,
    prog: &Program,
    book: &mut Book,
    recs: &mut [TaskRec],
    again: &mut Vec<TaskNo>,
) -> Result<bool, AllocError>
    requires well_formed { WellFormed prog.now }
    requires same { prog.now ≡ book.old.program }
    requires in_line { AreInLine book.old recs.old }
    requires none_ready { (t : ℕ) → ¬ IsReady book.old t }
    ensures { IfOk result (λ moved. EndsTurn book.old book.new recs.new moved) }
{
    match next_task(prog, book, again) {
        Some(task) => {
            move_one(alloc, prog, book, &mut recs[task.0 as usize])?;
            again.push(task)?;
            Ok(true)
        }
        None => Ok(false),
    }
}

// A task that may move: the last of those to look at again, and where none of them may, any one.
fn next_task(prog: &Program, book: &Book, again: &mut Vec<TaskNo>) -> Option<TaskNo>
    requires well_formed { WellFormed prog.now }
    requires same { prog.now ≡ book.now.program }
    ensures some { IfSome result (λ task. MayMove prog.now (final prog.now book.now.history) task.0) }
    ensures none { IfNone result (IsQuiet prog.now (final prog.now book.now.history)) }
{
    while let Some(task) = again.pop() {
        if book.can_move(prog, task) {
            return Some(task);
        }
    }
    if book.quiet(prog) {
        None
    } else {
        first_able(prog, book)
    }
}

// The first task that may move. Looks at each task: a run comes here only where a task may move that no one looks at again.
fn first_able(prog: &Program, book: &Book) -> Option<TaskNo>
    requires well_formed { WellFormed prog.now }
    requires same { prog.now ≡ book.now.program }
    ensures some { IfSome result (λ task. MayMove prog.now (final prog.now book.now.history) task.0) }
    ensures none { IfNone result (IsQuiet prog.now (final prog.now book.now.history)) }
{
    for t in 0..prog.tasks.len() {
        let task = TaskNo(t as u32);
        if book.can_move(prog, task) {
            return Some(task);
        }
    }
    None
}

// Makes the next move of a task that was started, after its local operations.
fn move_one(
    alloc: Global,
    prog: &Program,
    book: &mut Book,
    rec: &mut TaskRec,
) -> Result<(), AllocError>
    requires well_formed { WellFormed prog.now }
    requires same { prog.now ≡ book.old.program }
    requires in_line { IsInLine prog.now (final prog.now book.old.history) book.old.handed rec.old.task rec.old }
    requires started { rec.old.phase ≢ phase.Waiting }
    requires enabled { MayMove prog.now (final prog.now book.old.history) rec.old.task }
    ensures { IfOk result (λ done. MakesMove book.old book.new (moved_on (def rec.old) rec.old.phase rec.old) rec.new) }
{
    rec.run_local(prog);
    match rec.at(prog) {
        At::Local => unreachable!(),
        At::Fresh => unreachable!(),
        At::Call(_) => {
            let cells = rec.pack(alloc, prog)?;
            book.call(prog, rec, cells);
            Ok(())
        }
        At::In(_) => {
            book.leave(prog, rec);
            Ok(())
        }
        At::Ended => {
            book.ret(prog, rec);
            Ok(())
        }
        At::Returned => {
            book.release(prog, rec);
            Ok(())
        }
        At::Released => unreachable!(),
    }
}
