//! The opening book.

ghost use Rattle.std.specs.Prelude.{◌≡◌, ℕ, ◌+◌, ◌≤◌, ◌<◌, [], length, map, take, drop, slice_get, Some, IfOk};
ghost use Rattle.rt_base.specs.WellFormed.{WellFormed};
ghost use Rattle.pass_table.specs.Passes.{new_pass, new_passes};

use crate::listed::ListedBook;
use crate::lying_pen::LyingPen;
use core_book::Book;
use pass_table::{Pass, PassTable};
use rt_base::Program;
use std::alloc::{AllocError, Global};

// A table of passes with its pen, the passes that lie there for the tasks, and those of the pollers.
struct Dealt {
    table: PassTable,
    pen: LyingPen,
    lying: Vec<Option<Pass>>,
    pollers: Vec<Pass>,
}

// Each of the passes in a place of its own.
fn lying(alloc: Global, passes: Vec<Pass>) -> Result<Vec<Option<Pass>>, AllocError>
    ensures { IfOk result (λ lying. lying.items ≡ map Some passes.items) }
{
    passes.into_iter().map(|pass| Some(pass)).collect(alloc)
}

// The passes of so many tasks, and behind them those of the pollers.
fn deal(alloc: Global, tasks: usize, workers: u16) -> Result<Dealt, AllocError>
    requires tasks { tasks ≤ 65536 }
    requires workers { 1 ≤ workers }
    ensures pen { IfOk result (λ dealt. dealt.pen ≡ record { table = dealt.table; seen = [] }) }
    ensures lying { IfOk result (λ dealt. dealt.lying.items ≡ map Some (take tasks (new_passes dealt.table (tasks + workers)))) }
    ensures pollers { IfOk result (λ dealt. dealt.pollers.items ≡ drop tasks (new_passes dealt.table (tasks + workers))) }
{
    let callers = tasks as u32 + u32::from(workers);
    let (table, pen, mut passes) = PassTable::build(alloc, callers)?;
    let pollers = passes.split_off(tasks)?;
    let lying = lying(alloc, passes)?;
    let pen = LyingPen::new(pen);
    Ok(Dealt {
        table,
        pen,
        lying,
        pollers,
    })
}

impl ListedBook {
    /// The book of a program in its opening state, for so many workers, with its table of passes and the passes of the pollers in order. Takes all memory
    /// that its calls need.
    pub fn build(
        alloc: Global,
        prog: &Program,
        workers: u16,
    ) -> Result<(PassTable, ListedBook, Vec<Pass>), AllocError>
        requires well_formed { WellFormed prog.now }
        requires workers { 1 ≤ workers }
        ensures book { IfOk result (λ made. made.1 ≡ record { program = prog.now; workers = workers; table = made.0; seen = [] }) }
        ensures pollers { IfOk result (λ made. length made.2.items ≡ workers) }
        ensures passes { IfOk result (λ made. (w : ℕ) → w < workers
            → slice_get made.2.items w ≡ Some (new_pass made.0 (length prog.now.tasks.items + w))) }
    {
        let book = Book::build(alloc, prog, workers)?;
        let Dealt {
            table,
            pen,
            lying,
            pollers,
        } = deal(alloc, prog.tasks.len(), workers)?;
        let listed = ListedBook {
            book,
            pen,
            looked: 0,
            stopped: false,
            passes: lying,
        };
        Ok((table, listed, pollers))
    }
}
