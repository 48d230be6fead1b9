//! The book with its list.

ghost use Rattle.std.specs.Prelude.{◌≡◌, length, slice_get};
ghost use Rattle.book_parts.specs.Ledger.{bound_in};
ghost use Rattle.shared_lists.specs.Deeds.{opened_seen};
ghost use Rattle.listed_book.specs.Listed.{state_in};

use crate::lying_pen::LyingPen;
use core_book::Book;
use pass_table::Pass;
use rt_base::{ReqNo, TaskNo};
use std::marker::Model;

/// The book of the machine with the one list of all that was done to it, and with the passes of the tasks that were not offered. Contracts see the
/// program, the number of workers, the table of the passes, and the list, which says all else.
#[derive(Drop)]
pub struct ListedBook {
    pub(crate) book: Book,
    pub(crate) pen: LyingPen,
    // How many looks the list has.
    pub(crate) looked: u64,
    // Whether the list has a stop.
    pub(crate) stopped: bool,
    // The pass of each task, until the task is offered.
    pub(crate) passes: Vec<Option<Pass>>,
}

impl Model for ListedBook {
    ghost use Rattle.listed_book.specs.Listed.{BookIs};

    ghost Value = { BookIs };

    ghost use Rattle.listed_book.specs.Kept.{Keeps};

    ghost view = { λ b. record { program = b.book.program; workers = b.book.workers; table = b.pen.table; seen = b.pen.seen } };

    ghost invariant = { λ b. Keeps (record { book = b.book; pen = b.pen; looked = b.looked; stopped = b.stopped; passes = b.passes.items }) };
}

impl ListedBook {
    /// The requests that the last move of the list opened, by place, and None behind the last of them. Takes constant time.
    pub fn open_request(&self, i: u32) -> Option<ReqNo>
        ensures { result ≡ slice_get (opened_seen self.now.program self.now.seen) i }
    {
        self.book.open_request(i)
    }

    /// How many requests the task has bound so far, complete or not. Takes constant time (TAMPI, `TAMPI_Iwait`).
    pub fn bound(&self, task: TaskNo) -> u32
        ensures { result ≡ length (bound_in (state_in self.now) task.0) }
    {
        self.book.bound(task)
    }
}
