//! Polls: a poller takes a notice.

ghost use Rattle.std.specs.Prelude.{◌<◌, length};
ghost use Rattle.task_machine.specs.Legal.{final};
ghost use Rattle.book_parts.specs.Ledger.{TakesNotice};

use crate::book::Book;
use rt_base::{Entry, ReqNo};
use wait_steps::note;

impl Book {
    /// A poller, by its number among the workers, takes the first notice of a completion (TAMPI, completion by polling). Takes no memory, and constant
    /// time. It is no move of a task: what the last move opened stays.
    pub fn poll(&mut self, poller: u16) -> ReqNo
        requires notice { 0 < length (final self.old.program self.old.history).notices }
        requires exists { poller < self.old.workers }
        ensures { TakesNotice self.old self.new poller result }
    {
        match self.notices.pop_front() {
            Some(req) => {
                note(&mut self.entries, Entry::Poll { poller, req });
                req
            }
            None => unreachable!(),
        }
    }
}
