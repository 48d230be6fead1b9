//! The end of a book with its list.

ghost use Rattle.std.specs.Prelude.{◌≡◌};
ghost use mathlib.Core.List.{IsPrefix};
ghost use Rattle.task_machine.specs.Legal.{callers, final, phases_of, IsLegal, IsQuiet};
ghost use Rattle.shared_lists.specs.Deeds.{moves, state_seen};

use crate::listed::ListedBook;
use core_book::BookEnd;
use pass_table::{Note, PassTable};

impl ListedBook {
    /// The history of the book, with the cells and the phases of the state after it. Its callers are those of the list's steps, which begin with what the
    /// note has seen: so where no task might move after that, none may at the end. Takes no memory.
    pub fn finish(self, table: &PassTable, note: Note) -> BookEnd
        requires table { table.now ≡ self.table }
        requires note { note.table ≡ self.table }
        ensures legal { IsLegal self.program self.workers result.history.entries.items result.history.statuses.items }
        ensures callers { callers self.program result.history.entries.items ≡ moves self.seen }
        ensures before { IsPrefix note.seen self.seen }
        ensures begins { IsPrefix (moves note.seen) (moves self.seen) }
        ensures quiet { IsQuiet self.program (state_seen self.program note.seen) → IsQuiet self.program (final self.program result.history.entries.items) }
        ensures cells { result.cells.items ≡ (final self.program result.history.entries.items).memory }
        ensures phases { result.phases.items ≡ phases_of (final self.program result.history.entries.items).tasks }
    {
        let ListedBook {
            book,
            mut pen,
            looked: _,
            stopped: _,
            passes: _,
        } = self;
        pen.settle(table, note);
        book.into_end()
    }
}
