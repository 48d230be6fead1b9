//! Tickets for what a move opened.

ghost use Rattle.std.specs.Prelude.{◌≡◌, ℕ, ◌≤◌, [], length, IsSome};
ghost use Rattle.rt_base.specs.declared.data.ReqNo.{ReqNo};
ghost use Rattle.task_machine.specs.Owed.{IsOneOf};
ghost use Rattle.shared_lists.specs.Deeds.{opened_seen};
ghost use Rattle.shared_tasks.specs.Owing.{place_in, issuing_all, AreNew, HasOpened};

use listed_book::ListedBook;
use meet_hall::{Guest, Hall, Holder};
use shared_tasks::Tickets;

// The holder issues the places of all that the last move opened, in order, and their tickets lie in the book from then on. Time grows with their number.
pub(crate) fn open_all<R: Guest, N: Guest>(
    hall: &Hall<R, N>,
    book: &ListedBook,
    tickets: &mut Tickets,
    holder: &mut Holder,
    pending: u32,
)
    requires hall { holder.old.hall ≡ hall.now }
    requires clear { holder.old.left ≡ [] }
    requires new { (t : ℕ) × AreNew t holder.old (opened_seen book.now.program book.now.seen) }
    requires few { length (opened_seen book.now.program book.now.seen) ≤ pending }
    requires places { (req : ReqNo) → IsOneOf req (opened_seen book.now.program book.now.seen) → IsSome (place_in tickets.old req) }
    ensures holder { holder.new ≡ issuing_all holder.old (opened_seen book.now.program book.now.seen) }
    ensures tickets { HasOpened holder.old (opened_seen book.now.program book.now.seen) tickets.old tickets.new }
    ensures places { (req : ReqNo) → IsSome (place_in tickets.old req) → IsSome (place_in tickets.new req) }
{
    for i in 0..pending {
        let Some(req) = book.open_request(i) else {
            return;
        };
        tickets.open(hall, holder, req);
    }
}
