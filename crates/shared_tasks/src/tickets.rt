//! The tickets of open requests.

ghost use Rattle.std.specs.Prelude.{◌≡◌, ◌<◌, [], IfOk, IsSome, Some, None};
ghost use Rattle.rt_base.specs.Operations.{is_posting, postings};
ghost use Rattle.meetings.specs.Meetings.{times};
ghost use Rattle.meet_hall.specs.Holders.{issuing_one};
ghost use Rattle.shared_tasks.specs.Owing.{no_tickets, no_tickets_for, place_in, lying_in, with_ticket, HasIssued};

use meet_hall::{Guest, Hall, Holder, Ticket};
use rt_base::{Op, Program, ReqNo, TaskDef};
use std::alloc::{AllocError, Global};
use std::marker::Model;

/// A place for the ticket of each request of a program, by task. Contracts see the rows of places. Memory is taken as they are built, and by no other
/// call.
#[derive(Drop)]
pub struct Tickets {
    rows: Vec<Vec<Option<Ticket>>>,
}

impl Model for Tickets {
    ghost use Rattle.std.specs.Prelude.{List, Option, map, vec_items};
    ghost use Rattle.meet_hall.specs.Holders.{TicketIs};

    ghost Value = { List (List (Option TicketIs)) };

    ghost view = { λ t. map vec_items t.rows.items };
}

impl Tickets {
    /// A place for each request of a program, with no ticket in it.
    pub fn build(alloc: Global, prog: &Program) -> Result<Tickets, AllocError>
        ensures { IfOk result (λ tickets. tickets ≡ no_tickets prog.now) }
    {
        let mut rows = Vec::with_capacity(alloc, prog.tasks.len())?;
        for task in prog.tasks.as_slice() {
            rows.push(no_tickets_of(alloc, task)?)?;
        }
        Ok(Tickets { rows })
    }

    /// Puts the ticket of a request of the program at its place.
    pub fn put(&mut self, req: ReqNo, ticket: Ticket)
        requires { IsSome (place_in self.old req) }
        ensures { self.new ≡ with_ticket self.old req (Some ticket) }
    {
        self.rows[req.task.0 as usize][req.nth as usize] = Some(ticket);
    }

    /// Takes the ticket of a request of the program, where one lies at its place.
    pub fn take(&mut self, req: ReqNo) -> Option<Ticket>
        requires { IsSome (place_in self.old req) }
        ensures ticket { result ≡ lying_in self.old req }
        ensures rest { self.new ≡ with_ticket self.old req None }
    {
        self.rows[req.task.0 as usize][req.nth as usize].take()
    }

    /// The holder issues the place of a request, whose ticket lies here from then on.
    pub fn open<R: Guest, N: Guest>(&mut self, hall: &Hall<R, N>, holder: &mut Holder, req: ReqNo)
        requires hall { holder.old.hall ≡ hall.now }
        requires within { req.nth < holder.old.places }
        requires new { times req.nth holder.old.issued ≡ 0 }
        requires clear { holder.old.left ≡ [] }
        requires place { IsSome (place_in self.old req) }
        ensures holder { holder.new ≡ issuing_one holder.old req.nth }
        ensures ticket { HasIssued self.old self.new holder.old req }
    {
        let ticket = hall.issue(holder, req.nth);
        self.put(req, ticket);
    }
}

// A place without a ticket for each request of a task.
fn no_tickets_of(alloc: Global, task: &TaskDef) -> Result<Vec<Option<Ticket>>, AllocError>
    ensures { IfOk result (λ row. row.items ≡ no_tickets_for task.now) }
{
    let mut row = Vec::new(alloc);
    for _ in 0..request_count(task) {
        row.push(None)?;
    }
    Ok(row)
}

/// How many requests a task posts. Looks at each operation of its body.
pub fn request_count(task: &TaskDef) -> usize
    ensures { result ≡ postings task.now.body.items }
{
    task.body
        .as_slice()
        .iter()
        .filter(|operation| posts(operation))
        .count()
}

// Whether the operation posts a request.
fn posts(operation: &Op) -> bool
    ensures { result ≡ is_posting operation.now }
{
    matches!(operation, Op::Post { .. })
}
