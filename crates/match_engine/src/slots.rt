//! What each request of the program asks for, and what became of it.

ghost use Rattle.std.specs.Prelude.{◌≡◌, ℕ, ◌+◌, ◌≤◌, ◌<◌, ◌^◌, Bool, List, [], ◌∷◌, ◌++◌, map, filter, length, sum_by, count_by, vec_items, Some, None};
ghost use Rattle.std.specs.Prelude.{IfOk, IfSome, IsSome};
ghost use Rattle.rt_base.specs.Operations.{is_posting};
ghost use Rattle.match_engine.specs.Slots.{fresh_slots, fresh_row, fresh_slot, slot_at, marked, settled, enters, addresses, listens, is_open, is_due};
ghost use Rattle.match_engine.specs.Slots.{slots_that};

use rt_base::{How, Op, Peer, Program, ReqNo, Span, TagSel, TaskDef};
use std::alloc::{AllocError, Global};
use std::marker::Model;

/// The fields of a posting operation, and the rank of its task.
#[derive(Clone, Copy, Debug)]
pub struct Call {
    pub how: How,
    pub span: Span,
    pub peer: Peer,
    pub tag: TagSel,
    pub comm: u16,
    pub rank: u16,
}

/// What became of a request.
#[derive(Clone, Copy, Debug)]
pub enum Progress {
    Unposted,
    /// Posted, and in no match so far.
    Waits,
    /// In the match of this place.
    Matched(usize),
}

/// What a request asks for, and what became of it.
#[derive(Clone, Copy, Debug)]
pub struct Slot {
    pub call: Call,
    pub progress: Progress,
}

/// One of the two queues of a rank.
#[derive(Clone, Copy, Debug)]
pub enum Side {
    Messages,
    Receives,
}

/// A slot for each request of the program, by task.
#[derive(Drop)]
pub struct Slots {
    rows: Vec<Vec<Slot>>,
}

impl Model for Slots {
    ghost use Rattle.std.specs.Prelude.{List, map, vec_items};
    ghost use Rattle.match_engine.specs.declared.slots.Slot as slot;

    ghost Value = { List (List slot.Slot) };

    ghost view = { λ s. map vec_items s.rows.items };
}

impl Slots {
    /// The slots of a program of which nothing is posted.
    pub fn build(alloc: Global, prog: &Program) -> Result<Self, AllocError>
        ensures { IfOk result (λ slots. slots ≡ fresh_slots prog.now) }
    {
        let mut rows = Vec::with_capacity(alloc, prog.tasks.len())?;
        for task in prog.tasks.as_slice() {
            rows.push(row_of(alloc, task)?)?;
        }
        Ok(Slots { rows })
    }

    /// All slots, a row for each task.
    pub fn rows(&self) -> &[Vec<Slot>]
        ensures { map vec_items result.now ≡ self.now }
    {
        &self.rows
    }

    /// The slot of a request, in constant time. None where the program has no such request.
    pub fn at(&self, req: ReqNo) -> Option<Slot>
        ensures { result ≡ slot_at self.now req }
    {
        let row = self.rows.get(req.task.0 as usize)?;
        row.get(req.nth as usize).copied()
    }

    /// The slot of a request of the program, in constant time.
    pub fn get(&self, req: ReqNo) -> Slot
        requires { IsSome (slot_at self.now req) }
        ensures { slot_at self.now req ≡ Some result }
    {
        self.rows[req.task.0 as usize][req.nth as usize]
    }

    /// Notes what became of a request, in constant time.
    pub fn mark(&mut self, req: ReqNo, progress: Progress)
        requires { IsSome (slot_at self.old req) }
        ensures { self.new ≡ marked self.old req progress }
    {
        let slot = self.get(req);
        self.rows[req.task.0 as usize][req.nth as usize] = Slot {
            call: slot.call,
            progress,
        };
    }

    /// Notes that a request was posted, and, where it has a partner, that both are in the match of this place. In constant time.
    pub fn settle(&mut self, req: ReqNo, partner: Option<ReqNo>, place: usize)
        requires request { IsSome (slot_at self.old req) }
        requires partner { IfSome partner (λ other. IsSome (slot_at self.old other)) }
        ensures { self.new ≡ settled self.old req partner place }
    {
        match partner {
            None => self.mark(req, Progress::Waits),
            Some(other) => {
                self.mark(req, Progress::Matched(place));
                self.mark(other, Progress::Matched(place));
            }
        }
    }

    /// How many requests aren't posted. Looks at all.
    pub fn open(&self) -> usize
        requires { sum_by length self.now < 2 ^ 63 }
        ensures { result ≡ slots_that is_open self.now }
    {
        count_open(&self.rows)
    }

    /// How many requests aren't posted and will take a place in this queue of the rank. Looks at all.
    pub fn due(&self, side: Side, rank: u16) -> usize
        requires { sum_by length self.now < 2 ^ 63 }
        ensures { result ≡ slots_that (is_due side rank) self.now }
    {
        count_due(&self.rows, side, rank)
    }
}

// How many requests aren't posted.
fn count_open(rows: &[Vec<Slot>]) -> usize
    requires { sum_by length (map vec_items rows.now) < 2 ^ 63 }
    ensures { result ≡ slots_that is_open (map vec_items rows.now) }
{
    let mut count = 0;
    for row in rows {
        count += open_in(row);
    }
    count
}

// How many requests of one task aren't posted.
fn open_in(row: &[Slot]) -> usize
    ensures { result ≡ count_by is_open row.now }
{
    row.iter().filter(|slot| is_open(slot)).count()
}

// How many requests aren't posted and will take a place in this queue of the rank.
fn count_due(rows: &[Vec<Slot>], side: Side, rank: u16) -> usize
    requires { sum_by length (map vec_items rows.now) < 2 ^ 63 }
    ensures { result ≡ slots_that (is_due side rank) (map vec_items rows.now) }
{
    let mut count = 0;
    for row in rows {
        count += due_in(row, side, rank);
    }
    count
}

// How many requests of one task aren't posted and will take a place in this queue of the rank.
fn due_in(row: &[Slot], side: Side, rank: u16) -> usize
    ensures { result ≡ count_by (is_due side rank) row.now }
{
    row.iter().filter(|slot| is_due(slot, side, rank)).count()
}

// The slots of a task's requests, in the order of the body.
fn row_of(alloc: Global, task: &TaskDef) -> Result<Vec<Slot>, AllocError>
    ensures { IfOk result (λ row. row.items ≡ fresh_row task.now) }
{
    let mut row = Vec::new(alloc);
    for operation in task.body.as_slice() {
        push_slot(&mut row, task.rank, operation)?;
    }
    Ok(row)
}

// Adds the slot of an operation, where it posts.
fn push_slot(row: &mut Vec<Slot>, rank: u16, operation: &Op) -> Result<(), AllocError>
    ensures { IfOk result (λ _. row.new.items ≡ row.old.items ++ map (fresh_slot rank) (filter is_posting (operation.now ∷ []))) }
{
    if let Op::Post {
        how,
        span,
        peer,
        tag,
        comm,
        status: _,
    } = operation
    {
        let call = Call {
            how: *how,
            span: *span,
            peer: *peer,
            tag: *tag,
            comm: *comm,
            rank,
        };
        row.push(Slot {
            call,
            progress: Progress::Unposted,
        })?;
    }
    Ok(())
}

// The request isn't posted yet.
fn is_open(slot: &Slot) -> bool
    ensures { result ≡ is_open slot.now }
{
    match slot.progress {
        Progress::Unposted => true,
        Progress::Waits => false,
        Progress::Matched(_) => false,
    }
}

// The request isn't posted yet, and will take a place in this queue of the rank.
fn is_due(slot: &Slot, side: Side, rank: u16) -> bool
    ensures { result ≡ is_due side rank slot.now }
{
    is_open(slot) && enters(side, slot.call, rank)
}

// A posting of this call takes a place in this queue of the rank.
fn enters(side: Side, call: Call, rank: u16) -> bool
    ensures { result ≡ enters side call rank }
{
    match side {
        Side::Messages => !call.how.is_receive() && addresses(call.peer, rank),
        Side::Receives => call.how.is_receive() && listens(call.peer, call.rank, rank),
    }
}

// A message to this peer goes to the queues of the rank.
fn addresses(peer: Peer, rank: u16) -> bool
    ensures { result ≡ addresses peer rank }
{
    match peer {
        Peer::Rank(to) => to == rank,
        Peer::Any => false,
        Peer::Null => false,
    }
}

// A receive from this peer, posted by a task of the rank `own`, goes to the queues of the rank.
fn listens(peer: Peer, own: u16, rank: u16) -> bool
    ensures { result ≡ listens peer own rank }
{
    match peer {
        Peer::Rank(_) => own == rank,
        Peer::Any => own == rank,
        Peer::Null => false,
    }
}
