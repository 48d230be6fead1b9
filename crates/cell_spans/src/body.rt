//! The body of the open task, with its requests and the spans in use.

ghost use Rattle.std.specs.Prelude.{◌≡◌, ◌<◌, List, [], ◌∷◌, ◌++◌, OnOk, OnErr, IfSome, slice_get};
ghost use Rattle.rt_base.specs.declared.data.Access.{Access};
ghost use Rattle.rt_base.specs.Operations.{postings};
ghost use Rattle.rt_base.specs.InUse.{is_in_use, left_after};

use crate::in_use::SpansInUse;
use rt_base::{Body, Op};
use std::alloc::{AllocError, Global};
use std::marker::Model;

/// The operations of the open task, in order. A question about the next one takes time logarithmic in the number of requests under way.
#[derive(Drop)]
pub struct OpenBody {
    body: Vec<Op>,
    in_use: SpansInUse,
}

impl Model for OpenBody {
    ghost use Rattle.std.specs.Prelude.{List};
    ghost use Rattle.rt_base.specs.declared.data.Op.{Op};

    ghost Value = { List Op };

    ghost view = { λ b. b.body.items };

    ghost use Rattle.cell_spans.specs.Requests.{Holds};

    ghost invariant = { λ b. Holds b.in_use b.body.items };
}

impl OpenBody {
    /// No operations. Takes no memory.
    pub fn empty(alloc: Global) -> Self
        ensures { result ≡ [] }
    {
        OpenBody {
            body: Vec::new(alloc),
            in_use: SpansInUse::empty(alloc),
        }
    }

    /// How many requests the operations posted: the number of the next one.
    pub fn requests(&self) -> usize
        ensures { result ≡ postings self.now }
    {
        self.in_use.requests()
    }

    /// Whether this operation, as the next one, would read a cell in use for reading, or write one in use for writing, whatever the accesses of the task.
    pub fn is_in_use(&self, operation: &Op) -> bool
        ensures { (accesses : List Access) → result ≡ is_in_use accesses self.now operation.now }
    {
        self.in_use.is_in_use(operation)
    }

    /// Adds an operation. Want of memory changes nothing.
    pub fn push(&mut self, operation: Op) -> Result<(), AllocError>
        ensures added { OnOk result (self.new ≡ self.old ++ operation ∷ []) }
        ensures unchanged { OnErr result (self.new ≡ self.old) }
    {
        self.body.try_reserve(1)?;
        self.in_use.after(&operation)?;
        match self.body.push(operation) {
            Ok(()) => Ok(()),
            Err(_) => unreachable!(),
        }
    }

    /// The number of the first request that its posting didn't wait for and that no wait named.
    pub fn left(&self) -> Option<usize>
        ensures first { result ≡ slice_get (left_after 0 self.now) 0 }
        ensures posted { IfSome result (λ n. n < postings self.now) }
    {
        self.in_use.left()
    }

    /// The operations as they stand in a task, and none are left. Takes no memory.
    pub fn take(&mut self, alloc: Global) -> Body
        ensures items { result.items ≡ self.old }
        ensures left { self.new ≡ [] }
    {
        self.in_use.clear();
        Body::from_vec(std::mem::replace(&mut self.body, Vec::new(alloc)))
    }
}
