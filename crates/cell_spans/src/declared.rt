//! The accesses of the open task.

ghost use Rattle.std.specs.Prelude.{◌≡◌, false, [], ◌∷◌, ◌++◌, OnOk, OnErr};
ghost use Rattle.std.specs.List.{list_any};
ghost use Rattle.rt_base.specs.declared.data.Access.{Access};
ghost use Rattle.rt_base.specs.Touched.{shares_any, is_declared, is_writable};
ghost use Rattle.cell_spans.specs.Covering.{Agrees};

use crate::intervals::Intervals;
use crate::line::interval_of;
use rt_base::{Access, Accesses, Span};
use std::alloc::{AllocError, Global};
use std::marker::Model;

/// The accesses of the open task, in order. No two of them share a cell.
/// A question about a span is one look-up among the declared cells, in time logarithmic in the number of accesses.
#[derive(Drop)]
pub struct Declared {
    accesses: Vec<Access>,
    declared: Intervals,
    written: Intervals,
}

impl Model for Declared {
    ghost use Rattle.std.specs.Prelude.{List};
    ghost use Rattle.rt_base.specs.declared.data.Access.{Access};
    ghost use Rattle.cell_spans.specs.Covering.{Agrees};

    ghost Value = { List Access };

    ghost view = { λ d. d.accesses.items };

    ghost invariant = { λ d. Agrees d.accesses.items d.declared d.written };
}

impl Declared {
    /// No accesses. Takes no memory.
    pub fn empty(alloc: Global) -> Self
        ensures { result ≡ [] }
    {
        Declared {
            accesses: Vec::new(alloc),
            declared: Intervals::empty(alloc),
            written: Intervals::empty(alloc),
        }
    }

    /// Whether the span shares a cell with an access.
    pub fn overlaps(&self, span: Span) -> bool
        ensures { result ≡ list_any (λ (access : Access). shares_any (access.span ∷ []) span) self.now }
    {
        match interval_of(span) {
            Some(interval) => self.declared.meets(interval),
            None => false,
        }
    }

    /// Whether each cell of the span lies in an access.
    pub fn is_declared(&self, span: Span) -> bool
        ensures { result ≡ is_declared self.now span }
    {
        match interval_of(span) {
            Some(interval) => self.declared.covers(interval),
            None => true,
        }
    }

    /// Whether each cell of the span lies in an access that may be written.
    pub fn is_writable(&self, span: Span) -> bool
        ensures { result ≡ is_writable self.now span }
    {
        match interval_of(span) {
            Some(interval) => self.written.covers(interval),
            None => true,
        }
    }

    /// Adds an access that shares no cell with those before it. After want of memory there is none.
    pub fn push(&mut self, access: Access) -> Result<(), AllocError>
        requires { list_any (λ (earlier : Access). shares_any (earlier.span ∷ []) access.span) self.old ≡ false }
        ensures added { OnOk result (self.new ≡ self.old ++ access ∷ []) }
        ensures emptied { OnErr result (self.new ≡ []) }
    {
        let added = add_access(
            &mut self.accesses,
            &mut self.declared,
            &mut self.written,
            access,
        );
        if added.is_err() {
            self.accesses.clear();
            self.declared.clear();
            self.written.clear();
        }
        added
    }

    /// The accesses as they stand in a task, and none are left. Takes no memory.
    pub fn take(&mut self, alloc: Global) -> Accesses
        ensures items { result.items ≡ self.old }
        ensures left { self.new ≡ [] }
    {
        self.declared.clear();
        self.written.clear();
        Accesses::from_vec(std::mem::replace(&mut self.accesses, Vec::new(alloc)))
    }
}

// Adds an access that shares no cell with those before it.
fn add_access(
    accesses: &mut Vec<Access>,
    declared: &mut Intervals,
    written: &mut Intervals,
    access: Access,
) -> Result<(), AllocError>
    requires agrees { Agrees accesses.old.items declared.old written.old }
    requires apart { list_any (λ (earlier : Access). shares_any (earlier.span ∷ []) access.span) accesses.old.items ≡ false }
    ensures items { OnOk result (accesses.new.items ≡ accesses.old.items ++ access ∷ []) }
    ensures agrees { OnOk result (Agrees accesses.new.items declared.new written.new) }
{
    accesses.push(access)?;
    let Some(interval) = interval_of(access.span) else {
        return Ok(());
    };
    declared.add(interval)?;
    if access.mode.is_written() {
        written.add(interval)?;
    }
    Ok(())
}
