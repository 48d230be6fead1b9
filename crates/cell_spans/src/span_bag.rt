//! Spans, some perhaps more than once, of which is asked whether one shares a cell with another span.

ghost use Rattle.std.specs.Prelude.{◌≡◌, List, [], ◌∷◌, OnOk, OnErr};
ghost use Rattle.rt_base.specs.declared.data.Span.{Span};
ghost use Rattle.rt_base.specs.Touched.{shares_any};
ghost use Rattle.cell_spans.specs.Marks.{AreMarks};

use crate::line::interval_of;
use crate::number_bag::NumberBag;
use rt_base::Span;
use std::alloc::{AllocError, Global};

/// A bag of spans, as the places where they begin and those where they end. Empty spans leave no mark.
#[derive(Drop)]
pub(crate) struct SpanBag {
    begins: NumberBag,
    ends: NumberBag,
}

impl SpanBag {
    /// No span. Takes no memory.
    pub(crate) fn empty(alloc: Global) -> Self
        ensures { AreMarks result.begins result.ends [] }
    {
        SpanBag {
            begins: NumberBag::empty(alloc),
            ends: NumberBag::empty(alloc),
        }
    }

    /// Takes all spans out.
    pub(crate) fn clear(&mut self)
        ensures { AreMarks self.new.begins self.new.ends [] }
    {
        self.begins.clear();
        self.ends.clear();
    }

    /// Whether the span shares a cell with one of these: as many of them begin before its end as end before its beginning, and those that share a cell with it.
    pub(crate) fn meets(&self, span: Span) -> bool
        ensures { (spans : List Span) → AreMarks self.now.begins self.now.ends spans → result ≡ shares_any spans span }
    {
        match interval_of(span) {
            Some(interval) => {
                self.begins.below(interval.end) != self.ends.below(interval.begin + 1)
            }
            None => false,
        }
    }

    /// Adds a span. After want of memory the bag has the spans that it had.
    pub(crate) fn add(&mut self, span: Span) -> Result<(), AllocError>
        ensures added { OnOk result ((spans : List Span) → AreMarks self.old.begins self.old.ends spans
            → AreMarks self.new.begins self.new.ends (span ∷ spans)) }
        ensures kept { OnErr result ((spans : List Span) → AreMarks self.old.begins self.old.ends spans → AreMarks self.new.begins self.new.ends spans) }
    {
        let Some(interval) = interval_of(span) else {
            return Ok(());
        };
        self.begins.add(interval.begin)?;
        let added = self.ends.add(interval.end);
        if added.is_err() {
            self.begins.remove(interval.begin);
        }
        added
    }

    /// Takes a span of the bag out, once.
    pub(crate) fn remove(&mut self, span: Span)
        ensures { (spans : List Span) → AreMarks self.old.begins self.old.ends (span ∷ spans) → AreMarks self.new.begins self.new.ends spans }
    {
        if let Some(interval) = interval_of(span) {
            self.begins.remove(interval.begin);
            self.ends.remove(interval.end);
        }
    }
}
