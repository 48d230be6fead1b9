//! The operands of a statement: their names and values, from left to right.

ghost use Rattle.std.specs.Prelude.{◌≡◌, Ok, Err, slice_index_or};
ghost use Rattle.task_unroll.specs.Unrolling.{Gives, at};
ghost use Rattle.task_unroll.specs.States.{scene};
ghost use Rattle.task_names.specs.Values.{value};
ghost use Rattle.task_unroll.specs.Operands.{bounded, span_of, spans_of, values_of, span_or_none, communicator_of, handles_of, peer_value, tag_value, peer_of, tag_of};

use crate::chosen::{PeerValue, TagValue};
use crate::refusal::{ExpandRefusal, at_line};
use crate::state::State;
use rt_base::{FaultKind, Handle, Name, Peer, Span, TagSel};
use std::alloc::Global;
use task_names::value;
use task_tree::{Expr, LineRefusal, PeerText, SpanText, TagText};

// The bounds of a span meet 0 <= from <= to <= length of the array.
#[tactic(auto, unfolding(crate::specs::Operands::bounded))]
fn bounded(array: u16, len: u32, from: i64, to: i64) -> Result<Span, FaultKind>
    ensures { result ≡ bounded array len from to }
{
    if from < 0 || to < from || (len as i64) < to {
        return Err(FaultKind::BadSpan);
    }
    Ok(Span {
        array,
        from: from as u32,
        to: to as u32,
    })
}

/// A rank is from 0 to size - 1 (MPI 4.0, 3.2.3).
pub(crate) fn peer_of(size: u16, peer: PeerValue) -> Result<Peer, FaultKind>
    ensures { result ≡ peer_of size peer }
{
    match peer {
        PeerValue::Number(number) => {
            if number < 0 || size as i64 <= number {
                return Err(FaultKind::BadRank);
            }
            Ok(Peer::Rank(number as u16))
        }
        PeerValue::Any => Ok(Peer::Any),
        PeerValue::Null => Ok(Peer::Null),
    }
}

/// A tag is from 0 to 32,767 (MPI 4.0, 3.2.3: the greatest tag is at least that).
pub(crate) fn tag_of(chosen: TagValue) -> Result<TagSel, FaultKind>
    ensures { result ≡ tag_of chosen }
{
    match chosen {
        TagValue::Number(number) => {
            if number < 0 || 32_767 < number {
                return Err(FaultKind::BadTag);
            }
            Ok(TagSel::Tag(number as u16))
        }
        TagValue::Any => Ok(TagSel::Any),
    }
}

impl State {
    /// The value of an expression.
    pub(crate) fn value(&self, alloc: Global, line: u32, e: &Expr) -> Result<i64, ExpandRefusal>
        ensures { Gives (λ x. x) result (at line (value (scene self.now) e.now)) }
    {
        match value(alloc, &self.scope, self.rank, self.size, e) {
            Ok(x) => Ok(x),
            Err(LineRefusal::Fault(kind)) => Err(ExpandRefusal::Fault { line, kind }),
            Err(LineRefusal::Memory) => Err(ExpandRefusal::Memory),
        }
    }

    // The length of the array of this number.
    fn len_of(&self, array: u16) -> u32
        ensures { result ≡ slice_index_or self.now.lens array 0 }
    {
        self.lens.get(array as usize).copied().unwrap_or(0)
    }

    /// The cells of a span: its array, its two bounds, and then whether they are in order.
    #[tactic(auto, unfolding(crate::specs::Operands::span_of), using(crate::proofs::LineChains::stopped, crate::proofs::LineChains::went_on))]
    pub(crate) fn span_of(
        &self,
        alloc: Global,
        line: u32,
        text: &SpanText,
    ) -> Result<Span, ExpandRefusal>
        ensures { Gives (λ span. span) result (at line (span_of self.now text.now)) }
    {
        let array = at_line(line, self.scope.array(&text.array))?;
        let from = self.value(alloc, line, &text.from)?;
        let to = self.value(alloc, line, &text.to)?;
        at_line(line, bounded(array, self.len_of(array), from, to))
    }

    /// Several spans, in order.
    #[tactic(auto, using(crate::proofs::Gathering::spans_first, crate::proofs::Gathering::next_gathered, crate::proofs::Gathering::fault_gathered, crate::proofs::Gathering::all_gathered))]
    pub(crate) fn spans_of(
        &self,
        alloc: Global,
        line: u32,
        texts: &[SpanText],
    ) -> Result<Vec<Span>, ExpandRefusal>
        ensures { Gives (λ spans. spans.items) result (at line (spans_of self.now texts.now)) }
    {
        let mut spans = Vec::new(alloc);
        for text in texts {
            spans.push(self.span_of(alloc, line, text)?)?;
        }
        Ok(spans)
    }

    /// The values of several expressions, in order.
    #[tactic(auto, using(crate::proofs::Gathering::values_first, crate::proofs::Gathering::next_gathered, crate::proofs::Gathering::fault_gathered, crate::proofs::Gathering::all_gathered))]
    pub(crate) fn values_of(
        &self,
        alloc: Global,
        line: u32,
        es: &[Expr],
    ) -> Result<Vec<i64>, ExpandRefusal>
        ensures { Gives (λ values. values.items) result (at line (values_of self.now es.now)) }
    {
        let mut values = Vec::new(alloc);
        for e in es {
            values.push(self.value(alloc, line, e)?)?;
        }
        Ok(values)
    }

    /// A span that may be left out.
    #[tactic(auto, using(crate::proofs::LineChains::stopped, crate::proofs::LineChains::went_on))]
    pub(crate) fn span_or_none(
        &self,
        alloc: Global,
        line: u32,
        text: &Option<SpanText>,
    ) -> Result<Option<Span>, ExpandRefusal>
        ensures { Gives (λ span. span) result (at line (span_or_none self.now text.now)) }
    {
        match text {
            None => Ok(None),
            Some(text) => Ok(Some(self.span_of(alloc, line, text)?)),
        }
    }

    /// The communicator behind `on`, and world where there is none (MPI 4.0, 7.2).
    pub(crate) fn communicator_of(&self, name: &Option<Name>) -> Result<u16, FaultKind>
        ensures { result ≡ communicator_of self.now name.now }
    {
        match name {
            None => Ok(0),
            Some(name) => self.scope.communicator(name),
        }
    }

    /// The handles that a wait names, in order.
    #[tactic(auto, using(crate::proofs::Gathering::handles_first, crate::proofs::Gathering::next_gathered, crate::proofs::Gathering::fault_gathered, crate::proofs::Gathering::all_gathered))]
    pub(crate) fn handles_of(
        &self,
        alloc: Global,
        line: u32,
        names: &[Name],
    ) -> Result<Vec<Handle>, ExpandRefusal>
        ensures { Gives (λ handles. handles.items) result (at line (handles_of self.now names.now)) }
    {
        let mut handles = Vec::new(alloc);
        for name in names {
            handles.push(at_line(line, self.scope.handle(name))?)?;
        }
        Ok(handles)
    }

    /// The value of a peer.
    #[tactic(auto, using(crate::proofs::LineChains::stopped, crate::proofs::LineChains::went_on))]
    pub(crate) fn peer_value(
        &self,
        alloc: Global,
        line: u32,
        peer: &PeerText,
    ) -> Result<PeerValue, ExpandRefusal>
        ensures { Gives (λ x. x) result (at line (peer_value self.now peer.now)) }
    {
        match peer {
            PeerText::At(e) => Ok(PeerValue::Number(self.value(alloc, line, e)?)),
            PeerText::Any => Ok(PeerValue::Any),
            PeerText::Null => Ok(PeerValue::Null),
        }
    }

    /// The value of a tag.
    #[tactic(auto, using(crate::proofs::LineChains::stopped, crate::proofs::LineChains::went_on))]
    pub(crate) fn tag_value(
        &self,
        alloc: Global,
        line: u32,
        tag: &TagText,
    ) -> Result<TagValue, ExpandRefusal>
        ensures { Gives (λ x. x) result (at line (tag_value self.now tag.now)) }
    {
        match tag {
            TagText::At(e) => Ok(TagValue::Number(self.value(alloc, line, e)?)),
            TagText::Any => Ok(TagValue::Any),
        }
    }
}
