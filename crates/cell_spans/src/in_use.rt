//! The requests of a body and the spans in use.

ghost use Rattle.std.specs.Prelude.{◌≡◌, ◌<◌, Bool, false, not, ◌&&◌, ◌||◌, List, [], ◌∷◌, ◌++◌, length, option_to_list, OnOk, OnErr, IfSome, slice_get, if◌then◌else◌};
ghost use Rattle.std.specs.List.{list_any};
ghost use Rattle.rt_base.specs.declared.data.Op.{Op};
ghost use Rattle.rt_base.specs.declared.data.Access.{Access};
ghost use Rattle.rt_base.specs.declared.data.Span.{Span};
ghost use Rattle.rt_base.specs.Operations.{postings, given};
ghost use Rattle.rt_base.specs.Touched.{shares, shares_any};
ghost use Rattle.rt_base.specs.InUse.{is_in_use, left_after, received_after, sent_after, bound_statuses};
ghost use Rattle.cell_spans.specs.Marks.{AreMarks};
ghost use Rattle.cell_spans.specs.Requests.{noted, noted_at, noted_by, noted_by_all, unnamed, HasSpans, Holds};

use crate::span_bag::SpanBag;
use rt_base::{Handle, Op, Span};
use std::alloc::{AllocError, Global};

/// What is kept of a request: its span, whether it is a receive, whether the span is in use, and whether it was waited for or a wait named it.
#[derive(Clone, Copy, Debug)]
pub(crate) struct Request {
    span: Span,
    receives: bool,
    used: bool,
    named: bool,
}

/// The requests of a body by number, and the spans in use: those of receives under way with the status spans of waits that only bound their requests, and
/// those of sends under way.
#[derive(Drop)]
pub(crate) struct SpansInUse {
    requests: Vec<Request>,
    received: SpanBag,
    sent: SpanBag,
}

// Whether the spans share a cell.
fn shares(one: Span, other: Span) -> bool
    ensures { result ≡ shares one other }
{
    one.array == other.array && one.from.max(other.from) < one.to.min(other.to)
}

impl SpansInUse {
    /// The table of a body without operations. Takes no memory.
    pub(crate) fn empty(alloc: Global) -> Self
        ensures { Holds result [] }
    {
        SpansInUse {
            requests: Vec::new(alloc),
            received: SpanBag::empty(alloc),
            sent: SpanBag::empty(alloc),
        }
    }

    /// Goes back to a body without operations.
    pub(crate) fn clear(&mut self)
        ensures { Holds self.new [] }
    {
        self.requests.clear();
        self.received.clear();
        self.sent.clear();
    }

    /// How many requests the operations posted.
    pub(crate) fn requests(&self) -> usize
        ensures { (earlier : List Op) → Holds self.now earlier → result ≡ postings earlier }
    {
        self.requests.len()
    }

    /// The first request that nothing waited for and no wait named.
    pub(crate) fn left(&self) -> Option<usize>
        ensures first { (earlier : List Op) → Holds self.now earlier → result ≡ slice_get (left_after 0 earlier) 0 }
        ensures posted { (earlier : List Op) → Holds self.now earlier → IfSome result (λ n. n < postings earlier) }
    {
        first_unnamed(&self.requests)
    }

    // Whether the span shares a cell with one in use for reading.
    fn is_received(&self, span: Span) -> bool
        ensures { (earlier : List Op) → Holds self.now earlier → result ≡ shares_any (received_after earlier ++ bound_statuses earlier) span }
    {
        self.received.meets(span)
    }

    // Whether the span shares a cell with one of a send.
    fn is_sent(&self, span: Span) -> bool
        ensures { (earlier : List Op) → Holds self.now earlier → result ≡ shares_any (sent_after earlier) span }
    {
        self.sent.meets(span)
    }

    // The same of a span that there may be.
    fn any_received(&self, span: Option<Span>) -> bool
        ensures { (earlier : List Op) → Holds self.now earlier
            → result ≡ list_any (shares_any (received_after earlier ++ bound_statuses earlier)) (option_to_list span) }
    {
        match span {
            Some(span) => self.is_received(span),
            None => false,
        }
    }

    fn any_sent(&self, span: Option<Span>) -> bool
        ensures { (earlier : List Op) → Holds self.now earlier → result ≡ list_any (shares_any (sent_after earlier)) (option_to_list span) }
    {
        match span {
            Some(span) => self.is_sent(span),
            None => false,
        }
    }

    /// Whether this operation, as the next one, would read a cell in use for reading, or write one in use for writing, whatever the accesses of the task.
    #[tactic(auto, using(crate::proofs::RequestLemmas::any_append), unfolding(rt_base::specs::InUse::is_in_use))]
    pub(crate) fn is_in_use(&self, operation: &Op) -> bool
        ensures { (accesses : List Access) (earlier : List Op) → Holds self.now earlier → result ≡ is_in_use accesses earlier operation.now }
    {
        match operation {
            Op::Compute {
                dst,
                left,
                right,
                ..
            } => {
                self.any_received(*left)
                    || self.any_received(*right)
                    || self.is_received(*dst)
                    || self.is_sent(*dst)
            }
            Op::Post {
                how,
                span,
                status,
                ..
            } => {
                self.is_received(*span)
                    || self.any_received(*status)
                    || (how.is_receive() && self.is_sent(*span))
                    || self.any_sent(*status)
                    || shares_status(*span, *status)
            }
            Op::Await { status, .. } => self.any_received(*status) || self.any_sent(*status),
        }
    }

    // Puts the span of the request into its bag, if it is in use. After want of memory the bags have what they had.
    fn hold(&mut self, request: Request) -> Result<(), AllocError>
        ensures requests { self.new.requests ≡ self.old.requests }
        ensures received { OnOk result ((spans : List Span) → AreMarks self.old.received.begins self.old.received.ends spans
            → AreMarks self.new.received.begins self.new.received.ends (if request.used && request.receives then request.span ∷ spans else spans)) }
        ensures sent { OnOk result ((spans : List Span) → AreMarks self.old.sent.begins self.old.sent.ends spans
            → AreMarks self.new.sent.begins self.new.sent.ends (if request.used && not request.receives then request.span ∷ spans else spans)) }
        ensures received_kept { OnErr result ((spans : List Span) → AreMarks self.old.received.begins self.old.received.ends spans
            → AreMarks self.new.received.begins self.new.received.ends spans) }
        ensures sent_kept { OnErr result ((spans : List Span) → AreMarks self.old.sent.begins self.old.sent.ends spans
            → AreMarks self.new.sent.begins self.new.sent.ends spans) }
    {
        if !request.used {
            return Ok(());
        }
        if request.receives {
            self.received.add(request.span)
        } else {
            self.sent.add(request.span)
        }
    }

    // Takes the span of the request out of its bag, if it is in use.
    fn release(&mut self, request: Request)
        ensures requests { self.new.requests ≡ self.old.requests }
        ensures received { (spans : List Span)
            → AreMarks self.old.received.begins self.old.received.ends (if request.used && request.receives then request.span ∷ spans else spans)
            → AreMarks self.new.received.begins self.new.received.ends spans }
        ensures sent { (spans : List Span)
            → AreMarks self.old.sent.begins self.old.sent.ends (if request.used && not request.receives then request.span ∷ spans else spans)
            → AreMarks self.new.sent.begins self.new.sent.ends spans }
    {
        if !request.used {
            return;
        }
        if request.receives {
            self.received.remove(request.span);
        } else {
            self.sent.remove(request.span);
        }
    }

    // Adds a request. After want of memory the table is as it was.
    fn post(&mut self, request: Request) -> Result<(), AllocError>
        ensures requests { OnOk result (self.new.requests.items ≡ self.old.requests.items ++ request ∷ []) }
        ensures spans { OnOk result ((statuses : List Span) → HasSpans self.old statuses → HasSpans self.new statuses) }
        ensures unchanged { OnErr result (self.new.requests.items ≡ self.old.requests.items) }
        ensures kept { OnErr result ((statuses : List Span) → HasSpans self.old statuses → HasSpans self.new statuses) }
    {
        self.requests.try_reserve(1)?;
        self.hold(request)?;
        match self.requests.push(request) {
            Ok(()) => Ok(()),
            Err(_) => unreachable!(),
        }
    }

    // A wait, or one that only binds, names this request.
    fn note_at(&mut self, later: bool, n: usize)
        requires { n < length self.old.requests.items }
        ensures requests { self.new.requests.items ≡ noted_at later n self.old.requests.items }
        ensures spans { (statuses : List Span) → HasSpans self.old statuses → HasSpans self.new statuses }
    {
        let request = self.requests[n];
        if later {
            self.requests[n] = noted(later, request);
        } else {
            self.release(request);
            self.requests[n] = noted(later, request);
        }
    }

    // The same of what a handle names.
    fn note(&mut self, later: bool, named: Handle)
        ensures requests { self.new.requests.items ≡ noted_by later named self.old.requests.items }
        ensures spans { (statuses : List Span) → HasSpans self.old statuses → HasSpans self.new statuses }
    {
        let Handle::Nth(n) = named else {
            return;
        };
        if (n as usize) < self.requests.len() {
            self.note_at(later, n as usize);
        }
    }

    // The same for each of these.
    fn note_all(&mut self, later: bool, handles: &[Handle])
        ensures requests { self.new.requests.items ≡ noted_by_all later handles.now self.old.requests.items }
        ensures spans { (statuses : List Span) → HasSpans self.old statuses → HasSpans self.new statuses }
    {
        for handle in handles {
            self.note(later, *handle);
        }
    }

    // The status span of a wait that only binds its requests is in use from now on. After want of memory the bags have what they had.
    fn bind(&mut self, status: Option<Span>) -> Result<(), AllocError>
        ensures requests { self.new.requests ≡ self.old.requests }
        ensures spans { OnOk result ((statuses : List Span) → HasSpans self.old statuses → HasSpans self.new (statuses ++ option_to_list status)) }
        ensures kept { OnErr result ((statuses : List Span) → HasSpans self.old statuses → HasSpans self.new statuses) }
    {
        if let Some(span) = status {
            self.received.add(span)?;
        }
        Ok(())
    }

    // Requests are waited for, or bound to the task.
    fn wait(
        &mut self,
        later: bool,
        handles: &[Handle],
        status: Option<Span>,
    ) -> Result<(), AllocError>
        ensures requests { OnOk result (self.new.requests.items ≡ noted_by_all later handles.now self.old.requests.items) }
        ensures spans { OnOk result ((statuses : List Span) → HasSpans self.old statuses
            → HasSpans self.new (statuses ++ (if later then option_to_list status else []))) }
        ensures unchanged { OnErr result (self.new.requests.items ≡ self.old.requests.items) }
        ensures kept { OnErr result ((statuses : List Span) → HasSpans self.old statuses → HasSpans self.new statuses) }
    {
        if later {
            self.bind(status)?;
            self.note_all(later, handles);
            return Ok(());
        }
        self.note_all(later, handles);
        Ok(())
    }

    /// Takes note of the next operation. After want of memory the table stands where it stood.
    pub(crate) fn after(&mut self, operation: &Op) -> Result<(), AllocError>
        ensures added { OnOk result ((earlier : List Op) → Holds self.old earlier → Holds self.new (earlier ++ operation.now ∷ [])) }
        ensures kept { OnErr result ((earlier : List Op) → Holds self.old earlier → Holds self.new earlier) }
    {
        match operation {
            Op::Compute { .. } => Ok(()),
            Op::Post { how, span, .. } => {
                self.post(Request {
                    span: *span,
                    receives: how.is_receive(),
                    used: !how.blocks(),
                    named: how.blocks(),
                })?;
                Ok(())
            }
            Op::Await {
                later,
                handles,
                status,
            } => {
                self.wait(*later, handles.as_slice(), *status)?;
                Ok(())
            }
        }
    }
}

// The request after a wait, or one that only binds, named it.
fn noted(later: bool, request: Request) -> Request
    ensures { result ≡ noted later request }
{
    Request {
        used: request.used && later,
        named: true,
        ..request
    }
}

// The first request that nothing waited for and no wait named.
fn first_unnamed(requests: &[Request]) -> Option<usize>
    ensures first { result ≡ slice_get (unnamed 0 requests.now) 0 }
    ensures posted { IfSome result (λ n. n < length requests.now) }
{
    for (n, request) in requests.iter().enumerate() {
        if !request.named {
            return Some(n);
        }
    }
    None
}

// Whether a receive's own status lies on its span.
fn shares_status(span: Span, status: Option<Span>) -> bool
    ensures { result ≡ given false (shares span) status }
{
    match status {
        Some(status) => shares(span, status),
        None => false,
    }
}
