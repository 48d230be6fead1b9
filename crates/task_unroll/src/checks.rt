//! What is tested of one statement, in this order.

ghost use Rattle.std.specs.Prelude.{◌≡◌, ◌*◌, false, nat_eq, OnOk, [], ◌∷◌, ◌++◌, option_to_list};
ghost use Rattle.std.specs.List.{list_all, list_any};
ghost use Rattle.std.specs.Str.{bytes_eq};
ghost use Rattle.rt_base.specs.declared.data.Access.{Access};
ghost use Rattle.rt_base.specs.declared.data.FaultKind.TheVariants as fault;
ghost use Rattle.rt_base.specs.InUse.{is_in_use};
ghost use Rattle.rt_base.specs.Touched.{reads, writes, shares_any, is_declared, is_writable};
ghost use Rattle.rt_base.specs.WellFormed.{cells_sent};
ghost use Rattle.task_unroll.specs.Checks.{check, no_handle, passed, differs, has_wrong_length, has_bad_shift, has_no_source, form_checks, access_checks, op_checks, stands_twice};
ghost use Rattle.task_unroll.specs.Acts.{call_checks, is_any_peer, is_any_tag, handle_check};

use crate::kernel_calls::{differs, has_bad_shift, has_no_source, has_wrong_length};
use crate::state::State;
use cell_spans::Declared;
use rt_base::{FaultKind, How, Kernel, Name, Op, Span};
use task_names::Meaning;
use task_tree::{PeerText, SpanText, TagText};

/// The test of a statement's handles: its kind of fault, and whether it stands here.
#[derive(Clone, Copy, Debug)]
pub(crate) struct HandleCheck {
    pub(crate) kind: FaultKind,
    pub(crate) finds: bool,
}

/// No handle.
pub(crate) fn no_handle() -> HandleCheck
    ensures { check result.kind result.finds ≡ no_handle }
{
    HandleCheck {
        kind: FaultKind::RequestTwice,
        finds: false,
    }
}

/// The cells that an operation sends.
pub(crate) fn cells_sent(operation: &Op) -> u32
    ensures { result ≡ cells_sent operation.now }
{
    match operation {
        Op::Post {
            how,
            span,
            peer: _,
            tag: _,
            comm: _,
            status: _,
        } if !how.is_receive() => span.len(),
        _ => 0,
    }
}

// Whether each cell of a span lies in an access, where there is a span.
fn is_declared_or_none(declared: &Declared, span: Option<Span>) -> bool
    ensures { result ≡ list_all (is_declared declared.now) (option_to_list span) }
{
    match span {
        None => true,
        Some(span) => declared.is_declared(span),
    }
}

// Whether each cell of a span lies in an access that may be written, where there is a span.
fn is_writable_or_none(declared: &Declared, span: Option<Span>) -> bool
    ensures { result ≡ list_all (is_writable declared.now) (option_to_list span) }
{
    match span {
        None => true,
        Some(span) => declared.is_writable(span),
    }
}

// Whether each cell that the operation touches lies in an access.
fn touches_declared(declared: &Declared, operation: &Op) -> bool
    ensures { result ≡ list_all (is_declared declared.now) (writes declared.now operation.now ++ reads declared.now operation.now) }
{
    match operation {
        Op::Compute {
            kernel: _,
            dst,
            left,
            right,
            value: _,
            step: _,
        } => {
            declared.is_declared(*dst)
                && is_declared_or_none(declared, *left)
                && is_declared_or_none(declared, *right)
        }
        Op::Post {
            how: _,
            span,
            peer: _,
            tag: _,
            comm: _,
            status,
        } => declared.is_declared(*span) && is_declared_or_none(declared, *status),
        Op::Await {
            later: _,
            handles: _,
            status,
        } => is_declared_or_none(declared, *status),
    }
}

// Whether each cell that the operation writes lies in an access that may be written.
fn writes_writable(declared: &Declared, operation: &Op) -> bool
    ensures { result ≡ list_all (is_writable declared.now) (writes declared.now operation.now) }
{
    match operation {
        Op::Compute {
            kernel: _,
            dst,
            left: _,
            right: _,
            value: _,
            step: _,
        } => declared.is_writable(*dst),
        Op::Post {
            how,
            span,
            peer: _,
            tag: _,
            comm: _,
            status,
        } => {
            (!how.is_receive() || declared.is_writable(*span))
                && is_writable_or_none(declared, *status)
        }
        Op::Await {
            later: _,
            handles: _,
            status,
        } => is_writable_or_none(declared, *status),
    }
}

// The tests of a kernel's lengths and numbers.
fn kernel_is_formed(
    kernel: Kernel,
    dst: Span,
    left: Option<Span>,
    right: Option<Span>,
    value: i64,
) -> Result<(), FaultKind>
    ensures { result ≡ passed (check fault.LengthMismatch (has_wrong_length kernel dst left right) ∷ check fault.BadShift (has_bad_shift kernel value)
        ∷ check fault.EmptySource (has_no_source kernel left) ∷ []) }
{
    if has_wrong_length(kernel, dst, left, right) {
        return Err(FaultKind::LengthMismatch);
    }
    if has_bad_shift(kernel, value) {
        return Err(FaultKind::BadShift);
    }
    if has_no_source(kernel, left) {
        return Err(FaultKind::EmptySource);
    }
    Ok(())
}

// Four cells a status.
fn status_is_formed(statuses: usize, status: Option<Span>) -> Result<(), FaultKind>
    ensures { result ≡ passed (check fault.StatusLength (differs (4 * statuses) status) ∷ []) }
{
    if differs(4 * statuses as u128, status) {
        return Err(FaultKind::StatusLength);
    }
    Ok(())
}

// The tests of the operation's form.
fn is_formed(operation: &Op) -> Result<(), FaultKind>
    ensures { result ≡ passed (form_checks operation.now) }
{
    match operation {
        Op::Compute {
            kernel,
            dst,
            left,
            right,
            value,
            step: _,
        } => kernel_is_formed(*kernel, *dst, *left, *right, *value),
        Op::Post {
            how: _,
            span: _,
            peer: _,
            tag: _,
            comm: _,
            status,
        } => status_is_formed(1, *status),
        Op::Await {
            later: _,
            handles,
            status,
        } => status_is_formed(handles.len(), *status),
    }
}

// The number is one of these.
fn is_among(number: u16, numbers: &[u16]) -> bool
    ensures { result ≡ list_any (nat_eq number) numbers.now }
{
    numbers.iter().any(|other| number == *other)
}

// The name stands among these.
fn stands_in(name: &Name, names: &[Name]) -> bool
    ensures { result ≡ list_any (bytes_eq name.now) names.now }
{
    names.iter().any(|other| *name == *other)
}

/// A name stands twice among these.
pub(crate) fn stands_twice(names: &[Name]) -> bool
    ensures { result ≡ stands_twice names.now }
{
    let mut rest = names;
    while let [name, behind @ ..] = rest {
        if stands_in(name, behind) {
            return true;
        }
        rest = behind;
    }
    false
}

// Whether a peer is any.
fn is_any_peer(peer: &PeerText) -> bool
    ensures { result ≡ is_any_peer peer.now }
{
    match peer {
        PeerText::Any => true,
        _ => false,
    }
}

// Whether a tag is any.
fn is_any_tag(tag: &TagText) -> bool
    ensures { result ≡ is_any_tag tag.now }
{
    match tag {
        TagText::Any => true,
        TagText::At(_) => false,
    }
}

/// Whether a call has a handle, whom it may name, and whether it may have a status, as in each text that was read.
pub(crate) fn call_is_formed(
    how: How,
    handle: &Option<Name>,
    peer: &PeerText,
    tag: &TagText,
    status: &Option<SpanText>,
) -> Result<(), FaultKind>
    ensures { result ≡ passed (call_checks how handle.now peer.now tag.now status.now) }
{
    if how.blocks() == handle.is_some() {
        return Err(FaultKind::Shape);
    }
    if !how.is_receive() && (is_any_peer(peer) || is_any_tag(tag)) {
        return Err(FaultKind::Shape);
    }
    if !(how.is_receive() && how.blocks()) && status.is_some() {
        return Err(FaultKind::Shape);
    }
    Ok(())
}

impl State {
    // The tests that come behind those of the accesses.
    #[tactic(auto, using(crate::proofs::Testing::passed_on, crate::proofs::Testing::passed_not))]
    fn tested_within(&self, handles: HandleCheck, operation: &Op) -> Result<(), FaultKind>
        ensures { result ≡ passed (form_checks operation.now ++ check handles.kind handles.finds
            ∷ check fault.InUse (is_in_use self.now.accesses self.now.body operation.now) ∷ []) }
    {
        match is_formed(operation) {
            Ok(()) => {}
            Err(kind) => return Err(kind),
        }
        if handles.finds {
            return Err(handles.kind);
        }
        if self.body.is_in_use(operation) {
            return Err(FaultKind::InUse);
        }
        Ok(())
    }

    /// The tests of an operation behind others of its body.
    pub(crate) fn tested(&self, handles: HandleCheck, operation: &Op) -> Result<(), FaultKind>
        ensures { result ≡ passed (op_checks self.now.accesses self.now.body (check handles.kind handles.finds) operation.now) }
    {
        if !touches_declared(&self.accesses, operation) {
            return Err(FaultKind::NotDeclared);
        }
        if !writes_writable(&self.accesses, operation) {
            return Err(FaultKind::NotWritable);
        }
        self.tested_within(handles, operation)
    }

    /// An access shares no cell with those before it.
    pub(crate) fn is_apart(&self, span: Span) -> Result<(), FaultKind>
        ensures passed { result ≡ passed (access_checks self.now.accesses span) }
        ensures apart { OnOk result (list_any (λ (access : Access). shares_any (access.span ∷ []) span) self.now.accesses ≡ false) }
    {
        if self.accesses.overlaps(span) {
            return Err(FaultKind::AccessOverlap);
        }
        Ok(())
    }

    /// An array is shown once.
    pub(crate) fn is_shown_first(&self, array: u16) -> Result<(), FaultKind>
        ensures { result ≡ passed (check fault.NameTaken (list_any (nat_eq array) self.now.shows) ∷ []) }
    {
        if is_among(array, &self.shows) {
            return Err(FaultKind::NameTaken);
        }
        Ok(())
    }

    /// Whether a handle that is to be posted is posted, and no wait has named it.
    pub(crate) fn handle_check(&self, handle: &Option<Name>) -> HandleCheck
        ensures { check result.kind result.finds ≡ handle_check self.now handle.now }
    {
        match handle {
            None => no_handle(),
            Some(name) => HandleCheck {
                kind: FaultKind::RequestBusy,
                finds: matches!(self.scope.get(name), Some(Meaning::Posted(_))),
            },
        }
    }
}
