//! Statuses: those of handles, told, and stored in the copy of their task.

ghost use Rattle.std.specs.Prelude.{◌≡◌, ◌+◌, ◌≤◌, ◌∷◌, [], ◌++◌, length, vec_capacity};
ghost use Rattle.rt_base.specs.Operations.{named_requests};
ghost use Rattle.rt_base.specs.MayMove.{AreComplete};
ghost use Rattle.rt_base.specs.WellFormed.{WellFormed};
ghost use Rattle.task_local.specs.Standing.{def};
ghost use Rattle.task_local.specs.Waits.{behind_status, put_status, put_statuses, status_cells, status_of, statuses_of};
ghost use Rattle.wait_steps.specs.StatusSpans.{HasPlaces, HasFront};

use crate::room::note;
use match_engine::Engine;
use rt_base::{Handle, Program, ReqNo, Span, Status, TaskNo};
use task_local::TaskRec;

/// Appends the status of each handle, in order; that of a null handle is the empty one (MPI 4.0, 3.7.3). Takes no memory. Time grows with the
/// handles.
pub fn tell_each(
    statuses: &mut Vec<Status>,
    engine: &Engine,
    prog: &Program,
    task: TaskNo,
    handles: &[Handle],
)
    requires of_program { prog.now ≡ engine.now.program }
    requires complete { AreComplete engine.now.program engine.now.exchange (named_requests task.0 handles.now) }
    requires room { length statuses.old.items + length handles.now ≤ vec_capacity statuses.old }
    ensures items { statuses.new.items ≡ statuses.old.items ++ statuses_of engine.now.program engine.now.exchange task.0 handles.now }
    ensures places { vec_capacity statuses.old ≤ vec_capacity statuses.new }
{
    for handle in handles {
        note(statuses, status_of(engine, prog, task, *handle));
    }
}

/// Stores statuses one behind another, four cells each, from the front of a status span, where there is one. Time grows with the statuses.
pub fn store_statuses(rec: &mut TaskRec, prog: &Program, span: Option<Span>, statuses: &[Status])
    requires well_formed { WellFormed prog.now }
    requires same { prog.now ≡ rec.old.program }
    requires declared { HasPlaces (def rec.old) span (length statuses.now) }
    ensures { rec.new ≡ record rec.old { copy = put_statuses (def rec.old) span statuses.now rec.old.copy } }
{
    let mut rest = span;
    for status in statuses {
        store_status(rec, prog, rest, *status);
        rest = behind_status(rest);
    }
}

// The status of what a handle names.
pub(crate) fn status_of(engine: &Engine, prog: &Program, task: TaskNo, handle: Handle) -> Status
    requires of_program { prog.now ≡ engine.now.program }
    requires complete { AreComplete engine.now.program engine.now.exchange (named_requests task.0 (handle ∷ [])) }
    ensures { result ≡ status_of engine.now.program engine.now.exchange task.0 handle }
{
    match handle {
        Handle::Null => Status {
            source: -1,
            tag: -1,
            count: 0,
            error: 0,
        },
        Handle::Nth(nth) => engine.status(prog, ReqNo { task, nth }),
    }
}

// Stores a status at the front of a status span, where there is one.
pub(crate) fn store_status(rec: &mut TaskRec, prog: &Program, span: Option<Span>, status: Status)
    requires well_formed { WellFormed prog.now }
    requires same { prog.now ≡ rec.old.program }
    requires declared { HasPlaces (def rec.old) span 1 }
    ensures { rec.new ≡ record rec.old { copy = put_status (def rec.old) span status rec.old.copy } }
{
    if let Some(cells) = span {
        rec.store(prog, cells, &cells_of_status(status));
    }
}

// The status span behind its first status.
pub(crate) fn behind_status(span: Option<Span>) -> Option<Span>
    requires { HasFront span }
    ensures { result ≡ behind_status span }
{
    match span {
        None => None,
        Some(cells) => Some(Span {
            array: cells.array,
            from: cells.from + 4,
            to: cells.to,
        }),
    }
}

// A status as cells: source, tag, count, error.
fn cells_of_status(status: Status) -> [i64; 4]
    ensures { result ≡ status_cells status }
{
    [
        i64::from(status.source),
        i64::from(status.tag),
        i64::from(status.count),
        i64::from(status.error),
    ]
}
