//! Who is told that a request became complete.

ghost use Rattle.std.specs.Prelude.{◌≡◌, ◌≤◌, ◌<◌, ◌+◌, ◌++◌, true, ℕ, length, slice_get, Some, IfSome};
ghost use Rattle.std.specs.List.{list_any};
ghost use Rattle.std.specs.VecDeque.{deque_capacity};
ghost use Rattle.rt_base.specs.Completion.{is_complete};
ghost use Rattle.rt_base.specs.Matching.{same_request};
ghost use Rattle.rt_base.specs.Operations.{awaited, named_requests, nth_at, request};
ghost use Rattle.wait_steps.specs.MarkedRows.{is_marked};
ghost use Rattle.book_counts.specs.Counted.{IsNumbered, awaits_now, is_returned, holds_now, expects_now, completed_now, one_less_for, told_requests};

use crate::counts::Counts;
use crate::posted::Posted;
use match_engine::Engine;
use rt_base::{Handle, Op, Phase, Program, ReqNo, TaskDef, TaskNo};
use std::collections::VecDeque;
use wait_steps::Marks;

// Whether a task in one of these phases awaits the request. Looks at the handles of the wait in which the task is, if it is in one.
fn is_awaited(prog: &Program, phases: &[Phase], posted: &Posted, req: ReqNo) -> bool
    requires phases { length phases.now ≡ length prog.now.tasks.items }
    requires numbered { IsNumbered prog.now phases.now posted.now }
    ensures { result ≡ awaits_now prog.now phases.now req }
{
    if req.task.0 as usize >= phases.len() {
        return false;
    }
    match phases[req.task.0 as usize] {
        Phase::Waiting => false,
        Phase::At(_) => false,
        Phase::In(k) => is_awaited_in(task_of(prog, req.task), k, posted, req),
        Phase::Ended => false,
        Phase::Returned => false,
        Phase::Released => false,
    }
}

// The task of this number.
fn task_of(prog: &Program, task: TaskNo) -> &TaskDef
    requires { task.0 < length prog.now.tasks.items }
    ensures { slice_get prog.now.tasks.items task.0 ≡ Some result.now }
{
    &prog.tasks.as_slice()[task.0 as usize]
}

// Whether its task awaits the request in operation k.
fn is_awaited_in(def: &TaskDef, k: u32, posted: &Posted, req: ReqNo) -> bool
    requires { slice_get posted.now req.task.0 ≡ Some (nth_at def.now (k + 1)) }
    ensures { result ≡ list_any (same_request req) (awaited req.task.0 def.now k) }
{
    if k as usize >= def.body.len() {
        return false;
    }
    match &def.body.as_slice()[k as usize] {
        Op::Compute { .. } => false,
        Op::Post { how, .. } => how.blocks() && posted.last(req.task) == req.nth,
        Op::Await { handles, .. } => is_named(handles.as_slice(), req.nth),
    }
}

// Whether one of the handles names the nth posting.
fn is_named(handles: &[Handle], nth: u32) -> bool
    ensures { (t : ℕ) → result ≡ list_any (same_request (request t nth)) (named_requests t handles.now) }
{
    for handle in handles {
        if *handle == Handle::Nth(nth) {
            return true;
        }
    }
    false
}

// Whether the task of the request has returned.
fn is_returned(phases: &[Phase], req: ReqNo) -> bool
    ensures { result ≡ is_returned (slice_get phases.now req.task.0) }
{
    match phases.get(req.task.0 as usize) {
        None => false,
        Some(Phase::Waiting) => false,
        Some(Phase::At(_)) => false,
        Some(Phase::In(_)) => false,
        Some(Phase::Ended) => false,
        Some(Phase::Returned) => true,
        Some(Phase::Released) => false,
    }
}

/// Who is told that a request became complete: whether its task has bound it, and whether the task waited for it before its next move.
#[derive(Clone, Copy)]
pub struct Told {
    pub req: ReqNo,
    pub bound: bool,
    pub waited: bool,
}

/// The request that a posting completed beside its own, where it was incomplete before and its task has bound or awaits it.
pub fn who_is_told(
    engine: &Engine,
    prog: &Program,
    phases: &[Phase],
    posted: &Posted,
    marks: &Marks,
    partner: Option<ReqNo>,
) -> Option<Told>
    requires same { engine.now.program ≡ prog.now }
    requires phases { length phases.now ≡ length prog.now.tasks.items }
    requires numbered { IsNumbered prog.now phases.now posted.now }
    requires complete { IfSome partner (λ other. is_complete engine.now.program engine.now.exchange other ≡ true) }
    ensures told { told_requests (λ told. true) result ≡ completed_now prog.now (expects_now prog.now phases.now marks.now) partner }
    ensures bound { told_requests (λ told. told.bound) result ≡ completed_now prog.now (is_marked marks.now) partner }
    ensures waited { told_requests (λ told. told.waited) result ≡ completed_now prog.now (holds_now prog.now phases.now marks.now) partner }
{
    let req = partner?;
    if engine.completes_alone(req) {
        return None;
    }
    let bound = marks.has(req);
    let awaited = is_awaited(prog, phases, posted, req);
    if bound || awaited {
        Some(Told {
            req,
            bound,
            waited: awaited || (bound && is_returned(phases, req)),
        })
    } else {
        None
    }
}

/// Appends the notice of what was told, where there is any.
pub fn tell(notices: &mut VecDeque<ReqNo>, told: Option<Told>)
    requires room { length notices.old.items + length (told_requests (λ told. true) told) ≤ deque_capacity notices.old }
    ensures items { notices.new.items ≡ notices.old.items ++ told_requests (λ told. true) told }
    ensures places { deque_capacity notices.old ≤ deque_capacity notices.new }
{
    if let Some(found) = told {
        match notices.push_back(found.req) {
            Ok(()) => {}
            Err(_) => unreachable!(),
        }
    }
}

/// One less for the task that was told of a request which it has bound.
pub fn lower_bound(incomplete: &mut Counts, told: Option<Told>)
    requires { IfSome told (λ found. found.req.task.0 < length incomplete.old) }
    ensures { incomplete.new ≡ one_less_for incomplete.old (told_requests (λ found. found.bound) told) }
{
    if let Some(found) = told {
        if found.bound {
            incomplete.lower(found.req.task.0);
        }
    }
}

/// One less for the task that was told of a request for which it waited.
pub fn lower_waited(waits: &mut Counts, told: Option<Told>)
    requires { IfSome told (λ found. found.req.task.0 < length waits.old) }
    ensures { waits.new ≡ one_less_for waits.old (told_requests (λ found. found.waited) told) }
{
    if let Some(found) = told {
        if found.waited {
            waits.lower(found.req.task.0);
        }
    }
}
