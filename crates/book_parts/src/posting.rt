//! The postings of a body, and what they do to the engine and the statuses.

ghost use Rattle.std.specs.Prelude.{◌≡◌, ◌≤◌, ◌<◌, ◌+◌, ◌-◌, ◌^◌, ◌++◌, [], ◌∷◌, true, false, not, ◌&&◌, length, map, slice_get, slice_set, slice_index_or};
ghost use Rattle.std.specs.Prelude.{vec_capacity, Some, IfNone, IfSome, if◌then◌else◌, ℕ};
ghost use Rattle.std.specs.List.{list_any};
ghost use Rattle.rt_base.specs.Matching.{same_request};
ghost use Rattle.rt_base.specs.declared.data.Phase.TheVariants as phase;
ghost use Rattle.rt_base.specs.declared.data.Op.TheVariants as op;
ghost use Rattle.rt_base.specs.Operations.{awaited, blocks, is_receive, named_requests, nth_at, posting_of, request};
ghost use Rattle.rt_base.specs.Exchange.{post, partner};
ghost use Rattle.rt_base.specs.Completion.{is_posted, is_complete, completes_alone, request_status};
ghost use Rattle.match_engine.specs.Requests.{IsSend, IsReceive};
ghost use Rattle.task_local.specs.Local.{stop};
ghost use Rattle.task_local.specs.Standing.{phase_before};
ghost use Rattle.book_parts.specs.Kept.{PostsAs, is_posting_at, told_now};

use crate::tasks::{phase_before, stop};
use match_engine::Engine;
use rt_base::{Cells, How, Op, Phase, Program, ReqNo, Span, Status, TaskDef};
use wait_steps::note;

/// A posting of a body: how it is posted, its span, and where its status goes.
#[derive(Clone, Copy)]
pub struct Posting {
    pub how: How,
    pub span: Span,
    pub status: Option<Span>,
}

/// The posting that is operation k, where it is one.
pub fn posting_at(def: &TaskDef, k: u32) -> Option<Posting>
    ensures posting { IfSome result (λ posting. PostsAs (slice_get def.now.body.items k) posting) }
    ensures other { IfNone result (is_posting_at (slice_get def.now.body.items k) ≡ false) }
{
    match def.body.get(k as usize)? {
        Op::Compute { .. } => None,
        Op::Post {
            how,
            span,
            status,
            ..
        } => Some(Posting {
            how: *how,
            span: *span,
            status: *status,
        }),
        Op::Await { .. } => None,
    }
}

/// Posts the request, and answers the other request that it completed.
pub fn post(
    engine: &mut Engine,
    prog: &Program,
    req: ReqNo,
    how: How,
    cells: Cells,
) -> Option<ReqNo>
    requires program { prog.now ≡ engine.old.program }
    requires send { is_receive how ≡ false → IsSend engine.old.program req (length cells.items) }
    requires receive { is_receive how ≡ true → IsReceive engine.old.program req × (cells.items ≡ []) }
    requires fresh { is_posted engine.old.exchange req ≡ false }
    ensures program { engine.new.program ≡ engine.old.program }
    ensures exchange { engine.new.exchange ≡ post engine.old.program engine.old.exchange req cells.items }
    ensures partner { result ≡ partner engine.old.program engine.old.exchange req cells.items }
    ensures before { IfSome result (λ other. is_complete engine.old.program engine.old.exchange other
        ≡ completes_alone engine.old.program.eager (posting_of engine.old.program other)) }
    ensures completed { IfSome result (λ other. is_complete engine.new.program engine.new.exchange other ≡ true) }
{
    if how.is_receive() {
        engine.post_recv(prog, req)
    } else {
        engine.post_send(prog, req, cells)
    }
}

/// Where a posting leaves its task in the machine.
pub fn phase_after(def: &TaskDef, k: u32, how: How) -> Phase
    requires within { k < length def.now.body.items }
    requires few { length def.now.body.items < 2 ^ 32 }
    ensures { result ≡ (if blocks how then phase.In k else stop def.now (k + 1)) }
{
    if how.blocks() {
        Phase::In(k)
    } else {
        stop(def, k + 1)
    }
}

/// Where a posting leaves its record, with its local operations still to run.
pub fn place_after(def: &TaskDef, k: u32, how: How) -> Phase
    requires within { k < length def.now.body.items }
    requires few { length def.now.body.items < 2 ^ 32 }
    ensures { result ≡ (if blocks how then phase.In k else phase_before def.now (k + 1)) }
{
    if how.blocks() {
        Phase::In(k)
    } else {
        phase_before(def, k + 1)
    }
}

/// How many requests of this one are incomplete: it, or none.
pub fn pending(engine: &Engine, req: ReqNo) -> u32
    ensures { result ≡ (if is_complete engine.now.program engine.now.exchange req then 0 else 1) }
{
    if engine.complete(req) { 0 } else { 1 }
}

/// For how many things a task waits after a posting of which so many requests are incomplete.
pub fn waits_after(how: How, pending: u32) -> u32
    ensures { result ≡ (if blocks how then pending else 0) }
{
    if how.blocks() { pending } else { 0 }
}

/// Appends the status that a posting tells as it is left, and answers how many it told.
pub fn tell_status(
    statuses: &mut Vec<Status>,
    engine: &Engine,
    prog: &Program,
    req: ReqNo,
    how: How,
) -> u32
    requires room { length statuses.old.items + length (told_now engine.now.program engine.now.exchange req how) ≤ vec_capacity statuses.old }
    requires same { prog.now ≡ engine.now.program }
    requires complete { is_complete engine.now.program engine.now.exchange req ≡ true }
    ensures items { statuses.new.items ≡ statuses.old.items ++ told_now engine.now.program engine.now.exchange req how }
    ensures count { result ≡ length (told_now engine.now.program engine.now.exchange req how) }
    ensures places { vec_capacity statuses.old ≤ vec_capacity statuses.new }
{
    if how.is_receive() {
        note(statuses, engine.status(prog, req));
        1
    } else {
        0
    }
}
