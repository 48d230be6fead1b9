//! Which of the requests that handles name are incomplete.

ghost use Rattle.std.specs.Prelude.{◌≡◌, ◌+◌, ◌^◌, ◌<◌, ◌≤◌, ◌∷◌, [], ◌++◌, length, vec_capacity, option_to_list};
ghost use Rattle.rt_base.specs.Operations.{named_requests};
ghost use Rattle.task_machine.specs.Machine.{open_count, open_ones};

use crate::room::note;
use match_engine::Engine;
use rt_base::{Handle, ReqNo, TaskNo};

/// How many of the named requests are incomplete (MPI 4.0, 3.7.3 and 3.7.5). Time grows with the handles.
pub fn open_among(engine: &Engine, task: TaskNo, handles: &[Handle]) -> u32
    requires few { length handles.now < 2 ^ 32 }
    ensures { result ≡ open_count engine.now.program engine.now.exchange (named_requests task.0 handles.now) }
{
    let mut count = 0;
    for handle in handles {
        if open_request_of(engine, task, *handle).is_some() {
            count += 1;
        }
    }
    count
}

/// Appends those of the named requests that are incomplete, in the order of the handles. Takes no memory. Time grows with the handles.
pub fn note_open(opened: &mut Vec<ReqNo>, engine: &Engine, task: TaskNo, handles: &[Handle])
    requires room { length opened.old.items + length handles.now ≤ vec_capacity opened.old }
    ensures items { opened.new.items ≡ opened.old.items ++ open_ones engine.now.program engine.now.exchange (named_requests task.0 handles.now) }
    ensures places { vec_capacity opened.old ≤ vec_capacity opened.new }
{
    for handle in handles {
        if let Some(req) = open_request_of(engine, task, *handle) {
            note(opened, req);
        }
    }
}

// The request that a handle names, where it is incomplete.
pub(crate) fn open_request_of(engine: &Engine, task: TaskNo, handle: Handle) -> Option<ReqNo>
    ensures { option_to_list result ≡ open_ones engine.now.program engine.now.exchange (named_requests task.0 (handle ∷ [])) }
{
    match handle {
        Handle::Null => None,
        Handle::Nth(nth) => {
            let req = ReqNo { task, nth };
            if engine.complete(req) {
                None
            } else {
                Some(req)
            }
        }
    }
}
