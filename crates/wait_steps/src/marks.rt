//! Marks: which requests are bound to their tasks.

ghost use Rattle.std.specs.Prelude.{◌≡◌, ◌+◌, ◌^◌, ◌<◌, ◌≤◌, [], ◌∷◌, ◌++◌, length, vec_capacity, IfOk, IsSome};
ghost use Rattle.rt_base.specs.Operations.{is_posting, named_requests, postings};
ghost use Rattle.task_machine.specs.Machine.{open_count, open_ones};
ghost use Rattle.wait_steps.specs.MarkedRows.{unmarked, is_marked, marked, marked_all, mark_of, HaveMarks};

use crate::incomplete::open_request_of;
use crate::room::note;
use match_engine::Engine;
use rt_base::{Handle, Op, Program, ReqNo, TaskNo};
use std::alloc::{AllocError, Global};
use std::marker::Model;

/// A mark for each request of a program, by task: which ones are bound to their tasks. Contracts see the rows of marks. Memory is taken as they
/// are built, and by no other call.
#[derive(Drop)]
pub struct Marks {
    rows: Vec<Vec<bool>>,
}

impl Model for Marks {
    ghost use Rattle.std.specs.Prelude.{Bool, List, map, vec_items};

    ghost Value = { List (List Bool) };

    ghost view = { λ marks. map vec_items marks.rows.items };
}

impl Marks {
    /// The marks of a program's requests, none of them set. Looks at each operation once, and takes memory for each task.
    pub fn build(alloc: Global, prog: &Program) -> Result<Marks, AllocError>
        ensures { IfOk result (λ marks. marks ≡ unmarked prog.now) }
    {
        let mut rows = Vec::with_capacity(alloc, prog.tasks.len())?;
        for task in prog.tasks.as_slice() {
            rows.push(vec![in alloc; false; postings_of(task.body.as_slice())]?)?;
        }
        Ok(Marks { rows })
    }

    /// Whether the request is marked, in constant time. No request that the program lacks is.
    pub fn has(&self, req: ReqNo) -> bool
        ensures { result ≡ is_marked self.now req }
    {
        match self.rows.get(req.task.0 as usize) {
            None => false,
            Some(row) => row.get(req.nth as usize).copied().unwrap_or(false),
        }
    }

    /// Marks a request of the program, in constant time.
    pub fn mark(&mut self, req: ReqNo)
        requires { IsSome (mark_of self.old req) }
        ensures { self.new ≡ marked self.old req }
    {
        self.rows[req.task.0 as usize][req.nth as usize] = true;
    }
}

/// Binds what the handles name to the task: marks and appends those of the named requests that are incomplete, in the order of the handles, and
/// answers how many they are (TAMPI, `TAMPI_Iwait` and `TAMPI_Iwaitall`). Takes no memory. Time grows with the handles.
pub fn bind_all(
    marks: &mut Marks,
    opened: &mut Vec<ReqNo>,
    engine: &Engine,
    task: TaskNo,
    handles: &[Handle],
) -> u32
    requires few { length handles.now < 2 ^ 32 }
    requires known { HaveMarks marks.old (named_requests task.0 handles.now) }
    requires room { length opened.old.items + length handles.now ≤ vec_capacity opened.old }
    ensures marks { marks.new ≡ marked_all marks.old (open_ones engine.now.program engine.now.exchange (named_requests task.0 handles.now)) }
    ensures items { opened.new.items ≡ opened.old.items ++ open_ones engine.now.program engine.now.exchange (named_requests task.0 handles.now) }
    ensures places { vec_capacity opened.old ≤ vec_capacity opened.new }
    ensures count { result ≡ open_count engine.now.program engine.now.exchange (named_requests task.0 handles.now) }
{
    let mut count = 0;
    for handle in handles {
        count += bind_one(marks, opened, engine, task, *handle);
    }
    count
}

// Marks and appends the request that a handle names, where it is incomplete, and answers how many that are.
#[tactic(auto, using(crate::proofs::Marking::found_known))]
fn bind_one(
    marks: &mut Marks,
    opened: &mut Vec<ReqNo>,
    engine: &Engine,
    task: TaskNo,
    handle: Handle,
) -> u32
    requires known { HaveMarks marks.old (named_requests task.0 (handle ∷ [])) }
    requires room { length opened.old.items < vec_capacity opened.old }
    ensures marks { marks.new ≡ marked_all marks.old (open_ones engine.now.program engine.now.exchange (named_requests task.0 (handle ∷ []))) }
    ensures items { opened.new.items ≡ opened.old.items ++ open_ones engine.now.program engine.now.exchange (named_requests task.0 (handle ∷ [])) }
    ensures places { vec_capacity opened.old ≤ vec_capacity opened.new }
    ensures count { result ≡ length (open_ones engine.now.program engine.now.exchange (named_requests task.0 (handle ∷ []))) }
    ensures few { result ≤ 1 }
{
    match open_request_of(engine, task, handle) {
        None => 0,
        Some(req) => {
            marks.mark(req);
            note(opened, req);
            1
        }
    }
}

/// How many of these operations post. Looks at each of them.
pub fn postings_of(body: &[Op]) -> usize
    ensures { result ≡ postings body.now }
{
    body.iter().filter(|operation| posts(operation)).count()
}

// Whether the operation posts a request.
fn posts(operation: &Op) -> bool
    ensures { result ≡ is_posting operation.now }
{
    matches!(operation, Op::Post { .. })
}
