//! Where a program's tasks are, and where a task stands after its local operations.

ghost use Rattle.std.specs.Prelude.{◌≡◌, ◌≤◌, ◌<◌, ◌^◌, ◌↔◌, length, slice_get, Some, IsTrue};
ghost use Rattle.rt_base.specs.declared.data.Phase.TheVariants as phase;
ghost use Rattle.task_local.specs.Local.{stop};
ghost use Rattle.task_local.specs.Standing.{phase_before};

use rt_base::{Phase, Program, TaskDef, TaskNo};

/// The task of this number.
pub fn task_of(prog: &Program, task: TaskNo) -> &TaskDef
    requires { task.0 < length prog.now.tasks.items }
    ensures { slice_get prog.now.tasks.items task.0 ≡ Some result.now }
{
    &prog.tasks.as_slice()[task.0 as usize]
}

/// The phase of a task that has made the operations before this one.
pub fn phase_before(def: &TaskDef, k: u32) -> Phase
    ensures { result ≡ phase_before def.now k }
{
    if (k as usize) < def.body.len() {
        Phase::At(k)
    } else {
        Phase::Ended
    }
}

/// Where a task stands after the local operations from operation k on. Looks at each of them.
pub fn stop(def: &TaskDef, k: u32) -> Phase
    requires within { k ≤ length def.now.body.items }
    requires few { length def.now.body.items < 2 ^ 32 }
    ensures { result ≡ stop def.now k }
{
    let body = def.body.as_slice();
    let mut at = k;
    while (at as usize) < body.len() {
        if !body[at as usize].is_local() {
            return Phase::At(at);
        }
        at += 1;
    }
    Phase::Ended
}

/// Whether a task in this phase was not started.
pub fn is_waiting(at: Phase) -> bool
    ensures { IsTrue result ↔ (at ≡ phase.Waiting) }
{
    match at {
        Phase::Waiting => true,
        Phase::At(_) => false,
        Phase::In(_) => false,
        Phase::Ended => false,
        Phase::Returned => false,
        Phase::Released => false,
    }
}
