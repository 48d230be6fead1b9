//! How a task stands, and where its operations are.

ghost use Rattle.std.specs.Prelude.{◌≡◌, ◌<◌, length, slice_get, Some};
ghost use Rattle.task_local.specs.Kept.{IsPhaseOf};
ghost use Rattle.task_local.specs.Standing.{at_operation, at_phase};

use rt_base::{Op, Phase, Program, TaskDef, TaskNo};

/// How a task stands.
#[derive(Clone, Copy, Debug, PartialEq, Eq)]
pub enum At {
    /// A local operation is next.
    Local,
    /// It was not started.
    Fresh,
    /// The call, an operation of this number, is next.
    Call(u32),
    /// In the blocking operation of this number.
    In(u32),
    /// The body has ended.
    Ended,
    /// Returned, with requests perhaps still bound to it.
    Returned,
    /// Its accesses are let go.
    Released,
}

// The task of this number.
pub(crate) fn task_def(prog: &Program, task: TaskNo) -> &TaskDef
    requires { task.0 < length prog.now.tasks.items }
    ensures { slice_get prog.now.tasks.items task.0 ≡ Some result.now }
{
    &prog.tasks.as_slice()[task.0 as usize]
}

// The operation of this number.
pub(crate) fn operation(def: &TaskDef, k: u32) -> &Op
    requires { k < length def.now.body.items }
    ensures { slice_get def.now.body.items k ≡ Some result.now }
{
    &def.body.as_slice()[k as usize]
}

// How a task in this phase stands.
pub(crate) fn at_phase_of(def: &TaskDef, phase: Phase) -> At
    requires { IsPhaseOf def.now phase }
    ensures { result ≡ at_phase def.now phase }
{
    match phase {
        Phase::Waiting => At::Fresh,
        Phase::At(k) => at_operation_of(operation(def, k), k),
        Phase::In(k) => At::In(k),
        Phase::Ended => At::Ended,
        Phase::Returned => At::Returned,
        Phase::Released => At::Released,
    }
}

// How a task stands that is before this operation.
fn at_operation_of(op: &Op, k: u32) -> At
    ensures { result ≡ at_operation k (Some op.now) }
{
    if op.is_local() {
        At::Local
    } else {
        At::Call(k)
    }
}
