//! What a task does by itself: its record, its local operations, and the cells that it sends.

ghost use Rattle.std.specs.Prelude.{◌≡◌, IfOk};
ghost use Rattle.rt_base.specs.declared.data.Phase.TheVariants as phase;
ghost use Rattle.rt_base.specs.WellFormed.{WellFormed};
ghost use Rattle.task_local.specs.Standing.{def, moved_on, packed_next, IsAtCall};
ghost use Rattle.shared_tasks.specs.Keeping.{IsAble};
ghost use Rattle.worker_acts.specs.Acts.{IsBeforeStep};

use rt_base::{Cells, Gate, Point, Program};
use std::alloc::{AllocError, Global};
use tampi_calls::{Fresh, Live, Run, Site};
use task_local::{At, TaskRec};

/// The record with which a task starts. Takes the memory of the task's copy.
pub fn record_of<K: Run, H: Site>(
    alloc: Global,
    prog: &Program,
    fresh: &Fresh<K, H>,
) -> Result<TaskRec, AllocError>
    requires well_formed { WellFormed K.program }
    requires same { prog.now ≡ K.program }
    ensures program { IfOk result (λ rec. rec.program ≡ K.program) }
    ensures task { IfOk result (λ rec. rec.task ≡ fresh.now.task) }
    ensures phase { IfOk result (λ rec. rec.phase ≡ phase.Waiting) }
{
    TaskRec::make(alloc, prog, fresh.task())
}

/// Runs the local operations that come next in a task with an enabled step, which then is before that step. The worker passes the gate before, where there is
/// an operation to run.
pub fn run_local<K: Run, H: Site, G: Gate>(
    prog: &Program,
    gate: &G,
    worker: u16,
    live: Live<K, H>,
) -> Live<K, H>
    requires well_formed { WellFormed K.program }
    requires same { prog.now ≡ K.program }
    requires able { IsAble K.program live }
    ensures ran { result ≡ record live { rec = moved_on (def live.rec) live.rec.phase live.rec } }
    ensures able { IsAble K.program result }
    ensures before { IsBeforeStep (def result.rec) result.rec.phase }
{
    let (mut rec, pass, pause, events) = live.into_parts();
    if matches!(rec.at(prog), At::Local) {
        gate.pass(worker, Point::Kernel);
    }
    rec.run_local(prog);
    Live::new(rec, pass, pause, events)
}

/// The cells that the task's next call sends, none where it is no send. Takes memory for them.
pub fn pack<K: Run, H: Site>(
    alloc: Global,
    prog: &Program,
    live: &Live<K, H>,
) -> Result<Cells, AllocError>
    requires well_formed { WellFormed K.program }
    requires same { prog.now ≡ K.program }
    requires before { IsAtCall (def live.now.rec) live.now.rec.phase }
    ensures { IfOk result (λ cells. cells.items ≡ packed_next (def live.now.rec) live.now.rec.phase live.now.rec.copy) }
{
    live.rec().pack(alloc, prog)
}
