//! What the release of a task does with what it has bound.

ghost use Rattle.std.specs.Prelude.{◌≡◌, ◌+◌, ◌≤◌, ◌++◌, length, sum_by, vec_capacity};
ghost use Rattle.rt_base.specs.WellFormed.{WellFormed};
ghost use Rattle.task_local.specs.Standing.{def};
ghost use Rattle.task_local.specs.Waits.{taken_at_release, told_at_release};
ghost use Rattle.tidy_runs.specs.Tidy.{bindings};
ghost use Rattle.run_bounds.specs.Bounds.{tells_late};
ghost use Rattle.wait_steps.specs.Received.{AreReceived};

use crate::received::take_each;
use crate::statuses::tell_each;
use match_engine::Engine;
use rt_base::{Op, Program, Status, TaskDef};
use task_local::TaskRec;

/// Stores and tells what the operations of the body that bind name: of each in its order, and of each of its handles in order, the cells that were
/// received and then the status (TAMPI, `TAMPI_Iwait` and `TAMPI_Iwaitall`). Takes no memory. Time grows with the operations of the body, and with
/// the handles and cells of those that bind.
pub fn take_bound(
    rec: &mut TaskRec,
    statuses: &mut Vec<Status>,
    prog: &Program,
    engine: &Engine,
    own: &TaskDef,
)
    requires well_formed { WellFormed prog.now }
    requires same { prog.now ≡ rec.old.program }
    requires of_program { prog.now ≡ engine.now.program }
    requires of_task { own.now ≡ def rec.old }
    requires received { AreReceived engine.now.program engine.now.exchange rec.old.task own.now }
    requires room { length statuses.old.items + sum_by tells_late own.now.body.items ≤ vec_capacity statuses.old }
    ensures stored { rec.new ≡ record rec.old {
      copy = taken_at_release engine.now.program engine.now.exchange rec.old.task own.now (bindings 0 own.now.body.items) rec.old.copy;
    } }
    ensures told { statuses.new.items ≡ statuses.old.items
        ++ told_at_release engine.now.program engine.now.exchange rec.old.task own.now (bindings 0 own.now.body.items) }
    ensures places { vec_capacity statuses.old ≤ vec_capacity statuses.new }
{
    for operation in own.body.as_slice() {
        match operation {
            Op::Compute { .. } => {}
            Op::Post { .. } => {}
            Op::Await {
                later,
                handles,
                status,
            } => {
                if *later {
                    take_each(rec, prog, engine, *status, handles.as_slice());
                    tell_each(statuses, engine, prog, rec.task(), handles.as_slice());
                }
            }
        }
    }
}
