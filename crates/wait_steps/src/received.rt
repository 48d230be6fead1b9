//! What received requests store in the copy of their task.

ghost use Rattle.std.specs.Prelude.{◌≡◌, ◌∷◌, [], length};
ghost use Rattle.rt_base.specs.Operations.{named_requests};
ghost use Rattle.rt_base.specs.MayMove.{AreComplete};
ghost use Rattle.rt_base.specs.WellFormed.{WellFormed};
ghost use Rattle.task_local.specs.Standing.{def};
ghost use Rattle.task_local.specs.Waits.{stored_by_handle, stored_by_handles, taken_by_handle, taken_by_handles};
ghost use Rattle.wait_steps.specs.StatusSpans.{HasPlaces};

use crate::statuses::{behind_status, status_of, store_status};
use match_engine::Engine;
use rt_base::{Handle, Program, ReqNo, Span};
use task_local::TaskRec;

/// Stores what the named requests received, in the order of the handles: the cells of each at the front of its span (MPI 4.0, 3.2.4). A null
/// handle and a send store nothing. Time grows with the handles and the cells that are stored.
pub fn store_received(rec: &mut TaskRec, prog: &Program, engine: &Engine, handles: &[Handle])
    requires well_formed { WellFormed prog.now }
    requires same { prog.now ≡ rec.old.program }
    requires of_program { prog.now ≡ engine.now.program }
    requires complete { AreComplete engine.now.program engine.now.exchange (named_requests rec.old.task handles.now) }
    ensures { rec.new ≡ record rec.old {
      copy = stored_by_handles engine.now.program engine.now.exchange rec.old.task (def rec.old) handles.now rec.old.copy;
    } }
{
    for handle in handles {
        store_one(rec, prog, engine, *handle);
    }
}

/// Stores what the named requests received and their statuses, in the order of the handles: the cells and the status of one before those of the
/// next. The statuses go one behind another into a status span, where there is one (TAMPI, `TAMPI_Iwait` and `TAMPI_Iwaitall`). Time grows with
/// the handles and the cells that are stored.
pub fn take_each(
    rec: &mut TaskRec,
    prog: &Program,
    engine: &Engine,
    span: Option<Span>,
    handles: &[Handle],
)
    requires well_formed { WellFormed prog.now }
    requires same { prog.now ≡ rec.old.program }
    requires of_program { prog.now ≡ engine.now.program }
    requires complete { AreComplete engine.now.program engine.now.exchange (named_requests rec.old.task handles.now) }
    requires declared { HasPlaces (def rec.old) span (length handles.now) }
    ensures { rec.new ≡ record rec.old {
      copy = taken_by_handles engine.now.program engine.now.exchange rec.old.task (def rec.old) span handles.now rec.old.copy;
    } }
{
    let mut rest = span;
    for handle in handles {
        take_one(rec, prog, engine, rest, *handle);
        rest = behind_status(rest);
    }
}

// Stores what one handle's request received.
fn store_one(rec: &mut TaskRec, prog: &Program, engine: &Engine, handle: Handle)
    requires well_formed { WellFormed prog.now }
    requires same { prog.now ≡ rec.old.program }
    requires of_program { prog.now ≡ engine.now.program }
    requires complete { AreComplete engine.now.program engine.now.exchange (named_requests rec.old.task (handle ∷ [])) }
    ensures { rec.new ≡ record rec.old {
      copy = stored_by_handle engine.now.program engine.now.exchange rec.old.task (def rec.old) handle rec.old.copy;
    } }
{
    match handle {
        Handle::Null => {}
        Handle::Nth(nth) => {
            let req = ReqNo {
                task: rec.task(),
                nth,
            };
            rec.store(prog, engine.span(req), engine.cells(req));
        }
    }
}

// Stores what one handle's request received, and then its status at the front of the status span, where there is one.
fn take_one(rec: &mut TaskRec, prog: &Program, engine: &Engine, span: Option<Span>, handle: Handle)
    requires well_formed { WellFormed prog.now }
    requires same { prog.now ≡ rec.old.program }
    requires of_program { prog.now ≡ engine.now.program }
    requires complete { AreComplete engine.now.program engine.now.exchange (named_requests rec.old.task (handle ∷ [])) }
    requires declared { HasPlaces (def rec.old) span 1 }
    ensures { rec.new ≡ record rec.old {
      copy = taken_by_handle engine.now.program engine.now.exchange rec.old.task (def rec.old) span handle rec.old.copy;
    } }
{
    store_one(rec, prog, engine, handle);
    store_status(rec, prog, span, status_of(engine, prog, rec.task(), handle));
}
