//! The top call.
ghost use Rattle.std.specs.Prelude.{◌≡◌, ◌≢◌, ◌≤◌, ℕ, List, []};
ghost use Rattle.rt_base.specs.declared.data.Status.{Status};
ghost use Rattle.rt_base.specs.Outside.{Rose, AppendsFront};
ghost use Rattle.std.specs.Io.KnownBytes.{Appends};
ghost use Rattle.call_ends.specs.declared.ending.Ending.{Ending};
ghost use Rattle.call_ends.specs.declared.ending.Ending.TheVariants as ending;
ghost use Rattle.call_ends.specs.Ending.{status_of, verdict_status, refusal_status, refusal_text};
ghost use Rattle.tampi_top.specs.Due.{Call, IsDue};
ghost use Rattle.call_ends.specs.Runs.{report_text, HasEnd};

use crate::decided::{Due, due_of};
use call_ends::{Refusal, Run, write_refusal, write_run};
use rt_base::{ByteSink, ByteSource, Entries, Gate, History, Statuses};
use std::alloc::Global;
use std::sync::Wait;
use std::thread::Threads;

// The status of a call that wanted memory before anything was written.
const NO_MEMORY: u8 = 6;

/// What a call came to: its exit status, and the history of the run, which is empty where nothing was run.
#[derive(Debug, Drop)]
pub struct Outcome {
    pub status: u8,
    pub history: History,
}

// Ends without a history.
fn ended(alloc: Global, status: u8) -> Outcome
    ensures status { result.status ≡ status }
    ensures entries { result.history.entries.items ≡ [] }
    ensures statuses { result.history.statuses.items ≡ [] }
{
    Outcome {
        status,
        history: History {
            entries: Entries::empty(alloc),
            statuses: Statuses::empty(alloc),
        },
    }
}

// Writes the report.
fn told<K: ByteSink>(out: &mut K, run: Run) -> Outcome
    requires { HasEnd run }
    ensures memory { result.status ≢ 6 }
    ensures history { result.history ≡ run.end.history }
    ensures written { result.status ≢ 5
        → (result.status ≡ verdict_status run.verdict) × Appends (K.written out.old) (K.written out.new) (report_text run) }
    ensures broken { result.status ≡ 5
        → Rose (K.faults out.old) (K.faults out.new) × AppendsFront (K.written out.old) (K.written out.new) (report_text run) }
{
    let status = write_run(out, &run);
    let end = run.end;
    Outcome {
        status,
        history: end.history,
    }
}

// Makes the line of a refusal and writes it, or wants memory and writes nothing.
fn refuse<K: ByteSink>(alloc: Global, out: &mut K, refusal: Refusal) -> Outcome
    ensures entries { result.history.entries.items ≡ [] }
    ensures statuses { result.history.statuses.items ≡ [] }
    ensures written { result.status ≢ 5 → result.status ≢ 6
        → (result.status ≡ refusal_status refusal) × Appends (K.written out.old) (K.written out.new) (refusal_text refusal) }
    ensures broken { result.status ≡ 5
        → Rose (K.faults out.old) (K.faults out.new) × AppendsFront (K.written out.old) (K.written out.new) (refusal_text refusal) }
    ensures unchanged { result.status ≡ 6 → out.new ≡ out.old }
{
    let status = write_refusal(alloc, out, refusal);
    ended(alloc, status)
}

/// Does what the words ask for: runs the text that the input is, or that of the heat solver, and writes its report, with its trace where that is asked
/// for.
///
/// The runtime and the gate are for workers, of which there are none yet.
pub fn tampi<R: Threads + Wait + Sync, S: ByteSource, K: ByteSink, G: Gate>(
    rt: &R,
    alloc: Global,
    words: &[String],
    input: &mut S,
    out: &mut K,
    gate: &G,
) -> Outcome
    // Every status but 5 and 6: what was due was written, the whole text and nothing else.
    ensures told { result.status ≢ 5 → result.status ≢ 6 → (ends : Ending) × (text : List ℕ)
        × (result.status ≡ status_of ends)
        × IsDue (record {
          words = words.now;
          given = S.rest input.old;
          left = S.rest input.new;
          before = S.faults input.old;
          now = S.faults input.new;
        }) ends result.history.entries.items result.history.statuses.items text
        × Appends (K.written out.old) (K.written out.new) text }

    // Status 5: a write failed, and a front of what was due was written.
    ensures broken { result.status ≡ 5 → (ends : Ending) × (text : List ℕ)
        × Rose (K.faults out.old) (K.faults out.new)
        × IsDue (record {
          words = words.now;
          given = S.rest input.old;
          left = S.rest input.new;
          before = S.faults input.old;
          now = S.faults input.new;
        }) ends result.history.entries.items result.history.statuses.items text
        × AppendsFront (K.written out.old) (K.written out.new) text }

    // Status 6: memory was wanted, and nothing was written.
    ensures memory { result.status ≡ 6
        → (out.new ≡ out.old) × (result.history.entries.items ≡ []) × (result.history.statuses.items ≡ []) }
{
    let _ = rt;
    let _ = gate;
    match due_of(alloc, words, input) {
        Due::Ran(ran) => told(out, ran),
        Due::Refused(refusal) => refuse(alloc, out, refusal),
        Due::Memory => ended(alloc, NO_MEMORY),
    }
}
