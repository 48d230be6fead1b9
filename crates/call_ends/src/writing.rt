//! Writing what a call owes.
ghost use Rattle.std.specs.Prelude.{◌≡◌, ◌≢◌};
ghost use Rattle.std.specs.Io.KnownBytes.{Appends};
ghost use Rattle.rt_base.specs.Outside.{Rose, AppendsFront};
ghost use Rattle.call_ends.specs.Ending.{verdict_status, refusal_status, refusal_text};
ghost use Rattle.call_ends.specs.Runs.{report_text, HasEnd};

use crate::ending::{Refusal, refusal_status, verdict_status};
use crate::refusing::line_of;
use crate::run::Run;
use report_lines::write_report;
use rt_base::{ByteSink, Put};
use std::alloc::Global;

// The status of a call whose text was not written whole.
const WRITE_FAULT: u8 = 5;

// The status of a call that wanted memory before anything was written.
const NO_MEMORY: u8 = 6;

// Writes the line at once. The status stands where it was written whole.
fn write_line<K: ByteSink>(out: &mut K, line: &[u8], status: u8) -> u8
    requires due { status ≢ 5 }
    requires memory { status ≢ 6 }
    ensures memory { result ≢ 6 }
    ensures written { result ≢ 5 → (result ≡ status) × Appends (K.written out.old) (K.written out.new) line.now }
    ensures broken { result ≡ 5 → Rose (K.faults out.old) (K.faults out.new) × AppendsFront (K.written out.old) (K.written out.new) line.now }
{
    match out.write(line) {
        Put::All => status,
        Put::Failed => WRITE_FAULT,
    }
}

/// Writes the report of a run, in pieces of 8,192 bytes, and takes no memory. The answer is the status of the call: that of the run, or 5 where a
/// write failed.
pub fn write_run<K: ByteSink>(out: &mut K, run: &Run) -> u8
    requires { HasEnd run.now }
    ensures memory { result ≢ 6 }
    ensures written { result ≢ 5
        → (result ≡ verdict_status run.now.verdict) × Appends (K.written out.old) (K.written out.new) (report_text run.now) }
    ensures broken { result ≡ 5
        → Rose (K.faults out.old) (K.faults out.new) × AppendsFront (K.written out.old) (K.written out.new) (report_text run.now) }
{
    let end = &run.end;
    let cells = end.cells.as_slice();
    let phases = end.phases.as_slice();
    match write_report(&run.program, 1, &end.history, cells, phases, run.trace, out) {
        Put::All => verdict_status(run.verdict),
        Put::Failed => WRITE_FAULT,
    }
}

/// Writes the one line of a refusal. The answer is the status of the call: that of the refusal, 5 where the write failed, or 6 where memory was wanted
/// for the line and nothing was written.
pub fn write_refusal<K: ByteSink>(alloc: Global, out: &mut K, refusal: Refusal) -> u8
    ensures written { result ≢ 5 → result ≢ 6
        → (result ≡ refusal_status refusal) × Appends (K.written out.old) (K.written out.new) (refusal_text refusal) }
    ensures broken { result ≡ 5
        → Rose (K.faults out.old) (K.faults out.new) × AppendsFront (K.written out.old) (K.written out.new) (refusal_text refusal) }
    ensures unchanged { result ≡ 6 → out.new ≡ out.old }
{
    match line_of(alloc, refusal) {
        Ok(line) => write_line(out, line.as_slice(), refusal_status(refusal)),
        Err(_) => NO_MEMORY,
    }
}
