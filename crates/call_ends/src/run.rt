//! A run of a program.
ghost use Rattle.std.specs.Prelude.{◌≡◌, IfOk};
ghost use Rattle.rt_base.specs.WellFormed.{WellFormed};
ghost use Rattle.call_ends.specs.Ending.{verdict_of};
ghost use Rattle.call_ends.specs.Runs.{IsRunOf, report_text, HasEnd};

use crate::ending::Verdict;
use core_book::BookEnd;
use plain_run::run_plainly;
use report_lines::all_released;
use rt_base::{Phase, Program};
use std::alloc::{AllocError, Global};

/// A run that has come to its end: its program, its verdict, its history and the state after it, and whether its report has a trace.
#[derive(Debug, Drop)]
pub struct Run {
    pub program: Program,
    pub verdict: Verdict,
    pub end: BookEnd,
    pub trace: bool,
}

// How a run ended whose tasks stand there.
fn verdict_of(phases: &[Phase]) -> Verdict
    ensures { result ≡ verdict_of phases.now }
{
    if all_released(phases) {
        Verdict::Finished
    } else {
        Verdict::Stuck
    }
}

/// Runs the program to its end. `trace` says whether its report has a trace. Takes what `run_plainly` takes.
pub fn run_of(alloc: Global, program: Program, trace: bool) -> Result<Run, AllocError>
    requires well_formed { WellFormed program }
    ensures program { IfOk result (λ run. run.program ≡ program) }
    ensures end { IfOk result (λ run. HasEnd run) }
    ensures ran { IfOk result (λ run. IsRunOf program trace run.verdict run.end.history.entries.items run.end.history.statuses.items (report_text run)) }
{
    let end = run_plainly(alloc, &program)?;
    let verdict = verdict_of(end.phases.as_slice());
    Ok(Run {
        program,
        verdict,
        end,
        trace,
    })
}
