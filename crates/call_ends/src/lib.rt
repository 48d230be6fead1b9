//! How a call ends: its run or its refusal, the exit status of each, and the text that is written.
#![tactic(auto)]

mod ending;
mod refusing;
mod run;
mod writing;

pub use ending::{Ending, Refusal, Verdict};
pub use run::{Run, run_of};
pub use writing::{write_refusal, write_run};

#[cfg(test)]
mod tests;
