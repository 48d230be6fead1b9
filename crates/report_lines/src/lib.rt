//! The lines of a report and of a trace, and the report of a run, written in pieces without taking memory.
#![tactic(auto)]

mod buffer;
mod report;
mod trace;

pub use report::{all_released, write_report};

#[cfg(test)]
mod tests;
