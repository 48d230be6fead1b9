//! The words of a call: one table of options, and the command that the words give.
#![tactic(auto)]

mod command;
mod items;
mod numbers;
mod options;
#[cfg(test)]
mod tests;

pub use command::{Command, HeatOptions, RunOptions, command_of, needs_run};
