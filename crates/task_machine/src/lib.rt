//! The machine that has a thread for each task: its moves, its runs and what follows for every legal history. It has no code.
#![tactic(auto)]

pub mod laws;
