//! Which task may start: the order that regions and taskwaits ask of the tasks of a program.
#![tactic(auto)]

mod bounds;
mod deps;
mod epochs;
mod graph;
pub mod laws;
mod order;
mod regions;
#[cfg(test)]
mod scan;
mod segments;

pub use deps::Deps;
