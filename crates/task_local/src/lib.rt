//! The record of a task: its own copy of the cells that it declares, and where it stands.
#![tactic(auto)]

mod compute;
mod index;
pub mod laws;
mod memory;
mod parts;
mod record;
mod standing;
#[cfg(test)]
mod tests;

pub use record::TaskRec;
pub use standing::At;
