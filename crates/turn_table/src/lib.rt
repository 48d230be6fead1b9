//! The scheduling policy of a worker, as data: the act for each of its control states, and the state after each answer.
#![tactic(auto)]

mod hands;
pub mod laws;
#[cfg(test)]
mod tests;
mod turns;

pub use hands::{Door, Look, Shape};
pub use turns::{Act, Answer, plan, took};
