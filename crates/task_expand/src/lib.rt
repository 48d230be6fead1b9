//! The text language: from the tree of a text to the program that it says, for a number of ranks.
#![tactic(auto)]

mod program;
mod ranks;

pub use program::expand;
pub use task_unroll::ExpandRefusal;
