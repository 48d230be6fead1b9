//! Unrolling the tree of a text for one rank: statement by statement, with the first fault or limit.
#![tactic(auto)]

mod acts;
mod checks;
mod chosen;
mod counting;
mod ends;
mod kernel_calls;
mod laws;
mod levels;
mod operands;
mod refusal;
mod state;
mod walk;

pub use ends::{Ends, ends_of};
pub use laws::what_is_unrolled_is_well_formed;
pub use refusal::ExpandRefusal;
pub use state::State;
pub use walk::unroll;
