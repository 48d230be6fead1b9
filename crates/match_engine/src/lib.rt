//! The matching engine: which message goes to which receive, and when a request is complete.
#![tactic(auto)]

mod completion;
mod engine;
mod exchange;
mod heard;
mod laws;
mod routes;
mod slots;
#[cfg(test)]
mod tests;

pub use engine::Engine;
pub use laws::{
    matches_are_posted, messages_do_not_overtake, messages_keep_order,
    nothing_that_matches_is_left, receives_do_not_overtake, receives_keep_order,
};
