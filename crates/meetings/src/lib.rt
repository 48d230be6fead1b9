//! What a meeting of a pausing task with its completions is: its round, its parties, its count, and the moves of one round.
#![tactic(auto)]

mod laws;
mod moves;

pub use laws::{
    all_came_at_the_last, arrivals_take_one, issues_add_one, nothing_comes_after_the_last,
    rounds_begin_with_one,
};
pub use moves::Move;
