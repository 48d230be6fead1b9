//! Rounds of one meeting whose parties come on threads of their own, for tests and for bench/hall.
#![tactic(auto)]

mod party;
mod rounds;

pub use party::Number;
pub use rounds::{four_come, lone, one_comes, two_come};

#[cfg(test)]
mod tests;
