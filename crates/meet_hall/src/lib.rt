//! Where a pause meets its completions: for each meeting one atomic word that decides, without a lock, which party is last.
#![tactic(auto)]

mod build;
mod guest;
mod hall;
mod lists;
mod party;
mod plays;
mod rule;
mod slot;
mod view;

pub use guest::Guest;
pub use hall::Hall;
pub use party::{Holder, Met, Stub, Ticket};

#[cfg(test)]
mod tests;
