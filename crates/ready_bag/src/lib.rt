//! The bag of ready items: any thread puts, any thread takes, and what a bag can't do it says only where it was full or
//! empty.
#![tactic(auto)]

mod account;
mod bag;
mod close;
mod counts;
mod pass;
mod queue_bag;
mod rule;

pub use account::{Account, Numbered};
pub use bag::ReadyBag;
pub use close::Tally;
pub use counts::Counts;
pub use pass::QueuePass;
pub use queue_bag::QueueBag;

#[cfg(test)]
mod tests;
