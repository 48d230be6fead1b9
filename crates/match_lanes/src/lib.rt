//! The queues of one rank, in lanes: a posting is matched in constant time, amortized.
#![tactic(auto)]

mod doors;
mod keys;
mod lanes;
mod mail;
mod mails;
#[cfg(test)]
mod plain;
mod queues;
mod selector;
#[cfg(test)]
mod tests;
mod wishes;

pub use doors::Doors;
pub use keys::Keys;
pub use mail::{Match, Message, Receive};
pub use queues::Queues;
pub use selector::{Selector, Wanted};
