//! What waits and releases do with the requests that they name: what these received is stored, their statuses are told and stored, and those that
//! are incomplete are counted, noted or bound.
#![tactic(auto)]

mod bound;
mod incomplete;
pub mod laws;
mod marks;
mod received;
mod room;
mod statuses;
#[cfg(test)]
mod tests;

pub use bound::take_bound;
pub use incomplete::{note_open, open_among};
pub use marks::{Marks, bind_all, postings_of};
pub use received::{store_received, take_each};
pub use room::note;
pub use statuses::{store_statuses, tell_each};
