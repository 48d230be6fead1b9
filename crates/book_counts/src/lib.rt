//! What a book counts: how many requests each task has posted, for how many things it waits, and who is told that a request became complete.
#![tactic(auto)]

mod counts;
mod posted;
mod telling;

pub use counts::Counts;
pub use posted::Posted;
pub use telling::{Told, lower_bound, lower_waited, tell, who_is_told};
