//! The book of the machine with the one list of all that was done to it: what a lock keeps.
#![tactic(auto)]

mod build;
mod finish;
mod listed;
mod looks;
mod lying_pen;
mod moves;
mod offers;
mod replies;

pub use listed::ListedBook;
pub use replies::{Idle, Offered, Told};
