//! The machine under one lock: its book with the one list of all that was done, the tickets of open requests, and the holders of tasks that were not
//! offered.
#![tactic(auto)]

mod moved;
mod opening;
mod pairs;
mod parts;
mod section;
mod shared;

pub use listed_book::Idle;
pub use moved::Moved;
pub use parts::Parts;
pub use shared::SharedBook;
pub use shared_tasks::{Arrival, Door, Fresh, Live, Notice, Parked, Run, Site, pause, resume};
