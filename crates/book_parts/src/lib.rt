//! The parts of a book: what a new one begins with, the small steps of its moves, and what each move leaves of the parts, as lemmas.
#![tactic(auto)]

mod fresh;
mod places;
mod posting;
mod room;
mod tasks;
mod waits;

pub use fresh::{Lists, Numbers, fresh_lists, fresh_numbers};
pub use places::{blocked_place, call_place};
pub use posting::{
    Posting, pending, phase_after, place_after, post, posting_at, tell_status, waits_after,
};
pub use room::{count_of, note_some, statuses_from};
pub use tasks::{is_waiting, phase_before, stop, task_of};
pub use waits::{binds_at, handles_at, status_at};
