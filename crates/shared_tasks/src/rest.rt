//! What becomes of a task that parks, or of one to which a completion comes.

use crate::live::Live;
use crate::names::{Run, Site};
use meet_hall::Stub;

/// The answer to a task that parks, and to a completion that comes.
#[derive(Drop)]
pub enum Rest<K: Run, H: Site> {
    /// Others have not come.
    Waiting(Stub),
    /// It was the last: the task of the meeting, which may make its next move.
    Back(Live<K, H>),
}
