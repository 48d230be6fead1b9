//! What a task is answered that called an operation or returned.

use shared_tasks::Door;

/// What a task is answered that called an operation or returned.
#[derive(Clone, Copy, Debug, PartialEq, Eq)]
pub enum Moved {
    /// It may go on.
    Done,
    /// It waits at this meeting of it, and parks there.
    Pending(Door),
}
