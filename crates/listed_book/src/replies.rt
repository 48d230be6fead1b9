//! What the calls of pollers answer.

use pass_table::{Note, Pass};
use rt_base::{ReqNo, TaskNo};

/// A task that was offered, with its pass.
#[derive(Drop)]
pub struct Offered {
    pub task: TaskNo,
    pub pass: Pass,
}

/// A request whose notice was taken, with a note of the list in which it is complete.
#[derive(Drop)]
pub struct Told {
    pub req: ReqNo,
    pub note: Note,
}

/// What a worker is told that has no work.
#[derive(Drop)]
pub enum Idle {
    /// No task may move after the list that the note has seen.
    Quiet(Note),
    /// Some task may move.
    Work,
    /// A stop stands in the list that the note has seen.
    Stopped(Note),
}
