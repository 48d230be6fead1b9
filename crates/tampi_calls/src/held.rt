//! What a worker's hand holds.

use shared_tasks::{Fresh, Live, Notice, Run, Site};
use turn_table::{Door, Look};

/// What a worker's hand holds.
#[derive(Drop)]
pub enum Held<K: Run, H: Site> {
    /// Nothing, and what it looks for next.
    Nothing(Look),
    /// A task that the book handed out and that has not been in the ready queue.
    Offered(Fresh<K, H>),
    /// A task that is to be started.
    Fresh(Fresh<K, H>),
    /// A started task with an enabled step.
    Ready(Live<K, H>),
    /// A task whose last step waits for completions at this meeting, and that is to be parked there.
    Pending(Live<K, H>, Door),
    /// The notice of a completion.
    Told(Notice<K, H>),
    /// A task that was woken by the completion that this worker brought.
    Resumed(Live<K, H>),
}
