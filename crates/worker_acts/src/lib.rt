//! What a worker does without the lock: it queues tasks and takes them out, brings tasks and completions to their meetings, and runs a task's local operations.
#![tactic(auto)]

mod arriving;
mod local;
mod parking;
mod queue;

pub use arriving::arrive;
pub use local::{pack, record_of, run_local};
pub use parking::park;
pub use queue::{pop, push};
