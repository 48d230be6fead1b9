//! What the ready queue holds.

use crate::able::Able;
use shared_tasks::{Fresh, Run, Site};

/// An item of the ready queue: a task that is to be started, or a started one with an enabled step.
#[derive(Drop)]
pub enum Item<K: Run, H: Site> {
    Fresh(Fresh<K, H>),
    Live(Able<K, H>),
}
