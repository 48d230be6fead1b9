//! A paused task.

use crate::names::Run;
use meet_hall::{Guest, Holder};
use pass_table::Pass;
use std::marker::{Model, PhantomData};
use task_local::TaskRec;
use turn_table::Door;

/// A paused task, as it lies at a meeting, with the holder of its other meeting.
#[derive(Drop)]
pub struct Parked<K: Run> {
    pub(crate) rec: TaskRec,
    pub(crate) pass: Pass,
    pub(crate) other: Holder,
    pub(crate) door: Door,
    pub(crate) of: PhantomData<K>,
}

impl<K: Run> Model for Parked<K> {
    ghost use Rattle.shared_tasks.specs.Values.{ParkedIs};

    ghost Value = { ParkedIs };

    ghost view = { λ p. record { rec = p.rec; pass = p.pass; other = p.other; door = p.door } };
}

impl<K: Run> Guest for Parked<K> {
    ghost use Rattle.shared_tasks.specs.Keeping.{FitsParked};

    ghost fits = { λ parked hall meeting places. FitsParked K.program K.workers K.passes hall parked meeting places };
}
