//! A completion that comes to a meeting.

use crate::names::Run;
use meet_hall::Guest;
use pass_table::Note;
use rt_base::ReqNo;
use std::marker::{Model, PhantomData};

/// A completion that comes to a meeting: its request, and a note of a list after which it is complete.
#[derive(Drop)]
pub struct Arrival<K: Run> {
    pub(crate) req: ReqNo,
    pub(crate) note: Note,
    pub(crate) of: PhantomData<K>,
}

impl<K: Run> Model for Arrival<K> {
    ghost use Rattle.shared_tasks.specs.Values.{ArrivalIs};

    ghost Value = { ArrivalIs };

    ghost view = { λ a. record { req = a.req; note = a.note } };
}

impl<K: Run> Guest for Arrival<K> {
    ghost use Rattle.shared_tasks.specs.Keeping.{FitsArrival};

    ghost fits = { λ arrival hall meeting places. FitsArrival K.program K.workers K.passes arrival meeting places };
}
