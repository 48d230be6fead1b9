//! A started task.

ghost use Rattle.std.specs.Prelude.{◌≡◌};
ghost use Rattle.shared_tasks.specs.Keeping.{IsLive};

use crate::names::{Run, Site};
use meet_hall::Holder;
use pass_table::Pass;
use std::marker::{Model, PhantomData};
use task_local::TaskRec;

/// A task that was started, with its pass and the holders of its two meetings.
#[derive(Drop)]
pub struct Live<K: Run, H: Site> {
    rec: TaskRec,
    pass: Pass,
    pause: Holder,
    events: Holder,
    of: PhantomData<(K, H)>,
}

impl<K: Run, H: Site> Model for Live<K, H> {
    ghost use Rattle.shared_tasks.specs.Values.{LiveIs};
    ghost use Rattle.shared_tasks.specs.Keeping.{IsLive};

    ghost Value = { LiveIs };

    ghost view = { λ l. record { rec = l.rec; pass = l.pass; pause = l.pause; events = l.events } };

    ghost invariant = { λ l. IsLive K.program K.workers K.passes H.hall (record { rec = l.rec; pass = l.pass; pause = l.pause; events = l.events }) };
}

impl<K: Run, H: Site> Live<K, H> {
    /// The task of a record, with its pass and its holders.
    pub fn new(rec: TaskRec, pass: Pass, pause: Holder, events: Holder) -> Self
        requires { IsLive K.program K.workers K.passes H.hall (record { rec = rec; pass = pass; pause = pause; events = events }) }
        ensures { result ≡ record { rec = rec; pass = pass; pause = pause; events = events } }
    {
        Live {
            rec,
            pass,
            pause,
            events,
            of: PhantomData,
        }
    }

    /// The task's record.
    pub fn rec(&self) -> &TaskRec
        ensures rec { result.now ≡ self.now.rec }
        ensures keeps { IsLive K.program K.workers K.passes H.hall self.now }
    {
        &self.rec
    }

    /// The record, the pass, and the holders of the pause meeting and of the event meeting.
    pub fn into_parts(self) -> (TaskRec, Pass, Holder, Holder)
        ensures parts { record { rec = result.0; pass = result.1; pause = result.2; events = result.3 } ≡ self }
        ensures keeps { IsLive K.program K.workers K.passes H.hall self }
    {
        let Live {
            rec,
            pass,
            pause,
            events,
            of: _,
        } = self;
        (rec, pass, pause, events)
    }
}
