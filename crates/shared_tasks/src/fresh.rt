//! A ready task.

ghost use Rattle.std.specs.Prelude.{◌≡◌};
ghost use Rattle.shared_tasks.specs.Keeping.{IsFresh};

use crate::names::{Run, Site};
use meet_hall::Holder;
use pass_table::Pass;
use rt_base::TaskNo;
use std::marker::{Model, PhantomData};

/// A task that was offered and may start, with its pass and the holders of its two meetings.
#[derive(Drop)]
pub struct Fresh<K: Run, H: Site> {
    task: TaskNo,
    pass: Pass,
    pause: Holder,
    events: Holder,
    of: PhantomData<(K, H)>,
}

impl<K: Run, H: Site> Model for Fresh<K, H> {
    ghost use Rattle.shared_tasks.specs.Values.{FreshIs};
    ghost use Rattle.shared_tasks.specs.Keeping.{IsFresh};

    ghost Value = { FreshIs };

    ghost view = { λ f. record { task = f.task.0; pass = f.pass; pause = f.pause; events = f.events } };

    ghost invariant = { λ f. IsFresh K.program K.workers K.passes H.hall (record { task = f.task.0; pass = f.pass; pause = f.pause; events = f.events }) };
}

impl<K: Run, H: Site> Fresh<K, H> {
    /// The task with its pass and its holders.
    pub fn new(task: TaskNo, pass: Pass, pause: Holder, events: Holder) -> Self
        requires { IsFresh K.program K.workers K.passes H.hall (record { task = task.0; pass = pass; pause = pause; events = events }) }
        ensures { result ≡ record { task = task.0; pass = pass; pause = pause; events = events } }
    {
        Fresh {
            task,
            pass,
            pause,
            events,
            of: PhantomData,
        }
    }

    /// The task.
    pub fn task(&self) -> TaskNo
        ensures task { result.0 ≡ self.now.task }
        ensures keeps { IsFresh K.program K.workers K.passes H.hall self.now }
    {
        self.task
    }

    /// The task, its pass, and the holders of its pause meeting and of its event meeting.
    pub fn into_parts(self) -> (TaskNo, Pass, Holder, Holder)
        ensures parts { record { task = result.0.0; pass = result.1; pause = result.2; events = result.3 } ≡ self }
        ensures keeps { IsFresh K.program K.workers K.passes H.hall self }
    {
        let Fresh {
            task,
            pass,
            pause,
            events,
            of: _,
        } = self;
        (task, pass, pause, events)
    }
}
