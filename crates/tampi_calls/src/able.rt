//! A started task with an enabled step.

ghost use Rattle.std.specs.Prelude.{◌≡◌};
ghost use Rattle.shared_tasks.specs.Keeping.{IsAble};

use shared_tasks::{Live, Run, Site};
use std::marker::Model;

/// A started task with an enabled step: after the list that its pass has seen it may make its next move, and it has issued nothing at its pause meeting.
/// Contracts see the task.
#[derive(Drop)]
pub struct Able<K: Run, H: Site> {
    pub live: Live<K, H>,
}

impl<K: Run, H: Site> Model for Able<K, H> {
    ghost use Rattle.shared_tasks.specs.Values.{LiveIs};
    ghost use Rattle.shared_tasks.specs.Keeping.{IsAble};

    ghost Value = { LiveIs };

    ghost view = { λ a. a.live };

    ghost invariant = { λ a. IsAble K.program a.live };
}

impl<K: Run, H: Site> Able<K, H> {
    /// The task, with an enabled step.
    pub fn new(live: Live<K, H>) -> Self
        requires able { IsAble K.program live }
        ensures { result ≡ live }
    {
        Able { live }
    }

    /// The task.
    pub fn into_live(self) -> Live<K, H>
        ensures task { result ≡ self }
        ensures able { IsAble K.program result }
    {
        self.live
    }
}
