//! A worker's hand.

ghost use Rattle.std.specs.Prelude.{◌≡◌};
ghost use Rattle.shared_lists.specs.Sound.{IsPoller};
ghost use Rattle.tampi_calls.specs.Keeping.{shape_of, new_hand};

use crate::held::Held;
use meet_hall::Stub;
use pass_table::Pass;
use shared_tasks::{Run, Site};
use std::marker::Model;
use turn_table::{Look, Shape};

/// A worker's hand: what it holds, with the worker's own passes. The stub is that of the last party that this worker brought to a meeting where others had
/// not come, and the pass of a task that is gone is that of the task that it released last.
#[derive(Drop)]
pub struct Hand<K: Run, H: Site, P: Drop> {
    /// The number of the worker.
    pub worker: u16,
    /// The pass with which the worker polls, offers and looks.
    pub pass: Pass,
    /// The pass of the ready queue.
    pub bag: P,
    pub held: Held<K, H>,
    /// The stub of the last arrival that was not the last of its round.
    pub last: Option<Stub>,
    /// The pass of the task that was released last.
    pub gone: Option<Pass>,
}

impl<K: Run, H: Site, P: Drop> Model for Hand<K, H, P> {
    ghost use Rattle.std.specs.Prelude.{◌≡◌};
    ghost use Rattle.shared_lists.specs.Sound.{IsPoller};
    ghost use Rattle.tampi_calls.specs.declared.held.Held.{Held};
    ghost use Rattle.tampi_calls.specs.Values.{HandIs};
    ghost use Rattle.tampi_calls.specs.Keeping.{HeldKeeps};

    ghost Value = { HandIs (Held K H) P };

    ghost view = { λ h. record { worker = h.worker; pass = h.pass; bag = h.bag; held = h.held; last = h.last; gone = h.gone } };

    ghost invariant = { λ h. (h.pass.table ≡ K.passes) × IsPoller K.program K.workers h.pass.caller × HeldKeeps K.program h.held };
}

impl<K: Run, H: Site, P: Drop> Hand<K, H, P> {
    /// The hand with which a worker begins: it holds nothing, and looks for a notice.
    pub fn new(worker: u16, pass: Pass, bag: P) -> Self
        requires pass { pass.table ≡ K.passes }
        requires poller { IsPoller K.program K.workers pass.caller }
        ensures { result ≡ new_hand worker pass bag }
    {
        Hand {
            worker,
            pass,
            bag,
            held: Held::Nothing(Look::Poll),
            last: None,
            gone: None,
        }
    }

    /// What it holds, without the contents.
    pub fn shape(&self) -> Shape
        ensures { result ≡ shape_of self.now.held }
    {
        match &self.held {
            Held::Nothing(look) => Shape::Nothing(*look),
            Held::Offered(_) => Shape::Offered,
            Held::Fresh(_) => Shape::Fresh,
            Held::Ready(_) => Shape::Ready,
            Held::Pending(_, door) => Shape::Pending(*door),
            Held::Told(_) => Shape::Told,
            Held::Resumed(_) => Shape::Resumed,
        }
    }

    /// Its worker.
    pub fn worker(&self) -> u16
        ensures { result ≡ self.now.worker }
    {
        self.worker
    }
}
