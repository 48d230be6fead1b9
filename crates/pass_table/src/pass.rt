//! What one caller has seen.

ghost use Rattle.std.specs.Prelude.{◌≡◌};
ghost use Rattle.pass_table.specs.Passes.{HasItsSteps};

use crate::view::View;
use atomic_table::Seat;
use std::marker::Model;

/// What one caller has seen of the list of a table: contracts see the caller, the front of the list that was seen, and
/// how many steps the caller made. The caller stands in that front just as often.
#[derive(Drop)]
pub struct Pass {
    pub(crate) caller: u32,
    pub(crate) seat: Seat<u8, View>,
}

impl Model for Pass {
    ghost use Rattle.std.specs.Prelude.{◌≡◌, true, false, []};
    ghost use Rattle.pass_table.specs.Passes.{PassIs, times};

    ghost Value = { PassIs };

    ghost view = { λ p. record { table = p.seat.table_id; caller = p.caller; steps = p.seat.me.0.steps; seen = p.seat.me.0.seen } };

    ghost invariant = { λ p. (p.seat.me.0.pen ≡ false) × (p.seat.me.0.names ≡ true) × (p.seat.me.0.caller ≡ p.caller) × (p.seat.me.1 ≡ [])
        × (times p.caller p.seat.me.0.seen ≡ p.seat.me.0.steps) };
}

impl Pass {
    /// The caller that the pass names.
    pub fn caller(&self) -> u32
        ensures caller { result ≡ self.now.caller }
        ensures steps { HasItsSteps self.now self.now.seen }
    {
        self.caller
    }
}
