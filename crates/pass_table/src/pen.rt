//! The right to append.

use crate::view::View;
use atomic_table::Seat;
use std::marker::Model;

/// The right to append to the one list of a table, of which there is one. It has seen the whole list.
#[derive(Drop)]
pub struct Pen {
    pub(crate) seat: Seat<u8, View>,
}

impl Model for Pen {
    ghost use Rattle.std.specs.Prelude.{◌≡◌, true, false, []};
    ghost use Rattle.pass_table.specs.Passes.{NoteIs};

    ghost Value = { NoteIs };

    ghost view = { λ p. record { table = p.seat.table_id; seen = p.seat.me.0.seen } };

    ghost invariant = { λ p. (p.seat.me.0.pen ≡ true) × (p.seat.me.0.names ≡ false) × (p.seat.me.1 ≡ []) };
}
