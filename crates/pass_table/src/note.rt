//! A front of the list that was seen.

use crate::view::View;
use atomic_table::Seat;
use std::marker::Model;

/// A front of the list that a pass has seen, to be handed to others.
#[derive(Drop)]
pub struct Note {
    pub(crate) seat: Seat<u8, View>,
}

impl Model for Note {
    ghost use Rattle.std.specs.Prelude.{◌≡◌, false, []};
    ghost use Rattle.pass_table.specs.Passes.{NoteIs};

    ghost Value = { NoteIs };

    ghost view = { λ n. record { table = n.seat.table_id; seen = n.seat.me.0.seen } };

    ghost invariant = { λ n. (n.seat.me.0.pen ≡ false) × (n.seat.me.0.names ≡ false) × (n.seat.me.1 ≡ []) };
}
