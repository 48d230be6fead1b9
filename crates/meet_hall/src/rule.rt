//! The rule that all words, slots and seats of a hall keep.

ghost use Rattle.std.specs.Prelude.{length, slice_index};
ghost use Rattle.meet_hall.specs.Plan.{start_of};
ghost use Rattle.meet_hall.specs.Rule.{Kept};
ghost use Rattle.meet_hall.specs.declared.view.View.TheVariants.{Builds};

use crate::guest::Guest;
use crate::slot::Slot;
use crate::view::View;
use atomic_table::TableRule;

/// One word and a row of slots for each meeting. The key has the number of places of each.
pub(crate) struct Rule;

impl<R: Guest, N: Guest> TableRule<Slot<R, N>, View, Vec<u32>> for Rule {
    ghost holds = { λ k s. Kept R.fits N.fits (length k.items) (start_of k.items) (slice_index k.items) s };

    ghost first = { λ _. Builds 0 };
}
