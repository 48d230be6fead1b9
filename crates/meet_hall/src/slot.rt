//! What a slot of the hall holds.

ghost use Rattle.std.specs.Prelude.{◌≡◌};
ghost use Rattle.meet_hall.specs.Places.{ListsAre};
ghost use Rattle.meet_hall.specs.declared.slot.Slot.TheVariants.{Empty, Record, Note};

use crate::lists::Lists;

/// Nothing, the record of a holder that has come, with its lists, or the note of a ticket that has come.
#[derive(Drop)]
pub(crate) enum Slot<R, N> {
    Empty,
    Record(R, Lists),
    Note(N),
}

impl<R, N> Slot<R, N> {
    /// Ends an empty slot's value.
    pub(crate) fn vanish(self)
        requires { self ≡ Empty }
    {
        match self {
            Slot::Empty => {}
            Slot::Record(_guest, _lists) => unreachable!(),
            Slot::Note(_note) => unreachable!(),
        }
    }

    /// The record with its lists.
    pub(crate) fn into_record(self) -> (R, Lists)
        requires { (guest : R) × (lists : ListsAre) × (self ≡ Record guest lists) }
        ensures { self ≡ Record result.0 result.1 }
    {
        match self {
            Slot::Record(guest, lists) => (guest, lists),
            Slot::Empty => unreachable!(),
            Slot::Note(_note) => unreachable!(),
        }
    }

    /// The note.
    pub(crate) fn into_note(self) -> N
        requires { (note : N) × (self ≡ Note note) }
        ensures { self ≡ Note result }
    {
        match self {
            Slot::Note(note) => note,
            Slot::Empty => unreachable!(),
            Slot::Record(_guest, _lists) => unreachable!(),
        }
    }
}
