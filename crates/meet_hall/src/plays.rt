//! What each kind of atomic step tells its caller, and how seats are split.

ghost use Rattle.meet_hall.specs.Steps.{holder_made, holder_of_made, ticket_made, ticket_of_made, Issued, Opened, Parked, Brought, Came, TakenRecord, TakenOut, Returned, Rearmed};

use crate::guest::Guest;
use crate::slot::Slot;
use crate::view::View;
use atomic_table::{Play, Split};
use std::marker::{Brand, PhantomData};

/// Where a holder is made: its hall, the first of its slots, and how many places it has.
pub(crate) trait Opening {
    ghost use Rattle.std.specs.Prelude.{ℕ};
    ghost use Rattle.atomic_table.specs.Seated.{TableId};

    ghost hall: { TableId };

    ghost start: { ℕ };

    ghost size: { ℕ };
}

impl Opening for Brand {
    ghost use Rattle.meet_hall.specs.Views.{no_hall};

    ghost hall = { no_hall };

    ghost start = { 0 };

    ghost size = { 0 };
}

/// The place that a step is about.
pub(crate) trait Choice {
    ghost use Rattle.std.specs.Prelude.{ℕ};

    ghost place: { ℕ };
}

impl Choice for Brand {
    ghost place = { 0 };
}

/// The building seat gives a holder its seat.
pub(crate) struct MakesHolder<J: Opening>(PhantomData<J>);

impl<J: Opening> Split<View> for MakesHolder<J> {
    ghost left = { holder_made };

    ghost right = { holder_of_made J.hall J.start J.size };
}

/// A holder gives a ticket its seat.
pub(crate) struct MakesTicket;

impl Split<View> for MakesTicket {
    ghost left = { ticket_made };

    ghost right = { ticket_of_made };
}

/// A holder counts one party more.
pub(crate) struct Issues<P: Choice>(PhantomData<P>);

impl<R: Guest, N: Guest, P: Choice> Play<Slot<R, N>, View> for Issues<P> {
    ghost then = { λ _ v _ w. Issued P.place v w };
}

/// A holder takes the record's slot, to put its record in.
pub(crate) struct Opens;

impl<R: Guest, N: Guest> Play<Slot<R, N>, View> for Opens {
    ghost then = { λ _ v _ w. Opened v w };
}

/// A holder comes.
pub(crate) struct Parks;

impl<R: Guest, N: Guest> Play<Slot<R, N>, View> for Parks {
    ghost then = { λ _ v found w. Parked v found w };
}

/// A ticket takes its note's slot, to put its note in.
pub(crate) struct Brings;

impl<R: Guest, N: Guest> Play<Slot<R, N>, View> for Brings {
    ghost then = { λ _ v _ w. Brought v w };
}

/// A ticket comes.
pub(crate) struct Arrives;

impl<R: Guest, N: Guest> Play<Slot<R, N>, View> for Arrives {
    ghost then = { λ _ v found w. Came v found w };
}

/// The last party takes the record.
pub(crate) struct TakesRecord;

impl<R: Guest, N: Guest> Play<Slot<R, N>, View> for TakesRecord {
    ghost then = { λ _ v _ w. TakenRecord R.fits v w };
}

/// A holder takes a note of the round before.
pub(crate) struct TakesNote<P: Choice>(PhantomData<P>);

impl<R: Guest, N: Guest, P: Choice> Play<Slot<R, N>, View> for TakesNote<P> {
    ghost then = { λ _ v _ w. TakenOut N.fits P.place v w };
}

/// A holder gives back the slot whose note it took.
pub(crate) struct Returns;

impl<R: Guest, N: Guest> Play<Slot<R, N>, View> for Returns {
    ghost then = { λ _ v _ w. Returned v w };
}

/// The last party begins the next round.
pub(crate) struct Rearms;

impl<R: Guest, N: Guest> Play<Slot<R, N>, View> for Rearms {
    ghost then = { λ _ v _ w. Rearmed v w };
}
