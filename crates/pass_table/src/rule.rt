//! The rule of the table, and what each kind of atomic step does to a seat's data.

ghost use Rattle.std.specs.Prelude.{◌≡◌, ◌+◌, ℕ, []};
ghost use Rattle.pass_table.specs.Views.{IsRuled, pen_of, pass_of, note_of, held_by, met_by, settled_by, Looked, Appended};

use crate::view::View;
use atomic_table::{Join, Play, Split, TableRule};
use std::marker::{Brand, PhantomData};

// The word is the length of one list, of which each seat has seen a front.
pub struct Passing;

impl TableRule<u8, View, ()> for Passing {
    ghost holds = { λ _ s. IsRuled s };

    ghost first = { λ _. pen_of 0 [] };
}

// A note is cut off a pass.
pub struct Notes;

impl Split<View> for Notes {
    ghost left = { λ v. v };

    ghost right = { λ v. note_of v.seen };
}

// Pen and pass are cut apart again.
pub struct Parts;

impl Split<View> for Parts {
    ghost left = { λ v. pen_of v.made v.seen };

    ghost right = { λ v. pass_of v.caller v.steps v.seen };
}

// The next caller's pass is cut off a pen that has appended nothing.
pub struct Deals;

impl Split<View> for Deals {
    ghost left = { λ v. pen_of (v.made + 1) v.seen };

    ghost right = { λ v. pass_of v.made 0 v.seen };
}

// A pass is joined to the pen.
pub struct Holds;

impl Join<View> for Holds {
    ghost both = { held_by };

    ghost spent = { note_of [] };
}

// A note is joined to a pass.
pub struct Meets;

impl Join<View> for Meets {
    ghost both = { met_by };

    ghost spent = { note_of [] };
}

// A note is joined to the pen.
pub struct Settles;

impl Join<View> for Settles {
    ghost both = { settled_by };

    ghost spent = { note_of [] };
}

// The word is read: the seat stays, and learns what it may compare.
pub struct Looks;

impl Play<u8, View> for Looks {
    ghost then = { λ _ v _ w. Looked v.0 w.0 × (w.1 ≡ v.1) };
}

// Names a number in a contract.
pub trait Saying {
    ghost what: { ℕ };
}

// The name that each call of `append` picks anew.
impl Saying for Brand {
    ghost what = { 0 };
}

// The word grows by one, and the list by the pair of the seat's caller and the number that is named.
pub struct Appends<W: Saying> {
    of: PhantomData<W>,
}

impl<W: Saying> Play<u8, View> for Appends<W> {
    ghost then = { λ _ v _ w. Appended W.what v.0 w.0 × (w.1 ≡ v.1) };
}
