//! One party that comes.

ghost use Rattle.hall_rounds.specs.Rounds.{MayPark, MayArrive, EndsAt};

use meet_hall::{Guest, Hall, Holder, Met, Ticket};
use std::thread;

/// A number, which fits anywhere: of a record 1000, of the note of a place 1 more than the place.
#[derive(Clone, Copy, Debug, PartialEq, Eq)]
pub struct Number(pub u32);

impl Guest for Number {
    ghost fits = { λ _ _ _ _. Unit {0} };
}

// Lets other threads go first, so many times.
fn wait_turns(turns: u32) {
    for _ in 0..turns {
        thread::yield_now();
    }
}

pub(crate) fn park(hall: &Hall<Number, Number>, holder: Holder, turns: u32) -> Met<Number>
    requires { MayPark hall.now holder }
    ensures { EndsAt hall.now result }
{
    wait_turns(turns);
    hall.park(holder, Number(1000))
}

pub(crate) fn arrive(hall: &Hall<Number, Number>, ticket: Ticket, turns: u32) -> Met<Number>
    requires { MayArrive hall.now ticket }
    ensures { EndsAt hall.now result }
{
    wait_turns(turns);
    let note = Number(ticket.place().wrapping_add(1));
    hall.arrive(ticket, note)
}
