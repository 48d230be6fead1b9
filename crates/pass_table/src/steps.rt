//! Pen and pass in one seat and apart again, and the step between.

ghost use Rattle.std.specs.Prelude.{◌≡◌, ◌+◌, ◌-◌, ◌^◌, ◌<◌, [], ◌∷◌, ◌++◌, length};
ghost use mathlib.Core.List.{IsPrefix};
ghost use Rattle.pass_table.specs.Passes.{HasItsSteps, new_pass};
ghost use Rattle.pass_table.specs.Views.{pen_of, IsHeld, IsBoth};

use crate::pass::Pass;
use crate::pen::Pen;
use crate::rule::{Appends, Deals, Holds, Parts, Passing, Saying};
use crate::table::PassTable;
use crate::view::View;
use atomic_table::{Seat, Table};
use std::alloc::Global;

// The pass of the next caller.
#[tactic(auto, using(crate::proofs::Stepping::deals))]
pub(crate) fn next_pass(
    table: &Table<u8, View, (), Passing, Global>,
    seat: &mut Seat<u8, View>,
    caller: u32,
) -> Pass
    requires table { (seat.old.table_id ≡ table.now.shared.table_id) × (table.now.shared.table_id.words ≡ 1) }
    requires seat { seat.old.me ≡ (pen_of caller [], []) }
    ensures table { seat.new.table_id ≡ seat.old.table_id }
    ensures seat { seat.new.me ≡ (pen_of (caller + 1) [], []) }
    ensures pass { result ≡ new_pass seat.old.table_id caller }
{
    let seat = table.shared.split_seat::<Deals>(seat);
    Pass { caller, seat }
}

impl PassTable {
    // Pen and pass in one seat. What it has seen of them is compared at the next step.
    #[tactic(auto, using(crate::proofs::Stepping::holds))]
    pub(crate) fn hold(&self, pen: Pen, pass: Pass) -> Seat<u8, View>
        requires pen { pen.table ≡ self.now }
        requires pass { pass.table ≡ self.now }
        ensures table { result.table_id ≡ self.now }
        ensures seat { IsHeld pen pass result.me }
    {
        let mut seat = pen.seat;
        self.table.shared.join_seat::<Holds>(&mut seat, pass.seat);
        seat
    }

    // Pen and pass of this caller, apart again.
    #[tactic(auto, using(crate::proofs::Stepping::parts_split))]
    pub(crate) fn part(&self, mut seat: Seat<u8, View>, caller: u32) -> (Pen, Pass)
        requires table { seat.table_id ≡ self.now }
        requires seat { IsBoth caller seat.me }
        ensures pen { result.0 ≡ record { table = seat.table_id; seen = seat.me.0.seen } }
        ensures pass { result.1 ≡ record { table = seat.table_id; caller = caller; steps = seat.me.0.steps; seen = seat.me.0.seen } }
    {
        let pass = self.table.shared.split_seat::<Parts>(&mut seat);
        (Pen { seat }, Pass { caller, seat: pass })
    }

    // The step of `append`, told by a type which number goes into the list.
    #[tactic(auto, using(crate::proofs::Stepping::appends))]
    pub(crate) fn append_as<W: Saying>(&self, pen: Pen, pass: Pass, what: u32) -> (Pen, Pass)
        requires pen { pen.table ≡ self.now }
        requires pass { pass.table ≡ self.now }
        requires room { length pen.seen < 2 ^ 64 - 1 }
        requires what { what ≡ W.what }
        ensures pen { result.0 ≡ record { table = pen.table; seen = pen.seen ++ (pass.caller, what) ∷ [] } }
        ensures pass { result.1 ≡ record { table = pass.table; caller = pass.caller; steps = pass.steps + 1; seen = result.0.seen } }
        ensures before { IsPrefix pass.seen pen.seen }
        ensures steps { HasItsSteps pass pass.seen × HasItsSteps pass pen.seen }
    {
        let _ = what;
        let caller = pass.caller;
        let mut seat = self.hold(pen, pass);
        self.table.shared.fetch_add::<Appends<W>>(&mut seat, 0, 1);
        self.part(seat, caller)
    }
}
