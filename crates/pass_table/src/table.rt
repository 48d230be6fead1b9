//! The table: its calls.

ghost use Rattle.std.specs.Prelude.{◌≡◌, ◌+◌, ◌-◌, ◌^◌, ◌<◌, ◌≤◌, [], ◌∷◌, ◌++◌, length, IfOk};
ghost use mathlib.Core.List.{IsPrefix};
ghost use Rattle.pass_table.specs.Passes.{HasItsSteps, longer, new_passes, AreOfOneList};

use crate::note::Note;
use crate::pass::Pass;
use crate::pen::Pen;
use crate::rule::{Looks, Meets, Notes, Passing, Settles};
use crate::steps::next_pass;
use crate::view::View;
use atomic_table::Table;
use std::alloc::{AllocError, Global};
use std::marker::{Brand, Model};

/// One list of pairs of a caller and a number, which only grows. The list exists in contracts alone; threads share its length.
#[derive(Drop)]
pub struct PassTable {
    pub(crate) table: Table<u8, View, (), Passing, Global>,
}

impl Model for PassTable {
    ghost use Rattle.std.specs.Prelude.{◌≡◌};
    ghost use Rattle.pass_table.specs.Passes.{TableId};

    ghost Value = { TableId };

    ghost view = { λ t. t.table.shared.table_id };

    ghost invariant = { λ t. t.table.shared.table_id.words ≡ 1 };
}

impl PassTable {
    /// A table with an empty list, its pen, and a pass for each caller from 0 on.
    #[tactic(auto, using(crate::proofs::Stepping::opens))]
    pub fn build(alloc: Global, callers: u32) -> Result<(PassTable, Pen, Vec<Pass>), AllocError>
        requires { 1 ≤ callers }
        ensures pen { IfOk result (λ made. (made.1.table ≡ made.0) × (made.1.seen ≡ [])) }
        ensures passes { IfOk result (λ made. made.2.items ≡ new_passes made.0 callers) }
    {
        let (table, mut seat) = Table::<u8, View, (), Passing, Global>::of_words(alloc, &[0], &())?;
        let mut passes = Vec::with_capacity(alloc, callers as usize)?;
        for caller in 0..callers {
            passes.push(next_pass(&table, &mut seat, caller))?;
        }
        Ok((PassTable { table }, Pen { seat }, passes))
    }

    /// The list grows by the pair of the pass's caller and `what`, and both have seen it.
    pub fn append(&self, pen: Pen, pass: Pass, what: u32) -> (Pen, Pass)
        requires pen { pen.table ≡ self.now }
        requires pass { pass.table ≡ self.now }
        requires room { length pen.seen < 2 ^ 64 - 1 }
        ensures pen { result.0 ≡ record { table = pen.table; seen = pen.seen ++ (pass.caller, what) ∷ [] } }
        ensures pass { result.1 ≡ record { table = pass.table; caller = pass.caller; steps = pass.steps + 1; seen = result.0.seen } }
        ensures before { IsPrefix pass.seen pen.seen }
        ensures steps { HasItsSteps pass pass.seen × HasItsSteps pass pen.seen }
    {
        self.append_as::<Brand>(pen, pass, what)
    }

    /// The pass has seen the pen's list.
    pub fn catch_up(&self, pen: Pen, pass: Pass) -> (Pen, Pass)
        requires pen { pen.table ≡ self.now }
        requires pass { pass.table ≡ self.now }
        ensures pen { result.0 ≡ pen }
        ensures pass { result.1 ≡ record pass { seen = pen.seen } }
        ensures before { IsPrefix pass.seen pen.seen }
        ensures steps { HasItsSteps pass pass.seen × HasItsSteps pass pen.seen }
    {
        let caller = pass.caller;
        let mut seat = self.hold(pen, pass);
        self.table.shared.load::<Looks>(&mut seat, 0);
        self.part(seat, caller)
    }

    /// A note of what the pass has seen.
    #[tactic(auto, using(crate::proofs::Stepping::notes))]
    pub fn note(&self, pass: Pass) -> (Pass, Note)
        requires { pass.table ≡ self.now }
        ensures pass { result.0 ≡ pass }
        ensures note { result.1 ≡ record { table = pass.table; seen = pass.seen } }
    {
        let Pass { caller, mut seat } = pass;
        let note = self.table.shared.split_seat::<Notes>(&mut seat);
        (Pass { caller, seat }, Note { seat: note })
    }

    /// The pass has seen the longer of the two lists, which begins with both.
    #[tactic(auto, using(crate::proofs::Stepping::meets, crate::proofs::Fronts::of_one_list))]
    pub fn meet(&self, pass: Pass, note: Note) -> Pass
        requires pass { pass.table ≡ self.now }
        requires note { note.table ≡ self.now }
        ensures longer { result ≡ record pass { seen = longer pass.seen note.seen } }
        ensures before { IsPrefix pass.seen result.seen × IsPrefix note.seen result.seen }
        ensures one_list { AreOfOneList pass.seen note.seen }
        ensures steps { HasItsSteps pass pass.seen × HasItsSteps pass result.seen }
    {
        let Pass { caller, mut seat } = pass;
        self.table.shared.join_seat::<Meets>(&mut seat, note.seat);
        self.table.shared.load::<Looks>(&mut seat, 0);
        Pass { caller, seat }
    }

    /// The pen's list begins with the note's.
    #[tactic(auto, using(crate::proofs::Stepping::settles))]
    pub fn settle(&self, pen: Pen, note: Note) -> Pen
        requires pen { pen.table ≡ self.now }
        requires note { note.table ≡ self.now }
        ensures pen { result ≡ pen }
        ensures before { IsPrefix note.seen pen.seen }
    {
        let Pen { mut seat } = pen;
        self.table.shared.join_seat::<Settles>(&mut seat, note.seat);
        self.table.shared.load::<Looks>(&mut seat, 0);
        Pen { seat }
    }
}
