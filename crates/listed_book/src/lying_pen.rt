//! A pen that lies in a place of its own, from which it is taken for a step.

ghost use Rattle.std.specs.Prelude.{◌≡◌, ◌+◌, ◌-◌, ◌^◌, ◌<◌, [], ◌∷◌, ◌++◌, length};
ghost use mathlib.Core.List.{IsPrefix};
ghost use Rattle.pass_table.specs.Passes.{HasItsSteps};

use pass_table::{Note, Pass, PassTable, Pen};
use std::marker::Model;

// Contracts see the table and the list of the pen.
#[derive(Drop)]
pub(crate) struct LyingPen {
    pen: Option<Pen>,
}

impl Model for LyingPen {
    ghost use Rattle.pass_table.specs.Passes.{NoteIs};
    ghost use Rattle.listed_book.specs.Kept.{lying_pen, IsThere};

    ghost Value = { NoteIs };

    ghost view = { λ l. lying_pen l.pen };

    ghost invariant = { λ l. IsThere l.pen };
}

impl LyingPen {
    pub(crate) fn new(pen: Pen) -> Self
        ensures { result ≡ pen }
    {
        LyingPen { pen: Some(pen) }
    }

    // The list grows by the pair of the pass's caller and the number.
    pub(crate) fn append(&mut self, table: &PassTable, pass: Pass, number: u32) -> Pass
        requires pen { self.old.table ≡ table.now }
        requires pass { pass.table ≡ table.now }
        requires room { length self.old.seen < 2 ^ 64 - 1 }
        ensures pen { self.new ≡ record self.old { seen = self.old.seen ++ (pass.caller, number) ∷ [] } }
        ensures pass { result ≡ record pass { steps = pass.steps + 1; seen = self.old.seen ++ (pass.caller, number) ∷ [] } }
        ensures before { IsPrefix pass.seen self.old.seen }
        ensures steps { HasItsSteps pass pass.seen × HasItsSteps pass self.old.seen }
    {
        let old = self.pen.take();
        let Some(pen) = old else { unreachable!() };
        let (pen, pass) = table.append(pen, pass, number);
        self.pen = Some(pen);
        pass
    }

    // The pass has seen the whole list.
    pub(crate) fn catch_up(&mut self, table: &PassTable, pass: Pass) -> Pass
        requires pen { self.old.table ≡ table.now }
        requires pass { pass.table ≡ table.now }
        ensures pen { self.new ≡ self.old }
        ensures pass { result ≡ record pass { seen = self.old.seen } }
        ensures before { IsPrefix pass.seen self.old.seen }
        ensures steps { HasItsSteps pass pass.seen × HasItsSteps pass self.old.seen }
    {
        let old = self.pen.take();
        let Some(pen) = old else { unreachable!() };
        let (pen, pass) = table.catch_up(pen, pass);
        self.pen = Some(pen);
        pass
    }

    // The list begins with what the note has seen.
    pub(crate) fn settle(&mut self, table: &PassTable, note: Note)
        requires pen { self.old.table ≡ table.now }
        requires note { note.table ≡ table.now }
        ensures pen { self.new ≡ self.old }
        ensures before { IsPrefix note.seen self.old.seen }
    {
        let old = self.pen.take();
        let Some(pen) = old else { unreachable!() };
        self.pen = Some(table.settle(pen, note));
    }
}
