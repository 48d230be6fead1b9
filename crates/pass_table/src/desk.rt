//! What the tests' threads share beside the table: its pen under a lock, and the last note that was left.

ghost use Rattle.std.specs.Prelude.{◌≡◌, length, IfSome};

use crate::{Note, Pass, PassTable, Pen};
use std::marker::{Brand, Model, PhantomData};

// Names a table. A call picks it.
pub(crate) trait Naming {
    ghost use Rattle.pass_table.specs.Passes.{TableId};

    ghost table: { TableId };
}

impl Naming for Brand {
    ghost use Rattle.std.specs.Prelude.{[]};

    ghost table = { record { words = 0; slots = 0; views_name = 0; atom = 0; block = 0; offset = 0; slot_names = [] } };
}

// The pen, with how many steps its list has.
#[derive(Drop)]
pub(crate) struct Desk<J: Naming> {
    pen: Option<Pen>,
    steps: u64,
    of: PhantomData<J>,
}

impl<J: Naming> Model for Desk<J> {
    ghost use Rattle.std.specs.Prelude.{ℕ, ◌≡◌, length, MatchOption};

    ghost Value = { ℕ };

    ghost view = { λ d. d.steps };

    ghost invariant = { λ d. MatchOption d.pen ⊥ (λ pen. (pen.table ≡ J.table) × (length pen.seen ≡ d.steps)) };
}

impl<J: Naming> Desk<J> {
    pub(crate) fn new(pen: Pen) -> Self
        requires table { pen.table ≡ J.table }
        requires empty { length pen.seen ≡ 0 }
    {
        Desk {
            pen: Some(pen),
            steps: 0,
            of: PhantomData,
        }
    }

    // Appends a step of the pass's caller, where the list has room.
    pub(crate) fn append(&mut self, table: &PassTable, pass: Pass) -> Pass
        requires table { table.now ≡ J.table }
        requires pass { pass.table ≡ J.table }
        ensures { (result.table ≡ J.table) × (result.caller ≡ pass.caller) }
    {
        if self.steps == u64::MAX {
            return pass;
        }
        let old = self.pen.take();
        let Some(pen) = old else { unreachable!() };
        let (pen, pass) = table.append(pen, pass, 0);
        self.pen = Some(pen);
        self.steps += 1;
        pass
    }
}

// The last note that was left, if it was not taken.
#[derive(Drop)]
pub(crate) struct Shelf<J: Naming> {
    note: Option<Note>,
    of: PhantomData<J>,
}

impl<J: Naming> Model for Shelf<J> {
    ghost use Rattle.std.specs.Prelude.{◌≡◌, ⊤, Option, MatchOption};
    ghost use Rattle.pass_table.specs.Passes.{NoteIs};

    ghost Value = { Option NoteIs };

    ghost view = { λ s. s.note };

    ghost invariant = { λ s. MatchOption s.note ⊤ (λ note. note.table ≡ J.table) };
}

impl<J: Naming> Shelf<J> {
    pub(crate) fn new() -> Self {
        Shelf {
            note: None,
            of: PhantomData,
        }
    }

    // Leaves a note, and takes the one that was there.
    pub(crate) fn exchange(&mut self, note: Note) -> Option<Note>
        requires { note.table ≡ J.table }
        ensures { IfSome result (λ other. other.table ≡ J.table) }
    {
        self.note.replace(note)
    }
}
