//! What names meant before they were changed.

ghost use Rattle.std.specs.Prelude.{◌≡◌, true, [], ◌∷◌, ◌++◌, IsTrue, IfSome, IfNone, OnOk, OnErr};
ghost use Rattle.task_names.specs.Undoing.{has_place, IsNoted};

use crate::meaning::Meaning;
use std::alloc::{AllocError, Global};
use std::marker::Model;

/// What the name at a place meant.
#[derive(Clone, Copy)]
pub(crate) struct Change {
    pub place: usize,
    pub meant: Meaning,
}

/// The changes that can be undone, the newest last.
// Where `noted` is true at a place, the log has a change of that place, and needs no other.
#[derive(Drop)]
pub(crate) struct Log {
    changes: Vec<Change>,
    noted: Vec<bool>,
}

impl Model for Log {
    ghost use Rattle.std.specs.Prelude.{◌≡◌, ℕ, true, List, Some, slice_get};
    ghost use Rattle.task_names.specs.declared.log.Change.{Change as Changed};
    ghost use Rattle.task_names.specs.Undoing.{has_place, NotesOnly};

    ghost Value = { List Changed };

    ghost view = { λ l. l.changes.items };

    ghost invariant = { λ l. NotesOnly l.changes.items l.noted.items };
}

impl Log {
    /// No changes. Takes no memory.
    pub fn empty(alloc: Global) -> Log
        ensures { result ≡ [] }
    {
        Log {
            changes: Vec::new(alloc),
            noted: Vec::new(alloc),
        }
    }

    /// Makes room for the flag of one more place.
    pub fn add_place(&mut self) -> Result<(), AllocError>
        ensures { self.new ≡ self.old }
    {
        self.noted.push(false)?;
        Ok(())
    }

    // Whether the log surely has a change of this place.
    fn has(&self, place: usize) -> bool
        ensures { IsTrue result → has_place place self.now ≡ true }
    {
        place < self.noted.len() && self.noted[place]
    }

    // Adds a change.
    #[tactic(auto, using(crate::proofs::Noting::noted_push, crate::proofs::Noting::noted_more))]
    fn push(&mut self, change: Change) -> Result<(), AllocError>
        ensures ok { OnOk result (self.new ≡ self.old ++ change ∷ []) }
        ensures err { OnErr result (self.new ≡ self.old) }
    {
        self.changes.push(change)?;
        if change.place < self.noted.len() {
            self.noted[change.place] = true;
        }
        Ok(())
    }

    /// Notes what a name meant, unless an older meaning of it is noted already.
    #[tactic(auto, using(crate::proofs::Undone::pushed, crate::proofs::Undone::hidden))]
    pub fn note(&mut self, change: Change) -> Result<(), AllocError>
        ensures ok { OnOk result (IsNoted change self.old self.new) }
        ensures err { OnErr result (self.new ≡ self.old) }
    {
        if self.has(change.place) {
            return Ok(());
        }
        self.push(change)
    }

    /// Takes the newest change.
    #[tactic(auto, using(crate::proofs::Noting::noted_pop, crate::proofs::Noting::noted_past))]
    pub fn pop(&mut self) -> Option<Change>
        ensures some { IfSome result (λ change. self.old ≡ self.new ++ change ∷ []) }
        ensures none { IfNone result ((self.old ≡ []) × (self.new ≡ [])) }
    {
        let change = self.changes.pop()?;
        if change.place < self.noted.len() {
            self.noted[change.place] = false;
        }
        Some(change)
    }

    /// Forgets all changes.
    pub fn clear(&mut self)
        ensures { self.new ≡ [] }
    {
        while let Some(_) = self.pop() {}
    }

    /// Forgets the flags of the places from here on.
    pub fn cut(&mut self, places: usize)
        ensures { self.new ≡ self.old }
    {
        self.noted.truncate(places);
    }
}
