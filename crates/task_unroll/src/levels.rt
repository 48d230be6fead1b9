//! The blocks that are open where the unroller stands.

ghost use Rattle.std.specs.Prelude.{◌≡◌, [], ◌∷◌, ◌++◌, option_to_list, OnOk, IfNone};

use std::alloc::{AllocError, Global};
use std::marker::Model;

/// What is left of a `for`.
#[derive(Clone, Copy, Debug)]
pub(crate) struct Turns {
    /// The place of its line.
    pub(crate) at: usize,
    /// The variable's value in the next turn.
    pub(crate) next: i64,
    /// The value that no turn has any more.
    pub(crate) to: i64,
}

/// An open block.
#[derive(Clone, Copy, Debug)]
pub(crate) enum Level {
    Turns(Turns),
    /// A branch of an `if`.
    Branch,
    /// A task, and the line of its `task`.
    Task(u32),
}

/// The open blocks. Contracts see them as a list, the innermost first.
#[derive(Debug, Drop)]
pub(crate) struct Levels {
    items: Vec<Level>,
}

impl Model for Levels {
    ghost use Rattle.std.specs.Prelude.{List, reverse};
    ghost use Rattle.task_unroll.specs.declared.levels.Level.{Level};

    ghost Value = { List Level };

    ghost view = { λ l. reverse l.items.items };
}

impl Levels {
    pub(crate) fn none(alloc: Global) -> Levels
        ensures { result ≡ [] }
    {
        Levels {
            items: Vec::new(alloc),
        }
    }

    pub(crate) fn push(&mut self, level: Level) -> Result<(), AllocError>
        ensures { OnOk result (self.new ≡ level ∷ self.old) }
    {
        self.items.push(level)?;
        Ok(())
    }

    pub(crate) fn pop(&mut self) -> Option<Level>
        ensures some { self.old ≡ option_to_list result ++ self.new }
        ensures none { IfNone result (self.old ≡ []) }
    {
        self.items.pop()
    }
}
