//! Why a text was not read.

ghost use Rattle.std.specs.Prelude.{◌≡◌};

use rt_base::FaultKind;
use std::alloc::{AllocError, AllocFailed};
use thiserror::Error;

/// Why there is no tree.
#[derive(Debug, Drop, Error)]
pub enum ParseRefusal {
    /// The first faulty line, counted from 1, and its fault.
    #[error("line {line} has a fault")]
    Fault { line: u32, kind: FaultKind },
    #[error("out of memory")]
    Memory,
}

impl From<AllocError> for ParseRefusal {
    ghost use Rattle.task_parse.specs.declared.refusal.ParseRefusal.TheVariants as refusal;
    ghost use Rattle.std.specs.Prelude.{◌≡◌};

    ghost from_gives = { λ _ e. e ≡ refusal.Memory };

    fn from(_refused: AllocError) -> ParseRefusal {
        ParseRefusal::Memory
    }
}

impl<T: Drop> From<AllocFailed<T>> for ParseRefusal {
    ghost use Rattle.task_parse.specs.declared.refusal.ParseRefusal.TheVariants as refusal;
    ghost use Rattle.std.specs.Prelude.{◌≡◌};

    ghost from_gives = { λ _ e. e ≡ refusal.Memory };

    fn from(_refused: AllocFailed<T>) -> ParseRefusal {
        ParseRefusal::Memory
    }
}
