//! Why a text has no program.

ghost use Rattle.std.specs.Prelude.{◌≡◌};
ghost use Rattle.task_unroll.specs.Unrolling.{at};

use rt_base::{FaultKind, LimitName};
use std::alloc::{AllocError, AllocFailed};
use thiserror::Error;

/// Why there is no program: the first fault or limit that unrolling meets, or want of memory.
#[derive(Debug, Drop, Error)]
pub enum ExpandRefusal {
    /// The line of the statement, counted from 1, and its fault.
    #[error("line {line} has a fault")]
    Fault { line: u32, kind: FaultKind },
    /// The counted quantity that would pass its number.
    #[error("a limit is met")]
    Limit { which: LimitName },
    #[error("out of memory")]
    Memory,
}

impl From<AllocError> for ExpandRefusal {
    ghost use Rattle.task_unroll.specs.declared.refusal.ExpandRefusal.TheVariants as refusal;
    ghost use Rattle.std.specs.Prelude.{◌≡◌};

    ghost from_gives = { λ _ e. e ≡ refusal.Memory };

    fn from(_refused: AllocError) -> ExpandRefusal {
        ExpandRefusal::Memory
    }
}

impl<T: Drop> From<AllocFailed<T>> for ExpandRefusal {
    ghost use Rattle.task_unroll.specs.declared.refusal.ExpandRefusal.TheVariants as refusal;
    ghost use Rattle.std.specs.Prelude.{◌≡◌};

    ghost from_gives = { λ _ e. e ≡ refusal.Memory };

    fn from(_refused: AllocFailed<T>) -> ExpandRefusal {
        ExpandRefusal::Memory
    }
}

/// A fault stands at the line of its statement.
pub(crate) fn at_line<T>(line: u32, found: Result<T, FaultKind>) -> Result<T, ExpandRefusal>
    ensures { result ≡ at line found }
{
    match found {
        Ok(x) => Ok(x),
        Err(kind) => Err(ExpandRefusal::Fault { line, kind }),
    }
}
