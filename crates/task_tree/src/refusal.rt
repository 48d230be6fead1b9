//! Why a line was not read.

ghost use Rattle.std.specs.Prelude.{◌≡◌};

use rt_base::FaultKind;
use std::alloc::{AllocError, AllocFailed};

/// Why a line was not read: its first fault, or want of memory.
#[derive(Debug, Drop)]
pub enum LineRefusal {
    Fault(FaultKind),
    Memory,
}

impl From<AllocError> for LineRefusal {
    ghost use Rattle.task_tree.specs.declared.refusal.LineRefusal.TheVariants as refusal;
    ghost use Rattle.std.specs.Prelude.{◌≡◌};

    ghost from_gives = { λ _ e. e ≡ refusal.Memory };

    fn from(_refused: AllocError) -> LineRefusal {
        LineRefusal::Memory
    }
}

impl<T: Drop> From<AllocFailed<T>> for LineRefusal {
    ghost use Rattle.task_tree.specs.declared.refusal.LineRefusal.TheVariants as refusal;
    ghost use Rattle.std.specs.Prelude.{◌≡◌};

    ghost from_gives = { λ _ e. e ≡ refusal.Memory };

    fn from(_refused: AllocFailed<T>) -> LineRefusal {
        LineRefusal::Memory
    }
}
