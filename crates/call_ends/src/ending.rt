//! How a call ends.
ghost use Rattle.std.specs.Prelude.{◌≡◌};
ghost use Rattle.call_ends.specs.Ending.{verdict_status, refusal_status};

use rt_base::{FaultKind, LimitName};

/// Why a call runs nothing.
#[derive(Clone, Copy, Debug, PartialEq, Eq)]
pub enum Refusal {
    /// The words give no command.
    Words,
    /// A read failed.
    ReadFault,
    /// The input is longer than a text may be.
    TooLong,
    /// The text has this first fault, at this line, counted from 1.
    Fault { line: u32, kind: FaultKind },
    /// The text meets this limit first.
    Limit { which: LimitName },
}

/// How a run ended.
#[derive(Clone, Copy, Debug, PartialEq, Eq)]
pub enum Verdict {
    /// All tasks are released.
    Finished,
    /// No task can move, and not all are released.
    Stuck,
}

/// How a call ended.
#[derive(Clone, Copy, Debug, PartialEq, Eq)]
pub enum Ending {
    Ran(Verdict),
    Refused(Refusal),
}

/// The exit status of a run whose report was written.
pub fn verdict_status(verdict: Verdict) -> u8
    ensures { result ≡ verdict_status verdict }
{
    match verdict {
        Verdict::Finished => 0,
        Verdict::Stuck => 1,
    }
}

/// The exit status of a refusal whose text was written.
pub fn refusal_status(refusal: Refusal) -> u8
    ensures { result ≡ refusal_status refusal }
{
    match refusal {
        Refusal::Words => 2,
        Refusal::ReadFault => 4,
        Refusal::TooLong => 7,
        Refusal::Fault { .. } => 3,
        Refusal::Limit { .. } => 8,
    }
}
