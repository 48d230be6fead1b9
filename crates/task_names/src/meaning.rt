//! What a name means.

/// What a name means on a rank at one moment. Arrays, communicators, variables and handles share one space.
#[derive(Clone, Copy, Debug, PartialEq, Eq)]
pub enum Meaning {
    /// A variable with its value.
    Variable(i64),
    /// The array of this number.
    Array(u16),
    /// The communicator of this number; 0 is world, which has no name (MPI 4.0, 7.2).
    Communicator(u16),
    /// A handle of the task's nth request, which no wait has named yet (MPI 4.0, 3.7).
    Posted(u32),
    /// A handle that a wait has named: the null request (MPI 4.0, 3.7.3).
    Idle,
}
