//! Counts of the answers that the calls with a pass gave.

/// A count for each of the answers Ok, Err, Some and None, which rises with each such answer and never falls. It stays at the last value of its type.
#[derive(Clone, Copy, Debug, PartialEq, Eq)]
pub struct Counts {
    pub puts: u64,
    pub fulls: u64,
    pub takes: u64,
    pub empties: u64,
}
