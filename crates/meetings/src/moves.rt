//! The moves of a round.

/// What a party does at a meeting.
#[derive(Clone, Copy, Debug, PartialEq, Eq)]
pub enum Move {
    /// The holder hands out a ticket for this place.
    Issue(u32),
    /// The holder comes, with a record.
    Park,
    /// The ticket of this place comes, with a note.
    Arrive(u32),
}
