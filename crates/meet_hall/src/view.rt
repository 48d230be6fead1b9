//! What each party of a meeting knows. No value of these types is made: they stand in contracts and proofs alone.

use atomic_table::Badge;
use meetings::Move;
use std::collections::LinkedList;
use std::marker::Model;

/// The name of a hall.
pub struct HallName {
    badge: Badge<()>,
}

impl Model for HallName {
    ghost use Rattle.atomic_table.specs.Seated.{TableId};

    ghost Value = { TableId };

    ghost view = { λ n. n.badge.table_id };
}

/// What a holder knows: its hall and meeting, the round, where its slots begin and how many places there are, the places that it issued in this
/// round, and those of the round before whose notes it has not taken.
pub struct Desk {
    pub hall: HallName,
    pub meeting: u32,
    pub round: u64,
    pub base: usize,
    pub places: u32,
    pub issued: LinkedList<u32>,
    pub left: LinkedList<u32>,
}

/// What a ticket knows: its hall and meeting, the round, where the slots begin, how many places there are, and its own.
pub struct Chit {
    pub hall: HallName,
    pub meeting: u32,
    pub round: u64,
    pub base: usize,
    pub places: u32,
    pub place: u32,
}

/// What a party that has come knows: the moves of the round up to its own, which is the newest.
pub struct Trace {
    pub hall: HallName,
    pub meeting: u32,
    pub round: u64,
    pub log: LinkedList<Move>,
}

/// What a seat of the table knows.
pub enum View {
    /// No holder was made yet for this meeting and those after it.
    Builds(u32),
    /// A holder at rest.
    Holds(Desk),
    /// A holder that counted a ticket for this place, whose seat it still has.
    Issues(Desk, u32),
    /// A holder that has the note of this place out.
    Takes(Desk, u32),
    /// A holder that has the record's slot out before it comes.
    Parks(Desk),
    /// The last party, before it takes the record.
    Lasts(Desk),
    /// The last party, with the record's slot out.
    Ends(Desk),
    /// A ticket at rest.
    Comes(Chit),
    /// A ticket that has its note's slot out before it comes.
    Puts(Chit),
    /// A party that has come and was not the last.
    Gone(Trace),
}
