//! What follows from the definition of a posting: each law is the contract of a function that does nothing.

ghost use Rattle.match_engine.specs.Laws.{NothingMatchesIsLeft, MessagesDoNotOvertake, ReceivesDoNotOvertake};
ghost use Rattle.match_engine.specs.Order.{MatchesArePosted, MessagesKeepOrder, ReceivesKeepOrder};

/// No unmatched message matches an unmatched receive (MPI 4.0, 3.5, progress).
pub fn nothing_that_matches_is_left()
    ensures { NothingMatchesIsLeft }
{}

/// Messages never overtake each other: one that the receive accepts and that was posted earlier was matched earlier (between messages of one sender
/// MPI 4.0, 3.5, order; between those of different senders, and of different tasks of one rank, this project's). Said of the match that the next
/// posting makes.
pub fn messages_do_not_overtake()
    ensures { MessagesDoNotOvertake }
{}

/// Receives never overtake each other: one that accepts the message and that was posted earlier was matched earlier (between receives of one task
/// MPI 4.0, 3.5, order; between those of different tasks of one rank this project's). Said of the match that the next posting makes.
pub fn receives_do_not_overtake()
    ensures { ReceivesDoNotOvertake }
{}

/// Each match of a list of postings has a message that one of them sent and a receive that one of them posted at the rank to which it was sent,
/// and the receive accepts the message (MPI 4.0, 3.2.4).
pub fn matches_are_posted()
    ensures { MatchesArePosted }
{}

/// In every match of a list of postings: a message that the receive accepts and that was posted earlier than the message of the match stands in
/// an earlier match (MPI 4.0, 3.5, order; between messages of different senders, or of different tasks of one rank, this project's).
pub fn messages_keep_order()
    ensures { MessagesKeepOrder }
{}

/// In every match of a list of postings: a receive that accepts the message and that was posted earlier than the receive of the match stands in
/// an earlier match (MPI 4.0, 3.5, order; between receives of different tasks of one rank this project's).
pub fn receives_keep_order()
    ensures { ReceivesKeepOrder }
{}
