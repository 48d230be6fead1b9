//! What follows of messages, of notices and of the order of tasks for every legal history: each law is the contract of a function that does nothing.
#![tactic(auto)]

ghost use Rattle.history_laws.specs.Postings.{HistoriesPostInOrder, NothingMatchesAtTheEnd};
ghost use Rattle.history_laws.specs.Order.{EachMatchIsPosted, HistoriesKeepMessages, HistoriesKeepReceives};
ghost use Rattle.history_laws.specs.Notices.{MovesNoticeCompletions, WellFormedWaitsNamePosted, NoticesStandOnce};
ghost use Rattle.history_laws.specs.Starts.{TasksStartInOrder};
ghost use Rattle.history_laws.specs.Telling.{MovesTellOnce, RequestsAreToldAtMostOnce, OpenedAreToldOnce, OwedUntilTold};

use match_engine::{
    matches_are_posted, messages_keep_order, nothing_that_matches_is_left as engine_law,
    receives_keep_order,
};

/// The exchange after a legal history is that of its postings in the order of their calls. Each is what the program says of its request, with the
/// cells that the copy of its task had at the call, and each is of a request that was not posted before (MPI 4.0, 3.5).
pub fn posted_in_order()
    ensures { HistoriesPostInOrder }
{}

/// After a legal history no unmatched message matches an unmatched receive of its rank (MPI 4.0, 3.5, progress).
pub fn nothing_that_matches_is_left()
    ensures { NothingMatchesAtTheEnd }
{
    engine_law();
}

/// Each match of a legal history has a message that one call sent and a receive that one call posted at the rank to which it was sent, and the
/// receive accepts the message (MPI 4.0, 3.2.4).
pub fn each_match_is_posted()
    ensures { EachMatchIsPosted }
{
    matches_are_posted();
}

/// In a legal history messages don't overtake each other: one that the receive of a match accepts and whose call stands earlier than that of the
/// matched message stands in an earlier match (MPI 4.0, 3.5, order; between messages of different senders or tasks this project's).
pub fn messages_keep_their_order()
    ensures { HistoriesKeepMessages }
{
    matches_are_posted();
    messages_keep_order();
}

/// In a legal history receives don't overtake each other: one that accepts the message of a match and whose call stands earlier than that of the
/// matched receive stands in an earlier match (MPI 4.0, 3.5, order; between receives of different tasks this project's).
pub fn receives_keep_their_order()
    ensures { HistoriesKeepReceives }
{
    matches_are_posted();
    receives_keep_order();
}

/// A move of a task after a legal history adds one notice at most, and exactly the requests that were incomplete before it, are complete after it,
/// and before it were bound to a task or awaited by one in its operation (TAMPI, completion by polling). The program's waits name posted requests.
pub fn moves_notice_completions()
    ensures { MovesNoticeCompletions }
{}

/// After a run each notice that stands is of a complete request, and stands once (TAMPI, completion by polling).
pub fn notices_stand_once()
    ensures { NoticesStandOnce }
{}

/// A move of a task after a run turns the completion of a request that is expected into its notice: as often as before a task is still to be told of
/// it. Of a request that nobody expects, or that was complete, no notice comes or goes (TAMPI, completion by polling). The program's waits name posted
/// requests.
pub fn moves_tell_once()
    ensures { MovesTellOnce }
{}

/// Over a run a poll takes the notice of each request at most once. Each request that was opened is told exactly once: by one poll, or else its notice
/// stands once, or else it is incomplete (TAMPI, completion by polling). The program's waits name posted requests.
pub fn opened_are_told_once()
    ensures most { RequestsAreToldAtMostOnce }
    ensures opened { OpenedAreToldOnce }
{}

/// Of what a task is still to be told, it is so until a poll takes the notice, and no longer (TAMPI, completion by polling). The program's waits name
/// posted requests.
pub fn owed_until_told()
    ensures { OwedUntilTold }
{}

/// In a program that may be run each wait names only requests that its body posts before it (MPI 4.0, 3.7.3).
pub fn well_formed_waits_name_posted()
    ensures { WellFormedWaitsNamePosted }
{}

/// Where a task starts in a legal history, each task that precedes it has its return and then its release before it, and at that release every
/// request bound to it was complete (OmpSs-2, task dependences and taskwait; TAMPI, `TAMPI_Iwait`).
pub fn tasks_start_in_order()
    ensures { TasksStartInOrder }
{}
