//! What follows for every legal history: each law is the contract of a function that does nothing.

ghost use Rattle.task_machine.specs.Laws.{CallsAreLeftOnce, OthersAreNotLeft, CompleteCallsAreLeft, EntriesNameTheirCallers, RunsAreLegal, FrontsAreLegal};
ghost use Rattle.task_machine.specs.Laws.{StartsGrow, StepsLetGo};
ghost use Rattle.task_machine.specs.RunLaws.{StepsLeaveOthers, CompleteStays, EnabledStays, CallersWaitNoLonger, OnlyPollsFollow, ReleasesFindAllComplete};
ghost use Rattle.task_machine.specs.Laws.{LastMoveOpens, PollsOpenNothing, MovesOweWhatTheyOpened, PollsOweNothingNew, CallsTellWhatTheyOpened};

/// Each operation is left at most once.
pub fn calls_are_left_once()
    ensures { CallsAreLeftOnce }
{}

/// An operation that doesn't block is never left: an `iwait` or `iwaitall`, a posting that doesn't block (MPI 4.0, 3.7.2; TAMPI, `TAMPI_Iwait`).
pub fn others_are_not_left()
    ensures { OthersAreNotLeft }
{}

/// At a quiet end a blocking call was left exactly where all its requests are complete (MPI 4.0, 3.7.3).
pub fn complete_calls_are_left()
    ensures { CompleteCallsAreLeft }
{}

/// The callers of the entries of a run are those who made it: a history says who moved.
pub fn entries_name_their_callers()
    ensures { EntriesNameTheirCallers }
{}

/// The entries of a run, with the statuses that it told, are a legal history.
pub fn runs_are_legal()
    ensures { RunsAreLegal }
{}

/// Each front of a legal history is legal, with a front of its statuses.
pub fn fronts_are_legal()
    ensures { FrontsAreLegal }
{}

/// A task that may start still may where more is let go of (OmpSs-2, task dependences).
pub fn starts_grow()
    ensures { StartsGrow }
{}

/// A step takes nothing back that was let go of (OmpSs-2, task dependences).
pub fn steps_let_go()
    ensures { StepsLetGo }
{}

/// Nothing is owed after a move but what was owed before it or what the move opened (TAMPI, completion by polling).
pub fn moves_owe_what_they_opened()
    ensures { MovesOweWhatTheyOpened }
{}

/// What the last move of a history opened is what its last move opens, and no poll changes it.
pub fn last_move_opens()
    ensures moves { LastMoveOpens }
    ensures polls { PollsOpenNothing }
{}

/// Nothing is owed after a poll but what was owed before it (TAMPI, completion by polling).
pub fn polls_owe_nothing_new()
    ensures { PollsOweNothingNew }
{}

/// The entry of a posting that blocks, or of a wait, tells how many requests its call opened (MPI 4.0, 3.4 and 3.7.3; TAMPI, `TAMPI_Iwait`).
pub fn calls_tell_what_they_opened()
    ensures { CallsTellWhatTheyOpened }
{}

/// A step leaves every task that does not make it as it was: where it stands, its copy, and what is bound to it.
pub fn steps_leave_others()
    ensures { StepsLeaveOthers }
{}

/// A request that is complete stays complete over every step (MPI 4.0, 3.7.3).
pub fn complete_stays()
    ensures { CompleteStays }
{}

/// A task that may move still may after the step of another.
pub fn enabled_stays()
    ensures { EnabledStays }
{}

/// A task that moved in a run waits for no predecessor at its end.
pub fn callers_wait_no_longer()
    ensures { CallersWaitNoLonger }
{}

/// After a quiet state only polls follow; memory, tasks, exchange and statuses stay, and so does quiet.
pub fn only_polls_follow()
    ensures { OnlyPollsFollow }
{}

/// Where a task is released, it has returned and every request bound to it is complete (TAMPI, `TAMPI_Iwait`).
pub fn releases_find_all_complete()
    ensures { ReleasesFindAllComplete }
{}
