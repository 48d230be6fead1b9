//! What follows from the definitions alone.

ghost use Rattle.shared_lists.specs.Laws.{SoundListsGrow, FrontsAreSound, LongerIsSound, SoundListsRun, SoundListsHaveFew};
ghost use Rattle.shared_lists.specs.Laws.{OthersLeaveTasks, RecordsStandOn, CompleteSince, NewCallersWait, StartedWereOffered, QuietStays, MovesOpenLast};

/// A sound list stays sound with one pair more that may be done after it.
pub fn sound_lists_grow()
    ensures { SoundListsGrow }
{}

/// Each front of a sound list is sound, and each pair behind it may be done after those before it. Of two sound lists the longer is sound.
pub fn fronts_are_sound()
    ensures fronts { FrontsAreSound }
    ensures longer { LongerIsSound }
{}

/// The steps of a sound list are a run of the machine.
pub fn sound_lists_run()
    ensures { SoundListsRun }
{}

/// A sound list offers no task twice, has at most 2^63 looks and one stop, and so is not much longer than its steps.
pub fn sound_lists_have_few()
    ensures { SoundListsHaveFew }
{}

/// What others do takes nothing from a task that does nothing: it stands as it stood, may move if it might, and its record still stands for it.
pub fn others_leave_tasks()
    ensures tasks { OthersLeaveTasks }
    ensures records { RecordsStandOn }
{}

/// A complete request stays complete over a longer list (MPI 4.0, 3.7.3).
pub fn complete_since()
    ensures { CompleteSince }
{}

/// A task that stands nowhere in a sound list waits, and one that waits no longer was offered in it.
pub fn tasks_start_once_offered()
    ensures new { NewCallersWait }
    ensures offered { StartedWereOffered }
{}

/// What is quiet stays quiet.
pub fn quiet_stays()
    ensures { QuietStays }
{}

/// What the last move of a list opened is what the step of its last caller opens, where that is a task, and nothing else changes it.
pub fn moves_open_last()
    ensures { MovesOpenLast }
{}
