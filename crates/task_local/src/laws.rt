//! What follows from the definitions alone.

ghost use Rattle.task_local.specs.Laws.{LocalOperationsAreUnseen, FreshSpansAreOfMemory, SavedSpansAreOfCopy, OtherCellsStay};
ghost use Rattle.task_local.specs.Laws.{StatusesAreInARow, ReleasedStatusesAreInARow};

/// A record stands for its task after its local operations exactly where it does before them.
pub fn local_operations()
    ensures { LocalOperationsAreUnseen }
{}

/// A span of a fresh copy has the cells that it has in the memory, over however many regions it lies.
pub fn fresh_spans()
    ensures { FreshSpansAreOfMemory }
{}

/// A task's release puts back the cells of the spans that it may write, and changes no other cell.
pub fn saved_spans()
    ensures written { SavedSpansAreOfCopy }
    ensures others { OtherCellsStay }
{}

/// Statuses that are stored one behind another, in a span that the task may write, are all their cells stored at once.
pub fn statuses_in_a_row()
    ensures { StatusesAreInARow }
{}

/// Where handles store no cells, a release takes by them their statuses alone, in the order of the handles and one behind another.
pub fn released_statuses_in_a_row()
    ensures { ReleasedStatusesAreInARow }
{}
