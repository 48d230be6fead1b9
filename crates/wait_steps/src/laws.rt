//! What follows from the definitions alone.

ghost use Rattle.wait_steps.specs.Laws.{BoundAreMarked, MarksStay, NothingIsMarked, RequestsHaveMarks};

/// After a binding exactly those requests are marked that were marked before or are bound.
pub fn bound_are_marked()
    ensures { BoundAreMarked }
{}

/// At first each request of the program has a mark, and none is set; what has a mark has one after any binding.
pub fn marks_stay()
    ensures first { NothingIsMarked }
    ensures all { RequestsHaveMarks }
    ensures stay { MarksStay }
{}
