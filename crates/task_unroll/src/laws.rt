//! What follows from the definition of unrolling: the law is the contract of a function that does nothing.

ghost use Rattle.task_unroll.specs.Laws.{UnrolledIsWellFormed};

/// Every program that the definition of unrolling gives may be run.
pub fn what_is_unrolled_is_well_formed()
    ensures { UnrolledIsWellFormed }
{}
