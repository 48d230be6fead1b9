//! What follows from the definitions of the kernels alone.

ghost use Rattle.block_kernels.specs.Laws.{KeepsLengths, HasOneLeast, HasOneGreatest};

/// What a kernel gives has as many cells as the destination that it asks for.
pub fn lengths()
    ensures { KeepsLengths }
{}

/// At most one number is the least of a list, and at most one the greatest.
pub fn extremes()
    ensures least { HasOneLeast }
    ensures greatest { HasOneGreatest }
{}
