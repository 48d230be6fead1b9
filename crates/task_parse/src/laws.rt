//! What follows for statements and texts: each law is the contract of a function that does nothing.

ghost use Rattle.task_parse.specs.Laws.{StatementIsSpelled, OneStatement, ShapeIsTheFault, OneOutcome};

/// What is read has one of the forms of statement, with its depth, and what has one of the forms is read.
pub fn statement_is_spelled()
    ensures { StatementIsSpelled }
{}

/// A line says one thing at most.
pub fn one_statement_a_line()
    ensures { OneStatement }
{}

/// Tokens that are no statement have the fault `Shape`, and no others have a fault.
pub fn shape_is_the_fault()
    ensures { ShapeIsTheFault }
{}

/// A text has a tree or a first fault, one and no other.
pub fn one_outcome_a_text()
    ensures { OneOutcome }
{}
