//! What follows for expressions: each law is the contract of a function that does nothing.

ghost use Rattle.task_tree.specs.Laws.{SpelledIsRead, ReadIsSpelled, OneExpression, OneTextInBlocks};

/// An expression as the grammar spells it is read, with its depth, up to the tokens that do not go on with it.
pub fn spelled_is_read()
    ensures { SpelledIsRead }
{}

/// What is read is spelled so, and what is left does not go on with it. Where nothing is read the fault is `Shape`.
pub fn read_is_spelled()
    ensures { ReadIsSpelled }
{}

/// Tokens are an expression in at most one way.
pub fn one_expression()
    ensures { OneExpression }
{}

/// Statements are written by one text in blocks at most.
pub fn one_text_in_blocks()
    ensures { OneTextInBlocks }
{}
