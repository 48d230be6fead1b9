//! What is left to do of an expression.

use task_tree::{BinOp, Expr};

/// A part of an expression that is left to do.
#[derive(Clone, Copy)]
pub(crate) enum Todo<'a> {
    /// The value of an expression.
    Value(&'a Expr),
    /// The newest value under a minus sign.
    Negate,
    /// The operator between the two newest values.
    Apply(BinOp),
}
