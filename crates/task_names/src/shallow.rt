//! The values of the smallest expressions.

ghost use Rattle.std.specs.Prelude.{◌≡◌, true, IfSome, IsNone};
ghost use Rattle.task_names.specs.Values.{value};
ghost use Rattle.task_names.specs.Parts.{is_inner, under_minus, joined};

use crate::operators::{computed, negated};
use crate::scope::Scope;
use rt_base::FaultKind;
use task_tree::{BinOp, Expr, Node};

// The value of an expression that has no operator.
fn leaf(scope: &Scope, rank: u16, size: u16, e: &Expr) -> Option<Result<i64, FaultKind>>
    ensures some { IfSome result (λ x. x ≡ value (record { names = scope.now.names; rank = rank; size = size }) e.now) }
    ensures none { IsNone result → is_inner e.now ≡ true }
{
    match e.node() {
        Node::Number(number) => Some(Ok(*number)),
        Node::Var(name) => Some(scope.variable(name)),
        Node::Rank => Some(Ok(i64::from(rank))),
        Node::Size => Some(Ok(i64::from(size))),
        Node::Neg(_) => None,
        Node::Two {
            op: _,
            left: _,
            right: _,
        } => None,
    }
}

// A value under a minus sign.
fn under_minus(inner: Result<i64, FaultKind>) -> Result<i64, FaultKind>
    ensures { result ≡ under_minus inner }
{
    let x = inner?;
    negated(x)
}

// Two values with an operator between them. The left side's fault comes first.
fn joined(
    op: BinOp,
    left: Result<i64, FaultKind>,
    right: Result<i64, FaultKind>,
) -> Result<i64, FaultKind>
    ensures { result ≡ joined op left right }
{
    let x = left?;
    let y = right?;
    computed(op, x, y)
}

/// The value of an expression that has at most one operator.
pub(crate) fn shallow(
    scope: &Scope,
    rank: u16,
    size: u16,
    e: &Expr,
) -> Option<Result<i64, FaultKind>>
    ensures some { IfSome result (λ x. x ≡ value (record { names = scope.now.names; rank = rank; size = size }) e.now) }
    ensures none { IsNone result → is_inner e.now ≡ true }
{
    match e.node() {
        Node::Neg(inner) => {
            let x = leaf(scope, rank, size, inner)?;
            Some(under_minus(x))
        }
        Node::Two { op, left, right } => {
            let x = leaf(scope, rank, size, left)?;
            let y = leaf(scope, rank, size, right)?;
            Some(joined(*op, x, y))
        }
        _ => leaf(scope, rank, size, e),
    }
}
