//! The value of an expression.

ghost use Rattle.task_tree.specs.Reading.{Gives};
ghost use Rattle.task_names.specs.Values.{value};

use crate::parts::value_of_parts;
use crate::scope::Scope;
use crate::shallow::shallow;
use std::alloc::Global;
use task_tree::{Expr, LineRefusal};

/// The value of an expression on this rank, of how many. The first fault that is met decides: left side, right side, then the operation.
pub fn value(
    alloc: Global,
    scope: &Scope,
    rank: u16,
    size: u16,
    e: &Expr,
) -> Result<i64, LineRefusal>
    ensures { Gives (λ x. x) result (value (record { names = scope.now.names; rank = rank; size = size }) e.now) }
{
    match shallow(scope, rank, size, e) {
        Some(Ok(x)) => Ok(x),
        Some(Err(kind)) => Err(LineRefusal::Fault(kind)),
        None => value_of_parts(alloc, scope, rank, size, e),
    }
}
