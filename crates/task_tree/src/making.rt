//! Expressions are made and looked at.

ghost use Rattle.std.specs.Prelude.{◌≡◌, IfOk};
ghost use Rattle.task_tree.specs.Term.{Term as term};
ghost use Rattle.task_tree.specs.Seen.{seen};

use crate::expr::{Expr, Node};
use crate::operator::BinOp;
use rt_base::Name;
use std::alloc::{AllocFailed, Global};

impl Expr {
    // A number.
    pub(crate) fn number(value: i64) -> Self
        ensures { result ≡ term.Number value }
    {
        Expr {
            node: Node::Number(value),
        }
    }

    // A variable.
    pub(crate) fn var(name: Name) -> Self
        ensures { result ≡ term.Var name }
    {
        Expr {
            node: Node::Var(name),
        }
    }

    // The number of the rank that runs the text.
    pub(crate) fn rank() -> Self
        ensures { result ≡ term.Rank }
    {
        Expr { node: Node::Rank }
    }

    // The number of ranks.
    pub(crate) fn size() -> Self
        ensures { result ≡ term.Size }
    {
        Expr { node: Node::Size }
    }

    // The expression under a minus sign. An error is want of memory.
    pub(crate) fn neg(alloc: Global, inner: Expr) -> Result<Self, AllocFailed<Expr>>
        ensures { IfOk result (λ e. e ≡ term.Neg inner) }
    {
        Ok(Expr {
            node: Node::Neg(Box::new(alloc, inner)?),
        })
    }

    // Two expressions with an operator between them. An error is want of memory.
    pub(crate) fn two(
        alloc: Global,
        op: BinOp,
        left: Expr,
        right: Expr,
    ) -> Result<Self, AllocFailed<Expr>>
        ensures { IfOk result (λ e. e ≡ term.Two op left right) }
    {
        Ok(Expr {
            node: Node::Two {
                op,
                left: Box::new(alloc, left)?,
                right: Box::new(alloc, right)?,
            },
        })
    }

    /// What stands at the top.
    pub fn node(&self) -> &Node
        ensures { seen result.now ≡ self.now }
    {
        &self.node
    }
}
