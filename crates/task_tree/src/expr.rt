//! An expression as a tree.

use crate::operator::BinOp;
use rt_base::Name;
use std::marker::Model;
use std::mem;

/// What stands at the top of an expression.
#[cycle(expr)]
#[derive(Drop)]
pub enum Node {
    Number(i64),
    Var(Name),
    /// The number of the rank that runs the text.
    Rank,
    /// The number of ranks.
    Size,
    Neg(Box<Expr>),
    Two {
        op: BinOp,
        left: Box<Expr>,
        right: Box<Expr>,
    },
}

/// An expression. Contracts see its tree. A tree may be half a million levels deep, and is let go without recursion.
#[cycle(expr)]
pub struct Expr {
    pub(crate) node: Node,
}

impl Model for Expr {
    ghost use Rattle.task_tree.specs.Term.{Term};

    ghost Value = { Term };

    ghost use Rattle.task_tree.specs.Code.{term_code};

    ghost coded = { term_code };

    ghost use Rattle.task_tree.specs.Seen.{seen};

    ghost view = { λ e. seen e.node };

    ghost use Rattle.task_tree.specs.Weight.{weight};

    ghost size = { weight };
}

impl Drop for Expr {
    fn drop(mut self) {
        loop {
            let Expr { node } = self;
            match node {
                Node::Number(_) => return,
                Node::Var(_) => return,
                Node::Rank => return,
                Node::Size => return,
                Node::Neg(inner) => self = Box::into_inner(inner),
                Node::Two {
                    op,
                    mut left,
                    right,
                } => {
                    let node = mem::replace(&mut left.node, Node::Rank);
                    match node {
                        Node::Number(_) => self = Box::into_inner(right),
                        Node::Var(_) => self = Box::into_inner(right),
                        Node::Rank => self = Box::into_inner(right),
                        Node::Size => self = Box::into_inner(right),
                        Node::Neg(inner) => {
                            self = Expr {
                                node: Node::Two {
                                    op,
                                    left: inner,
                                    right,
                                },
                            }
                        }
                        Node::Two {
                            op: second,
                            left: first,
                            right: middle,
                        } => {
                            left.node = Node::Two {
                                op: second,
                                left: middle,
                                right,
                            };
                            self = Expr {
                                node: Node::Two {
                                    op,
                                    left: first,
                                    right: left,
                                },
                            }
                        }
                    }
                }
            }
        }
    }
}
