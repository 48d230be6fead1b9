//! The tree of a text: tokens, expressions and statements, and the grammar of expressions.
#![tactic(auto)]

mod expr;
mod frames;
mod key;
mod laws;
mod levels;
mod making;
mod operator;
mod reading;
mod refusal;
mod sign;
mod steps;
mod token;
mod tree;

pub use expr::{Expr, Node};
pub use key::Key;
pub use laws::{one_expression, one_text_in_blocks, read_is_spelled, spelled_is_read};
pub use operator::BinOp;
pub use reading::expr_at;
pub use refusal::LineRefusal;
pub use sign::Sign;
pub use token::Token;
pub use tree::{Exprs, NameList, PeerText, SpanText, SpanTexts, Stmt, TagText, Tree, What};

#[cfg(test)]
mod tests;
