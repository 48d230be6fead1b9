//! The text language: from the bytes of a text to the tree of its statements.
#![tactic(auto)]

mod block;
mod bytes;
mod laws;
mod line;
mod operand;
mod part;
mod refusal;
mod signs;
mod statement;
mod text;
mod token;
mod words;

pub use laws::{
    one_outcome_a_text, one_statement_a_line, shape_is_the_fault, statement_is_spelled,
};
pub use refusal::ParseRefusal;
pub use text::parse;

#[cfg(test)]
mod statement_tests;
#[cfg(test)]
mod tests;
