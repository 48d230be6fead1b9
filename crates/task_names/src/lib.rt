//! What names mean while a text is unrolled, and the values of its expressions.
#![tactic(auto)]

mod evaluation;
mod log;
mod meaning;
mod operators;
mod parts;
mod pile;
mod scope;
mod shallow;
mod todo;

pub use evaluation::value;
pub use meaning::Meaning;
pub use operators::{computed, negated};
pub use scope::Scope;

#[cfg(test)]
mod tests;
