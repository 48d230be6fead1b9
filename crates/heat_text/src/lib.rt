//! The text of the blocked heat solver, made from its sizes.
#![tactic(auto)]

mod text;

pub use text::heat_text;

#[cfg(test)]
mod tests;
