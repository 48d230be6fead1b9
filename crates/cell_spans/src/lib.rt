//! What is known of the cells of the open task, and how finely the accesses of all tasks cut the arrays: tables that answer the definitions of `rt_base`
//! without a look at each cell or each pair of spans.
#![tactic(auto)]

mod body;
mod declared;
mod gathered;
mod in_use;
mod intervals;
mod line;
mod number_bag;
mod pieces;
mod sorted;
mod span_bag;

pub use body::OpenBody;
pub use declared::Declared;
pub use pieces::pieces_within;

#[cfg(test)]
mod tests;
