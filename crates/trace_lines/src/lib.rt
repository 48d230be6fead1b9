//! Reading the lines of a trace: what each line tells, exactly.
#![tactic(auto)]

mod entry;
mod header;
mod laws;
mod number;
mod statuses;
mod told;

pub use entry::ToldEntry;
pub use header::{Header, header_of};
pub use laws::{one_entry_a_line, one_header_a_line};
pub use told::{told_of, without_return};

#[cfg(test)]
mod tests;
