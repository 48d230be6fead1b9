//! Who has seen what: one list of steps, which grows, and for each caller the front of it that was seen.
#![tactic(auto)]

#[cfg(test)]
mod desk;
mod laws;
mod note;
mod pass;
mod pen;
mod rule;
mod steps;
mod table;
#[cfg(test)]
mod tests;
mod view;

pub use laws::{each_caller_has_its_pass, fronts_are_of_one_list};
pub use note::Note;
pub use pass::Pass;
pub use pen::Pen;
pub use table::PassTable;
