//! The plain run of a program on one thread, over a book.
#![tactic(auto)]

mod run;

pub use run::run_plainly;
