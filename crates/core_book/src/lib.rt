//! The book of a program: the history so far, the state of the machine after it, and the moves that go on from it.
#![tactic(auto)]

mod book;

pub use book::{Book, BookEnd};
