//! How the state after every run of the machine fits its program, and how long runs are: each law is the contract of a function that does nothing.
#![tactic(auto)]

pub mod laws;
