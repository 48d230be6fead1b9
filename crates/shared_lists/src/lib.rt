//! Which lists of steps of the machine and its pollers are sound, and what follows for them: each law is the contract of a function that does nothing.
#![tactic(auto)]

pub mod laws;
