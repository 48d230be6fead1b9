//! What tasks have bound, await and have opened after every run of the machine: each law is the contract of a function that does nothing.
#![tactic(auto)]

pub mod laws;
