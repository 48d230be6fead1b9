//! What a seat of the table knows.

use std::collections::LinkedList;

// The data of a seat: whether it may append, the caller that it names with how many steps that one made, the next caller
// that no pass names, and the front of the list that it has seen, with two fronts of that. No value of it is made.
pub struct View {
    pub pen: bool,
    pub names: bool,
    pub caller: u32,
    pub steps: u64,
    pub made: u32,
    pub seen: LinkedList<(u32, u32)>,
    pub had: LinkedList<(u32, u32)>,
    pub told: LinkedList<(u32, u32)>,
}
