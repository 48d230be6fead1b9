//! What a worker holds: its hand, with the facts that it keeps, and the items of the ready queue.
#![tactic(auto)]

mod able;
mod hand;
mod held;
mod item;

pub use able::Able;
pub use hand::Hand;
pub use held::Held;
pub use item::Item;
pub use shared_tasks::{Fresh, Live, Notice, Parked, Run, Site, pause, resume};
pub use turn_table::{Act, Answer, Door, Look, Shape, plan, took};

#[cfg(test)]
mod tests;
