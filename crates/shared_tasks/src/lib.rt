//! Tasks that are ready, started and paused, with the holders of their meetings; completions on their way; and the tickets of open requests.
#![tactic(auto)]

mod arrival;
mod fresh;
pub mod laws;
mod live;
mod meeting;
mod names;
mod notice;
mod parked;
mod pausing;
mod rest;
mod tickets;

pub use arrival::Arrival;
pub use fresh::Fresh;
pub use live::Live;
pub use meeting::{arrive, park, take_up};
pub use names::{Run, Site};
pub use notice::Notice;
pub use parked::Parked;
pub use pausing::{pause, resume};
pub use rest::Rest;
pub use tickets::{Tickets, request_count};
pub use turn_table::Door;

#[cfg(test)]
mod tests;
