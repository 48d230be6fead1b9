//! The data that every crate shares, the definitions that several crates cite, and the outside: sources, sinks and gates.
#![tactic(auto)]

mod adapters;
mod data;
mod kinds;
mod layout;
mod listed;
mod memory;
mod name;
mod outside;

pub use adapters::{StdinSource, StdoutSink};
pub use data::{
    Access, Accesses, Body, Cells, Entries, Entry, FaultKind, Handle, Handles, History, How,
    Kernel, Lens, LimitName, Mode, Names, Op, Peer, Phase, Phases, Program, ReqNo, Shows, Span,
    Starts, Status, Statuses, TagSel, TaskDef, TaskNo, Tasks,
};
pub use layout::starts_of;
pub use listed::Listed;
pub use memory::{FakeSink, FakeSource, MemSink, MemSource};
pub use name::Name;
pub use outside::{ByteSink, ByteSource, Gate, Got, OpenGate, Point, Put};

#[cfg(test)]
mod tests;
