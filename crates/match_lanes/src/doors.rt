//! The lanes of a message.

/// The lanes of the four selectors that accept a message, each known or the lane behind the known ones.
#[derive(Clone, Copy, Debug, PartialEq, Eq)]
pub struct Doors {
    pub exact: u32,
    pub any_source: u32,
    pub any_tag: u32,
    pub anything: u32,
}
