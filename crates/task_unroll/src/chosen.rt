//! Peers and tags with their values, which were not tested yet.

/// A peer with its value.
#[derive(Clone, Copy, Debug)]
pub enum PeerValue {
    Number(i64),
    /// Any source (MPI 4.0, 3.2.4).
    Any,
    /// The null process (MPI 4.0, 3.11).
    Null,
}

/// A tag with its value.
#[derive(Clone, Copy, Debug)]
pub enum TagValue {
    Number(i64),
    /// Any tag (MPI 4.0, 3.2.4).
    Any,
}
