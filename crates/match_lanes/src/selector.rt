//! Which messages a receive accepts: what it is sought by.

ghost use Rattle.std.specs.Prelude.{◌≡◌};
ghost use Rattle.match_lanes.specs.Selectors.{wanted_source, wanted_tag, selector_by, exact, any_source, any_tag, anything};

use rt_base::{Peer, TagSel};

/// One value, or any.
#[derive(Clone, Copy, Debug, PartialEq, Eq, Hash)]
pub enum Wanted {
    Only(u16),
    Any,
}

/// The communicator, the source and the tag of the messages that a receive accepts (MPI 4.0, 3.2.4; communicators are in chapter 7).
#[derive(Clone, Copy, Debug, PartialEq, Eq, Hash)]
pub struct Selector {
    pub comm: u16,
    pub source: Wanted,
    pub tag: Wanted,
}

impl Selector {
    /// The selector of a receive with this communicator, source and tag. None of one from the null process, which accepts nothing (MPI 4.0, 3.11).
    pub fn of(comm: u16, source: Peer, tag: TagSel) -> Option<Selector>
        ensures { result ≡ selector_by comm source tag }
    {
        let source = wanted_source(source)?;
        Some(Selector {
            comm,
            source,
            tag: wanted_tag(tag),
        })
    }

    /// The selector of the receives that name this source and this tag.
    pub fn exact(comm: u16, source: u16, tag: u16) -> Selector
        ensures { result ≡ exact comm source tag }
    {
        Selector {
            comm,
            source: Wanted::Only(source),
            tag: Wanted::Only(tag),
        }
    }

    /// The selector of the receives from any source with this tag.
    pub fn any_source(comm: u16, tag: u16) -> Selector
        ensures { result ≡ any_source comm tag }
    {
        Selector {
            comm,
            source: Wanted::Any,
            tag: Wanted::Only(tag),
        }
    }

    /// The selector of the receives from this source with any tag.
    pub fn any_tag(comm: u16, source: u16) -> Selector
        ensures { result ≡ any_tag comm source }
    {
        Selector {
            comm,
            source: Wanted::Only(source),
            tag: Wanted::Any,
        }
    }

    /// The selector of the receives from any source with any tag.
    pub fn anything(comm: u16) -> Selector
        ensures { result ≡ anything comm }
    {
        Selector {
            comm,
            source: Wanted::Any,
            tag: Wanted::Any,
        }
    }
}

// The source that a receive names, or any. None for the null process.
fn wanted_source(source: Peer) -> Option<Wanted>
    ensures { result ≡ wanted_source source }
{
    match source {
        Peer::Rank(rank) => Some(Wanted::Only(rank)),
        Peer::Any => Some(Wanted::Any),
        Peer::Null => None,
    }
}

// The tag that a receive names, or any.
fn wanted_tag(tag: TagSel) -> Wanted
    ensures { result ≡ wanted_tag tag }
{
    match tag {
        TagSel::Tag(tag) => Wanted::Only(tag),
        TagSel::Any => Wanted::Any,
    }
}
