//! The selectors that the receives of a rank have, and the lane of each.

ghost use Rattle.std.specs.Prelude.{◌≡◌, ◌≤◌, ◌<◌, ◌^◌, [], length, position, OnOk, OnErr, IfSome};
ghost use Rattle.match_lanes.specs.Selectors.{is_same, lane_in, doors_by, with_selector};

use crate::doors::Doors;
use crate::selector::Selector;
use indexmap::IndexSet;
use std::alloc::{AllocError, Global};
use std::marker::Model;

// The most selectors, so that each lane has a number of 32 bits.
const MOST: usize = 1_073_741_824;

/// The selectors that the receives of a rank have, in the order in which they became known. Each has a lane: its place.
#[derive(Drop)]
pub struct Keys {
    set: IndexSet<Selector>,
}

impl Model for Keys {
    ghost use Rattle.std.specs.Prelude.{List, ◌≤◌, ◌^◌, length};
    ghost use Rattle.match_lanes.specs.declared.selector.Selector.{Selector};

    ghost Value = { List Selector };

    ghost view = { λ k. k.set.keys };

    ghost invariant = { λ k. length k.set.keys ≤ 2 ^ 30 };
}

impl Keys {
    /// No selector is known. Takes no memory.
    pub fn empty(alloc: Global) -> Keys
        ensures { result ≡ [] }
    {
        Keys {
            set: IndexSet::new(alloc),
        }
    }

    /// Makes a selector known, in expected constant time. More than 2^30 of them count as want of memory.
    pub fn add(&mut self, selector: Selector) -> Result<(), AllocError>
        ensures ok { OnOk result (self.new ≡ with_selector self.old selector) }
        ensures err { OnErr result (self.new ≡ self.old) }
    {
        if self.set.len() >= MOST {
            return Err(AllocError);
        }
        self.set.insert(selector)?;
        Ok(())
    }

    /// How many selectors are known.
    pub fn count(&self) -> usize
        ensures count { result ≡ length self.now }
        ensures most { result ≤ 2 ^ 30 }
    {
        self.set.len()
    }

    /// The lane of a selector, or the lane behind all known ones, in expected constant time.
    pub fn lane_of(&self, selector: Selector) -> u32
        ensures { result ≡ lane_in self.now selector }
    {
        match place_of(&self.set, selector) {
            Some(lane) => lane as u32,
            None => self.set.len() as u32,
        }
    }

    /// The lanes of a message of this communicator, source and tag, in expected constant time.
    pub fn doors_of(&self, comm: u16, source: u16, tag: u16) -> Doors
        ensures { result ≡ doors_by self.now comm source tag }
    {
        Doors {
            exact: self.lane_of(Selector::exact(comm, source, tag)),
            any_source: self.lane_of(Selector::any_source(comm, tag)),
            any_tag: self.lane_of(Selector::any_tag(comm, source)),
            anything: self.lane_of(Selector::anything(comm)),
        }
    }
}

// The place of a selector, where it is known.
fn place_of(set: &IndexSet<Selector>, selector: Selector) -> Option<usize>
    ensures place { result ≡ position (is_same selector) set.now.keys }
    ensures within { IfSome result (λ place. place < length set.now.keys) }
{
    set.get_index_of(&selector)
}
