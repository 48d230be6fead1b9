//! The lanes that the posting of each request uses.

ghost use Rattle.std.specs.Prelude.{◌≡◌, ◌<◌, ◌^◌, ◌++◌, length, sum_by, Some, IfOk, IsSome};
ghost use Rattle.match_lanes.specs.Selectors.{lane_in, doors_by};
ghost use Rattle.match_engine.specs.Routes.{known_at, way_by, way_to, way_in, way_at, ways_of, row_of, HasDoors, HasLane, IsDoors, IsLane};

use crate::slots::{Call, Slot, Slots};
use match_lanes::{Doors, Keys, Selector};
use rt_base::{Peer, ReqNo, TagSel};
use std::alloc::{AllocError, Global};
use std::marker::Model;

/// In which lanes a posting is sought, and hung where it waits.
#[derive(Clone, Copy, Debug)]
pub enum Way {
    /// The lanes of a message, at the rank to which it goes.
    Doors(Doors),
    /// The lane of a receive, at its rank.
    Lane(u32),
    /// None: the posting is to or from the null process (MPI 4.0, 3.11).
    Nowhere,
}

/// The way of each request of the program: all in one list, task by task, and where those of each task begin.
#[derive(Drop)]
pub struct Routes {
    firsts: Vec<u32>,
    ways: Vec<Way>,
}

impl Model for Routes {
    ghost use Rattle.std.specs.Prelude.{List};
    ghost use Rattle.match_engine.specs.declared.routes.Way as way;
    ghost use Rattle.match_engine.specs.Routes.{cut};

    ghost Value = { List (List way.Way) };

    ghost view = { λ r. cut r.ways.items r.firsts.items };
}

impl Routes {
    /// The ways of all requests, where these selectors are known at each rank and nothing is posted.
    /// In expected constant time for each request.
    pub fn build(alloc: Global, slots: &Slots, keys: &[Keys]) -> Result<Self, AllocError>
        requires { sum_by length slots.now < 2 ^ 32 }
        ensures { IfOk result (λ routes. routes ≡ ways_of keys.now slots.now) }
    {
        let rows = slots.rows();
        let mut firsts = Vec::with_capacity(alloc, rows.len())?;
        let mut ways = Vec::with_capacity(alloc, slots.open())?;
        for row in rows {
            firsts.push(ways.len() as u32)?;
            push_row(&mut ways, row, keys)?;
        }
        Ok(Routes { firsts, ways })
    }

    /// The way of a request of the program, in constant time.
    pub fn get(&self, req: ReqNo) -> Way
        requires { IsSome (way_at self.now req) }
        ensures { way_at self.now req ≡ Some result }
    {
        let first = self.firsts[req.task.0 as usize];
        self.ways[first as usize + req.nth as usize]
    }
}

impl Way {
    /// The lanes of a message.
    pub fn doors(self) -> Doors
        requires { IsDoors self }
        ensures { HasDoors self result }
    {
        match self {
            Way::Doors(doors) => doors,
            Way::Lane(_) => unreachable!(),
            Way::Nowhere => unreachable!(),
        }
    }

    /// The lane of a receive.
    pub fn lane(self) -> u32
        requires { IsLane self }
        ensures { HasLane self result }
    {
        match self {
            Way::Doors(_) => unreachable!(),
            Way::Lane(lane) => lane,
            Way::Nowhere => unreachable!(),
        }
    }
}

// Adds the ways of the requests of one task.
fn push_row(ways: &mut Vec<Way>, row: &[Slot], keys: &[Keys]) -> Result<(), AllocError>
    ensures { IfOk result (λ _. ways.new.items ≡ ways.old.items ++ row_of keys.now row.now) }
{
    for slot in row {
        ways.push(way_by(slot.call, keys))?;
    }
    Ok(())
}

// The way of a request of this call.
fn way_by(call: Call, keys: &[Keys]) -> Way
    ensures { result ≡ way_by keys.now call }
{
    if call.how.is_receive() {
        way_in(call, keys)
    } else {
        way_to(call, keys)
    }
}

// The way of a receive.
fn way_in(call: Call, keys: &[Keys]) -> Way
    ensures { result ≡ way_in keys.now call }
{
    match Selector::of(call.comm, call.peer, call.tag) {
        Some(selector) => Way::Lane(lane_at(keys, call.rank, selector)),
        None => Way::Nowhere,
    }
}

// The way of a send.
fn way_to(call: Call, keys: &[Keys]) -> Way
    ensures { result ≡ way_to keys.now call }
{
    match (call.peer, call.tag) {
        (Peer::Rank(to), TagSel::Tag(tag)) => Way::Doors(doors_at(keys, to, call, tag)),
        (Peer::Rank(_), TagSel::Any) => Way::Nowhere,
        (Peer::Any, _) => Way::Nowhere,
        (Peer::Null, _) => Way::Nowhere,
    }
}

// The lane of a selector at a rank.
fn lane_at(keys: &[Keys], rank: u16, selector: Selector) -> u32
    ensures { result ≡ lane_in (known_at keys.now rank) selector }
{
    match keys.get(rank as usize) {
        Some(keys) => keys.lane_of(selector),
        None => 0,
    }
}

// The lanes at a rank of a message that this call sends with this tag.
fn doors_at(keys: &[Keys], rank: u16, call: Call, tag: u16) -> Doors
    ensures { result ≡ doors_by (known_at keys.now rank) call.comm call.rank tag }
{
    match keys.get(rank as usize) {
        Some(keys) => keys.doors_of(call.comm, call.rank, tag),
        None => Doors {
            exact: 0,
            any_source: 0,
            any_tag: 0,
            anything: 0,
        },
    }
}
