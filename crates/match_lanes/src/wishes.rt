//! The receives of a rank that wait for a message.

ghost use Rattle.std.specs.Prelude.{◌≡◌, ℕ, ◌+◌, ◌≤◌, ◌<◌, ◌^◌, ◌||◌, List, [], ◌∷◌, ◌++◌, length, position, slice_get, slice_set, Some, None, IfOk};
ghost use Rattle.std.specs.Prelude.{vec_capacity};
ghost use Rattle.rt_base.specs.Matching.{is_match};
ghost use Rattle.match_lanes.specs.Hung.{is_lane};
ghost use Rattle.match_lanes.specs.Waiting.{passes, Waits, lower};
ghost use Rattle.match_lanes.specs.Hanging.{AreLanes, is_any_lane};
ghost use Rattle.match_lanes.specs.Selectors.{doors_of, IsItsLane};

use crate::doors::Doors;
use crate::keys::Keys;
use crate::lanes::Lanes;
use crate::mail::{Message, Receive};
use std::alloc::{AllocError, Global};
use std::marker::Model;
use std::snapshot::Snapshot;

/// The posted receive queue: each receive in the lane of its selector.
#[derive(Drop)]
pub(crate) struct Wishes {
    items: Vec<Option<Receive>>,
    lanes: Lanes,
    keys: Snapshot<Keys>,
    room: usize,
}

impl Model for Wishes {
    ghost use Rattle.std.specs.Prelude.{◌≡◌, ◌+◌, ◌≤◌, length, vec_capacity};
    ghost use Rattle.rt_base.specs.Matching as matching;
    ghost use Rattle.match_lanes.specs.Waiting.{Line};

    ghost Value = { Line matching.Receive };

    ghost use Rattle.match_lanes.specs.Hanging.{AreWishes};

    ghost view = { λ w. record { items = w.items.items; keys = w.keys.value; room = w.room } };

    ghost invariant = { λ w. AreWishes w.keys.value w.items.items w.lanes w.room × (length w.items.items + w.room ≤ vec_capacity w.items) };
}

impl Wishes {
    /// No receives, with memory for so many.
    pub fn with_room(alloc: Global, keys: &Keys, room: usize) -> Result<Self, AllocError>
        requires { room ≤ 2 ^ 30 }
        ensures items { IfOk result (λ wishes. wishes.items ≡ []) }
        ensures keys { IfOk result (λ wishes. wishes.keys ≡ keys.now) }
        ensures room { IfOk result (λ wishes. wishes.room ≡ room) }
    {
        Ok(Wishes {
            items: Vec::with_capacity(alloc, room)?,
            lanes: Lanes::with_room(alloc, keys.count() + 1, room)?,
            keys: Snapshot::of(keys),
            room,
        })
    }

    /// Adds a receive to its lane. In constant time.
    pub fn push(&mut self, wish: Receive, lane: u32)
        requires lane { IsItsLane self.old.keys wish lane }
        requires room { 0 < self.old.room }
        ensures items { self.new.items ≡ self.old.items ++ Some wish ∷ [] }
        ensures keys { self.new.keys ≡ self.old.keys }
        ensures room { self.new.room + 1 ≡ self.old.room }
    {
        self.room -= 1;
        self.lanes.push(lane);
        keep(&mut self.items, wish);
    }

    /// The place of the oldest receive that accepts the message. Looks at four lanes.
    pub fn first(&mut self, message: &Message, doors: Doors) -> Option<u32>
        requires doors { doors ≡ doors_of self.old.keys message.now }
        ensures unchanged { self.new ≡ self.old }
        ensures first { result ≡ position (passes (λ wish. is_match wish message.now)) self.old.items }
    {
        let _ = message;
        first_of(&mut self.lanes, doors)
    }

    /// Takes the receive that waits at the place. In constant time.
    pub fn take(&mut self, place: u32) -> Receive
        requires { Waits self.old.items place }
        ensures item { slice_get self.old.items place ≡ Some (Some result) }
        ensures items { self.new.items ≡ slice_set self.old.items place None }
        ensures keys { self.new.keys ≡ self.old.keys }
        ensures room { self.new.room ≡ self.old.room }
    {
        self.lanes.unhook(place);
        match self.items[place as usize].take() {
            Some(wish) => wish,
            None => unreachable!(),
        }
    }
}

// The first place of four lanes.
fn first_of(lanes: &mut Lanes, doors: Doors) -> Option<u32>
    requires { AreLanes lanes.old.count doors }
    ensures unchanged { lanes.new ≡ lanes.old }
    ensures first { result ≡ position (is_any_lane doors) lanes.old.lanes }
{
    let exact = lanes.first(doors.exact);
    let any_source = lanes.first(doors.any_source);
    let any_tag = lanes.first(doors.any_tag);
    let anything = lanes.first(doors.anything);
    lower(lower(exact, any_source), lower(any_tag, anything))
}

// The lower of two places, where there are two.
fn lower(one: Option<u32>, other: Option<u32>) -> Option<u32>
    ensures { result ≡ lower one other }
{
    match (one, other) {
        (Some(one), Some(other)) => Some(one.min(other)),
        (Some(one), None) => Some(one),
        (None, other) => other,
    }
}

// Adds a receive where there is memory for it.
fn keep(items: &mut Vec<Option<Receive>>, wish: Receive)
    requires { length items.old.items < vec_capacity items.old }
    ensures items { items.new.items ≡ items.old.items ++ Some wish ∷ [] }
    ensures places { vec_capacity items.old ≤ vec_capacity items.new }
{
    match items.push(Some(wish)) {
        Ok(()) => {}
        Err(_) => unreachable!(),
    }
}
