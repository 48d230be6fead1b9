//! The messages of a rank that wait for a receive.

ghost use Rattle.std.specs.Prelude.{◌≡◌, ℕ, ◌+◌, ◌*◌, ◌/◌, ◌≤◌, ◌<◌, ◌^◌, List, [], ◌∷◌, ◌++◌, length, position, slice_get, slice_set, Some, None};
ghost use Rattle.std.specs.Prelude.{option_map, IfOk, vec_capacity};
ghost use Rattle.rt_base.specs.Matching.{is_match};
ghost use Rattle.match_lanes.specs.Waiting.{passes, Waits};
ghost use Rattle.match_lanes.specs.Selectors.{doors_of, IsItsLane};
ghost use Rattle.match_lanes.specs.Hanging.{AreLanes, four_doors, four_gone};

use crate::doors::Doors;
use crate::keys::Keys;
use crate::lanes::Lanes;
use crate::mail::{Message, Receive};
use std::alloc::{AllocError, Global};
use std::marker::Model;
use std::snapshot::Snapshot;

/// The unexpected message queue: each message in the lanes of the four selectors that accept it.
// The four hooks of the message at place p hang at places 4p to 4p + 3 of the lanes.
#[derive(Drop)]
pub(crate) struct Mails {
    items: Vec<Option<Message>>,
    lanes: Lanes,
    keys: Snapshot<Keys>,
    room: usize,
}

impl Model for Mails {
    ghost use Rattle.std.specs.Prelude.{◌^◌, length, vec_capacity};
    ghost use Rattle.rt_base.specs.Matching as matching;
    ghost use Rattle.match_lanes.specs.Waiting.{Line};

    ghost Value = { Line matching.Message };

    ghost use Rattle.match_lanes.specs.Hung.{HasPlaces};
    ghost use Rattle.match_lanes.specs.Hanging.{AreMails};

    ghost view = { λ m. record { items = m.items.items; keys = m.keys.value; room = m.room } };

    ghost invariant = { λ m. AreMails m.keys.value m.items.items m.lanes m.room × HasPlaces (length m.items.items) m.room (vec_capacity m.items) (2 ^ 30) };
}

impl Mails {
    /// No messages, with memory for so many.
    pub fn with_room(alloc: Global, keys: &Keys, room: usize) -> Result<Self, AllocError>
        requires { room ≤ 2 ^ 30 }
        ensures items { IfOk result (λ mails. mails.items ≡ []) }
        ensures keys { IfOk result (λ mails. mails.keys ≡ keys.now) }
        ensures room { IfOk result (λ mails. mails.room ≡ room) }
    {
        Ok(Mails {
            items: Vec::with_capacity(alloc, room)?,
            lanes: Lanes::with_room(alloc, keys.count() + 1, 4 * room)?,
            keys: Snapshot::of(keys),
            room,
        })
    }

    /// Adds a message to its four lanes. In constant time.
    pub fn push(&mut self, message: Message, doors: Doors)
        requires doors { doors ≡ doors_of self.old.keys message }
        requires room { 0 < self.old.room }
        ensures items { self.new.items ≡ self.old.items ++ Some message ∷ [] }
        ensures keys { self.new.keys ≡ self.old.keys }
        ensures room { self.new.room + 1 ≡ self.old.room }
    {
        self.room -= 1;
        hang_four(&mut self.lanes, doors);
        keep(&mut self.items, message);
    }

    /// The place of the oldest message that the receive accepts. Looks at one lane.
    pub fn first(&mut self, wish: &Receive, lane: u32) -> Option<u32>
        requires lane { IsItsLane self.old.keys wish.now lane }
        ensures unchanged { self.new ≡ self.old }
        ensures first { result ≡ position (passes (λ message. is_match wish.now message)) self.old.items }
    {
        let _ = wish;
        message_of(self.lanes.first(lane))
    }

    /// Takes the message that waits at the place. In constant time.
    pub fn take(&mut self, place: u32) -> Message
        requires { Waits self.old.items place }
        ensures item { slice_get self.old.items place ≡ Some (Some result) }
        ensures items { self.new.items ≡ slice_set self.old.items place None }
        ensures keys { self.new.keys ≡ self.old.keys }
        ensures room { self.new.room ≡ self.old.room }
    {
        unhook_four(&mut self.lanes, place);
        match self.items[place as usize].take() {
            Some(message) => message,
            None => unreachable!(),
        }
    }
}

// The place of the message that has this hook.
fn message_of(hook: Option<u32>) -> Option<u32>
    ensures { result ≡ option_map (λ hook. hook / 4) hook }
{
    let hook = hook?;
    Some(hook / 4)
}

// Takes the next four places, one in each lane of a message.
fn hang_four(lanes: &mut Lanes, doors: Doors)
    requires lanes { AreLanes lanes.old.count doors }
    requires room { 4 ≤ lanes.old.room }
    ensures lanes { lanes.new.lanes ≡ lanes.old.lanes ++ four_doors doors }
    ensures count { lanes.new.count ≡ lanes.old.count }
    ensures room { lanes.new.room + 4 ≡ lanes.old.room }
{
    lanes.push(doors.exact);
    lanes.push(doors.any_source);
    lanes.push(doors.any_tag);
    lanes.push(doors.anything);
}

// Notes that the four hooks of the message at this place are gone.
fn unhook_four(lanes: &mut Lanes, place: u32)
    requires within { 4 * place + 4 ≤ length lanes.old.lanes }
    requires fits { place < 2 ^ 30 }
    ensures lanes { lanes.new.lanes ≡ four_gone lanes.old.lanes (4 * place) }
    ensures count { lanes.new.count ≡ lanes.old.count }
    ensures room { lanes.new.room ≡ lanes.old.room }
{
    let hook = 4 * place;
    lanes.unhook(hook);
    lanes.unhook(hook + 1);
    lanes.unhook(hook + 2);
    lanes.unhook(hook + 3);
}

// Adds a message where there is memory for it.
fn keep(items: &mut Vec<Option<Message>>, message: Message)
    requires { length items.old.items < vec_capacity items.old }
    ensures items { items.new.items ≡ items.old.items ++ Some message ∷ [] }
    ensures places { vec_capacity items.old ≤ vec_capacity items.new }
{
    match items.push(Some(message)) {
        Ok(()) => {}
        Err(_) => unreachable!(),
    }
}
