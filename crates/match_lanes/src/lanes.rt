//! Lanes over places: which place of a lane is the first that isn't gone.

ghost use Rattle.std.specs.Prelude.{◌≡◌, ℕ, ◌+◌, ◌≤◌, ◌<◌, ◌^◌, [], ◌∷◌, ◌++◌, length, position, slice_set, Some, None, IfOk, IfSome, IfNone, map, replicate};
ghost use Rattle.std.specs.Prelude.{vec_capacity};
ghost use Rattle.match_lanes.specs.Hung.{is_lane};
ghost use Rattle.match_lanes.specs.Links.{lane_of, shown, next_of, AreNexts, IsFrontOf, IsStop, IsKept, IsGone, led, front_with};

use std::alloc::{AllocError, Global};
use std::marker::Model;
use std::snapshot::Snapshot;

/// What hangs at one place: whether it is gone, and the next place of its lane, or its own where that is the last.
// The lane itself is read by contracts alone.
#[derive(Drop)]
pub(crate) struct Hook {
    next: u32,
    gone: bool,
    lane: Snapshot<u32>,
}

/// The ends of a lane in which something was hung: a place before which all of the lane is gone, and the last place.
#[derive(Clone, Copy, Debug)]
pub(crate) struct Ends {
    front: u32,
    last: u32,
}

/// Places in the order in which they were taken, each in one lane. Nothing is unlinked: what is gone is stepped over once.
#[derive(Drop)]
pub(crate) struct Lanes {
    hooks: Vec<Hook>,
    ends: Vec<Option<Ends>>,
    room: usize,
}

impl Model for Lanes {
    ghost use Rattle.std.specs.Prelude.{◌^◌, length, map, vec_capacity};
    ghost use Rattle.match_lanes.specs.Hung.{Hung, HasPlaces};

    ghost Value = { Hung };

    ghost use Rattle.match_lanes.specs.Links.{shown, AreHooked};

    ghost view = { λ l. record { lanes = map shown l.hooks.items; count = length l.ends.items; room = l.room } };

    ghost invariant = { λ l. AreHooked l.hooks.items l.ends.items × HasPlaces (length l.hooks.items) l.room (vec_capacity l.hooks) (2 ^ 32) };
}

impl Lanes {
    /// This many lanes, with memory for so many places. No place is taken.
    pub fn with_room(alloc: Global, count: usize, room: usize) -> Result<Self, AllocError>
        requires { room ≤ 2 ^ 32 }
        ensures lanes { IfOk result (λ lanes. lanes.lanes ≡ []) }
        ensures count { IfOk result (λ lanes. lanes.count ≡ count) }
        ensures room { IfOk result (λ lanes. lanes.room ≡ room) }
    {
        Ok(Lanes {
            hooks: Vec::with_capacity(alloc, room)?,
            ends: no_ends(alloc, count)?,
            room,
        })
    }

    /// Takes the next place, in this lane. In constant time.
    pub fn push(&mut self, lane: u32)
        requires lane { lane < self.old.count }
        requires room { 0 < self.old.room }
        ensures lanes { self.new.lanes ≡ self.old.lanes ++ Some lane ∷ [] }
        ensures count { self.new.count ≡ self.old.count }
        ensures room { self.new.room + 1 ≡ self.old.room }
    {
        let place = self.hooks.len() as u32;
        let front = lead(&mut self.hooks, self.ends[lane as usize], place);
        self.ends[lane as usize] = Some(Ends { front, last: place });
        hang(
            &mut self.hooks,
            Hook {
                next: place,
                gone: false,
                lane: Snapshot::of(&lane),
            },
        );
        self.room -= 1;
    }

    /// The first place of the lane that isn't gone. Steps over those that are gone, each once in all calls.
    pub fn first(&mut self, lane: u32) -> Option<u32>
        requires lane { lane < self.old.count }
        ensures unchanged { self.new ≡ self.old }
        ensures first { result ≡ position (is_lane lane) self.old.lanes }
    {
        match self.ends[lane as usize] {
            Some(ends) => {
                let front = front_of(&self.hooks, ends.front);
                self.ends[lane as usize] = Some(Ends {
                    front,
                    last: ends.last,
                });
                waiting_at(&self.hooks, front)
            }
            None => None,
        }
    }

    /// Where the next search of the lane begins. None where nothing was hung in it.
    #[cfg(test)]
    pub fn front(&self, lane: u32) -> Option<u32>
        requires { lane < self.now.count }
    {
        let ends = self.ends[lane as usize]?;
        Some(ends.front)
    }

    /// Notes that what hung at the place is gone. In constant time.
    pub fn unhook(&mut self, place: u32)
        requires { place < length self.old.lanes }
        ensures lanes { self.new.lanes ≡ slice_set self.old.lanes place None }
        ensures count { self.new.count ≡ self.old.count }
        ensures room { self.new.room ≡ self.old.room }
    {
        self.hooks[place as usize].gone = true;
    }
}

// The first place of a lane from this one on that isn't gone, and the last of the lane where all are.
fn front_of(hooks: &[Hook], front: u32) -> u32
    requires within { front < length hooks.now }
    requires linked { AreNexts hooks.now }
    ensures within { result < length hooks.now }
    ensures front { (lane : ℕ) → IsFrontOf hooks.now lane front → IsFrontOf hooks.now lane result }
    ensures stop { IsStop hooks.now result }
{
    let mut place = front;
    while hooks[place as usize].gone && hooks[place as usize].next != place {
        place = hooks[place as usize].next;
    }
    place
}

// The place, unless what hung there is gone.
fn waiting_at(hooks: &[Hook], place: u32) -> Option<u32>
    requires { place < length hooks.now }
    ensures waits { IfSome result (λ at. (at ≡ place) × IsKept hooks.now place) }
    ensures gone { IfNone result (IsGone hooks.now place) }
{
    if hooks[place as usize].gone {
        None
    } else {
        Some(place)
    }
}

// Leads the last place of a lane with these ends to a new place, and answers the lane's front.
fn lead(hooks: &mut Vec<Hook>, ends: Option<Ends>, place: u32) -> u32
    requires last { IfSome ends (λ ends. ends.last < length hooks.old.items) }
    ensures front { result ≡ front_with ends place }
    ensures nexts { map next_of hooks.new.items ≡ led (map next_of hooks.old.items) ends place }
    ensures was { map lane_of hooks.new.items ≡ map lane_of hooks.old.items }
    ensures is { map shown hooks.new.items ≡ map shown hooks.old.items }
    ensures places { vec_capacity hooks.new ≡ vec_capacity hooks.old }
{
    match ends {
        Some(ends) => {
            hooks[ends.last as usize].next = place;
            ends.front
        }
        None => place,
    }
}

// No place in any of so many lanes.
fn no_ends(alloc: Global, count: usize) -> Result<Vec<Option<Ends>>, AllocError>
    ensures { IfOk result (λ ends. ends.items ≡ replicate count None) }
{
    let mut ends = Vec::with_capacity(alloc, count)?;
    for _lane in 0..count {
        ends.push(None)?;
    }
    Ok(ends)
}

// Adds a hook where there is memory for it.
fn hang(hooks: &mut Vec<Hook>, hook: Hook)
    requires { length hooks.old.items < vec_capacity hooks.old }
    ensures items { hooks.new.items ≡ hooks.old.items ++ hook ∷ [] }
    ensures places { vec_capacity hooks.old ≤ vec_capacity hooks.new }
{
    match hooks.push(hook) {
        Ok(()) => {}
        Err(_) => unreachable!(),
    }
}
