//! The two lists of places that a holder has.

ghost use Rattle.std.specs.Prelude.{◌≡◌, ◌+◌, ◌<◌, ◌≤◌, [], ◌∷◌, ◌++◌, IfOk, length, slice_get, take, drop, vec_len};
ghost use Rattle.meetings.specs.Meetings.{times};
ghost use Rattle.meet_hall.specs.Places.{without};

use std::alloc::{AllocError, Global};
use std::marker::Model;
use std::mem;

/// The places that were issued in this round, and those of the round before whose notes are not taken. Both lists have room for every place.
#[derive(Drop)]
pub(crate) struct Lists {
    issued: Vec<u32>,
    last: Vec<u32>,
    // How many places at the front of `last` are taken.
    taken: usize,
    places: u32,
}

impl Model for Lists {
    ghost use Rattle.std.specs.Prelude.{◌≤◌, drop, vec_len, vec_capacity};
    ghost use Rattle.meet_hall.specs.Places.{ListsAre, AreSpread};

    ghost Value = { ListsAre };

    ghost view = { λ l. record { issued = l.issued.items; left = drop l.taken l.last.items; places = l.places } };

    ghost invariant = { λ l. (l.taken ≤ vec_len l.last) × (l.places ≤ vec_capacity l.issued)
        × (l.places ≤ vec_capacity l.last) × AreSpread l.places l.issued.items };
}

impl Lists {
    /// Two empty lists with room for so many places.
    pub(crate) fn new(alloc: Global, places: u32) -> Result<Lists, AllocError>
        ensures { IfOk result (λ l. l ≡ record { issued = []; left = []; places = places }) }
    {
        let room = places as usize;
        let issued = Vec::with_capacity(alloc, room)?;
        let last = Vec::with_capacity(alloc, room)?;
        Ok(Lists {
            issued,
            last,
            taken: 0,
            places,
        })
    }

    /// How many places the meeting has.
    pub(crate) fn places(&self) -> u32
        ensures { result ≡ self.now.places }
    {
        self.places
    }

    /// The ith place that is left.
    pub(crate) fn nth_left(&self, i: usize) -> Option<u32>
        ensures { result ≡ slice_get self.now.left i }
    {
        self.last[self.taken..].get(i).copied()
    }

    /// One more place is issued. Takes no memory.
    pub(crate) fn add(&mut self, place: u32)
        requires within { place < self.old.places }
        requires new { times place self.old.issued ≡ 0 }
        ensures { self.new ≡ record self.old { issued = self.old.issued ++ place ∷ [] } }
    {
        self.issued.push_reserved(place);
    }

    /// The place is not left any more. The first one takes constant time, another the length of the list.
    pub(crate) fn take(&mut self, place: u32)
        requires { 0 < times place self.old.left }
        ensures { self.new ≡ record self.old { left = without place self.old.left } }
    {
        let at = index_of(&self.last[self.taken..], place);
        if at == 0 {
            self.taken += 1;
        } else {
            self.last.remove(self.taken + at);
        }
    }

    /// The round ends: the places that were issued in it are left now, and none is issued.
    pub(crate) fn turn(&mut self)
        ensures { self.new ≡ record self.old { issued = []; left = self.old.issued } }
    {
        mem::swap(&mut self.issued, &mut self.last);
        self.issued.clear();
        self.taken = 0;
    }
}

// Where the place stands first.
#[tactic(auto, using(crate::proofs::PlaceLemmas::further_on, crate::proofs::PlaceLemmas::without_at))]
fn index_of(places: &[u32], place: u32) -> usize
    requires { 0 < times place places.now }
    ensures within { result < length places.now }
    ensures rest { take result places.now ++ drop (result + 1) places.now ≡ without place places.now }
{
    let mut i = 0;
    while places[i] != place {
        i += 1;
    }
    i
}
