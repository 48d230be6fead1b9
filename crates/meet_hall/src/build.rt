//! How a hall is built.

ghost use Rattle.std.specs.Prelude.{◌≡◌, ◌+◌, ◌^◌, ◌<◌, ◌≤◌, [], IfOk, OnOk, length, map, replicate, slice_index};
ghost use Rattle.meet_hall.specs.declared.slot.Slot.TheVariants.{Empty};
ghost use Rattle.meet_hall.specs.declared.view.View.TheVariants.{Builds};
ghost use Rattle.meet_hall.specs.Holders.{desk, first_desks};
ghost use Rattle.meet_hall.specs.Plan.{start_of, IsNarrow};
ghost use Rattle.meet_hall.specs.Views.{first_desk};

use crate::guest::Guest;
use crate::hall::Hall;
use crate::lists::Lists;
use crate::party::Holder;
use crate::plays::{MakesHolder, Opening};
use crate::rule::Rule;
use crate::slot::Slot;
use crate::view::View;
use atomic_table::{Seat, Shared, Table};
use std::alloc::{AllocError, Global};
use std::marker::Brand;

impl<R: Guest + Drop, N: Guest + Drop> Hall<R, N> {
    /// A hall with a meeting of so many places for each entry, in round 0, and the holders of the meetings in order.
    pub fn build(alloc: Global, places: &[u32]) -> Result<(Hall<R, N>, Vec<Holder>), AllocError>
        requires some { 0 < length places.now }
        requires few { length places.now < 2 ^ 31 }
        requires narrow { IsNarrow places.now }
        ensures { IfOk result (λ t. map desk t.1.items ≡ first_desks t.0 places.now (length places.now)) }
    {
        let words = Vec::from_elem(alloc, 1u64, places.len())?;
        let slots = empty_slots(alloc, slot_count(places))?;
        let plan = places.to_vec(alloc)?;
        let Ok((table, mut seat)) = Table::new(alloc, words.as_slice(), slots, &plan) else {
            return Err(AllocError);
        };
        let holders = first_holders(alloc, &table.shared, &mut seat, places)?;
        Ok((Hall { table }, holders))
    }
}

// How many slots the hall has.
fn slot_count(places: &[u32]) -> usize
    requires few { length places.now < 2 ^ 31 }
    requires narrow { IsNarrow places.now }
    ensures { result ≡ start_of places.now (length places.now) }
{
    let mut count = 0;
    for place_count in places {
        count += 1 + *place_count as usize;
    }
    count
}

fn empty_slots<R: Drop, N: Drop>(alloc: Global, count: usize) -> Result<Vec<Slot<R, N>>, AllocError>
    ensures { IfOk result (λ slots. slots.items ≡ replicate count Empty) }
{
    let mut slots = Vec::with_capacity(alloc, count)?;
    for _ in 0..count {
        slots.push_reserved(Slot::Empty);
    }
    Ok(slots)
}

// The holder of each meeting.
fn first_holders<R: Guest, N: Guest>(
    alloc: Global,
    shared: &Shared<Slot<R, N>, View, Vec<u32>, Rule>,
    seat: &mut Seat<Slot<R, N>, View>,
    places: &[u32],
) -> Result<Vec<Holder>, AllocError>
    requires seat { (seat.old.table_id ≡ shared.now.table_id) × (seat.old.me ≡ (Builds 0, [])) }
    requires plan { (shared.now.key.items ≡ places.now) × (shared.now.table_id.words ≡ length places.now) }
    requires few { length places.now < 2 ^ 31 }
    requires narrow { IsNarrow places.now }
    ensures { IfOk result (λ holders. map desk holders.items ≡ first_desks shared.now.table_id places.now (length places.now)) }
{
    let mut holders = Vec::with_capacity(alloc, places.len())?;
    let mut start = 0;
    for m in 0..places.len() {
        let holder = next_holder::<Brand, R, N>(alloc, shared, seat, m as u32, start, places[m])?;
        holders.push_reserved(holder);
        start += 1 + places[m] as usize;
    }
    Ok(holders)
}

// The holder of one meeting.
fn next_holder<J: Opening, R: Guest, N: Guest>(
    alloc: Global,
    shared: &Shared<Slot<R, N>, View, Vec<u32>, Rule>,
    seat: &mut Seat<Slot<R, N>, View>,
    meeting: u32,
    base: usize,
    places: u32,
) -> Result<Holder, AllocError>
    requires seat { (seat.old.table_id ≡ shared.now.table_id) × (seat.old.me ≡ (Builds meeting, [])) }
    requires plan { (meeting < length shared.now.key.items) × (shared.now.table_id.words ≡ length shared.now.key.items) × IsNarrow shared.now.key.items }
    requires lies { (base ≡ start_of shared.now.key.items meeting) × (places ≡ slice_index shared.now.key.items meeting) × (base + places < 2 ^ 63) }
    requires opening { (J.hall ≡ shared.now.table_id) × (J.start ≡ base) × (J.size ≡ places) }
    ensures holder { IfOk result (λ holder. desk holder ≡ first_desk shared.now.table_id meeting base places) }
    ensures seat { OnOk result ((seat.new.table_id ≡ shared.now.table_id) × (seat.new.me ≡ (Builds (meeting + 1), []))) }
{
    let lists = Lists::new(alloc, places)?;
    let badge = shared.split_seat::<MakesHolder<J>>(seat).into_badge();
    Ok(Holder {
        badge,
        meeting,
        round: 0,
        base,
        lists,
    })
}
