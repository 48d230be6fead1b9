//! The selectors of the receives of each rank.

ghost use Rattle.std.specs.Prelude.{◌≡◌, ℕ, ◌<◌, length, map, vec_items, All, IfOk};
ghost use Rattle.match_engine.specs.Routes.{selector_at, known_at, IsHeard, AreHeard, Keeps};

use crate::slots::{Call, Slot, Slots};
use match_lanes::{Keys, Selector};
use std::alloc::{AllocError, Global};

/// The selectors of the receives that are posted at each rank. Looks at all requests once for each rank.
pub fn heard_by_rank(alloc: Global, slots: &Slots, ranks: u16) -> Result<Vec<Keys>, AllocError>
    ensures count { IfOk result (λ keys. length keys.items ≡ ranks) }
    ensures heard { IfOk result (λ keys. (rank : ℕ) → rank < ranks → AreHeard rank (known_at keys.items rank) slots.now) }
{
    let mut keys = Vec::with_capacity(alloc, ranks as usize)?;
    for rank in 0..ranks {
        keys.push(heard_at(alloc, slots.rows(), rank)?)?;
    }
    Ok(keys)
}

// The selectors of the receives that are posted at a rank.
fn heard_at(alloc: Global, rows: &[Vec<Slot>], rank: u16) -> Result<Keys, AllocError>
    ensures { IfOk result (λ keys. AreHeard rank keys (map vec_items rows.now)) }
{
    let mut keys = Keys::empty(alloc);
    for row in rows {
        hear_all(&mut keys, row, rank)?;
    }
    Ok(keys)
}

// Makes known the selectors of the receives of one task that are posted at the rank.
fn hear_all(keys: &mut Keys, row: &[Slot], rank: u16) -> Result<(), AllocError>
    ensures heard { IfOk result (λ _. All (λ slot. IsHeard rank keys.new slot.call) row.now) }
    ensures kept { IfOk result (λ _. Keeps keys.old keys.new) }
{
    for slot in row {
        hear(keys, slot.call, rank)?;
    }
    Ok(())
}

// Makes known the selector of a call, where it posts a receive at the rank.
fn hear(keys: &mut Keys, call: Call, rank: u16) -> Result<(), AllocError>
    ensures heard { IfOk result (λ _. IsHeard rank keys.new call) }
    ensures kept { IfOk result (λ _. Keeps keys.old keys.new) }
{
    match selector_at(call, rank) {
        Some(selector) => keys.add(selector),
        None => Ok(()),
    }
}

// The selector of a call that posts a receive at the rank.
fn selector_at(call: Call, rank: u16) -> Option<Selector>
    ensures { result ≡ selector_at rank call }
{
    if call.how.is_receive() && call.rank == rank {
        Selector::of(call.comm, call.peer, call.tag)
    } else {
        None
    }
}
