//! A list with reserved room: one generic type, and a name for each use of it.

ghost use Rattle.std.specs.Prelude.{◌≡◌, ◌==◌, ℕ, ◌+◌, ◌≤◌, ◌↔◌, [], ◌∷◌, ◌++◌, length, slice_get, vec_len, vec_capacity, option_copied, IfOk, OnOk, IsErr, IfErr};

use std::alloc::{AllocError, Global};
use std::marker::Model;

/// An owned list. Contracts see its items, and the number of places that are reserved behind them.
#[derive(Debug, Drop)]
pub struct Listed<T> {
    items: Vec<T>,
    room: usize,
}

impl<T> Model for Listed<T> {
    ghost use Rattle.rt_base.specs.Listing.{Listing, listing_code};
    ghost use Rattle.std.specs.Prelude.{◌+◌, ◌≤◌, vec_len, vec_capacity};

    ghost Value = { Listing T };

    ghost coded = { listing_code T.code };

    ghost view = { λ l. record { items = l.items.items; room = l.room } };

    ghost invariant = { λ l. vec_len l.items + l.room ≤ vec_capacity l.items };
}

impl<T> Listed<T> {
    /// The empty list, with no place reserved. Takes no memory.
    pub fn empty(alloc: Global) -> Self
        ensures items { result.items ≡ [] }
        ensures room { result.room ≡ 0 }
    {
        Listed {
            items: Vec::new(alloc),
            room: 0,
        }
    }

    /// The empty list, with `n` places reserved.
    pub fn with_room(alloc: Global, n: usize) -> Result<Self, AllocError>
        ensures items { IfOk result (λ l. l.items ≡ []) }
        ensures room { IfOk result (λ l. l.room ≡ n) }
    {
        Ok(Listed {
            items: Vec::with_capacity(alloc, n)?,
            room: n,
        })
    }

    /// The list of a vector's items, with no place reserved. Takes no memory.
    pub fn from_vec(items: Vec<T>) -> Self
        ensures items { result.items ≡ items.items }
        ensures room { result.room ≡ 0 }
    {
        Listed { items, room: 0 }
    }

    /// The items as a vector. Takes no memory.
    pub fn into_vec(self) -> Vec<T>
        ensures { result.items ≡ self.items }
    {
        let Listed { items, room: _ } = self;
        items
    }

    /// The items.
    pub fn as_slice(&self) -> &[T]
        ensures { result.now ≡ self.now.items }
    {
        self.items.as_slice()
    }

    /// How many items the list has.
    pub fn len(&self) -> usize
        ensures { result ≡ length self.now.items }
    {
        self.items.len()
    }

    /// Whether the list has no item.
    pub fn is_empty(&self) -> bool
        ensures { result ≡ (length self.now.items == 0) }
    {
        self.items.is_empty()
    }

    /// The item at this place, counted from 0. None exactly past the end.
    pub fn get(&self, i: usize) -> Option<&T>
        ensures { option_copied result ≡ slice_get self.now.items i }
    {
        self.items.get(i)
    }

    /// Adds an item where a place is reserved, and else hands it back. Takes no memory.
    pub fn push(&mut self, item: T) -> Result<(), T>
        ensures ok { OnOk result ((self.new.items ≡ self.old.items ++ item ∷ []) × (self.new.room + 1 ≡ self.old.room)) }
        ensures full { IsErr result ↔ (self.old.room ≡ 0) }
        ensures err { IfErr result (λ back. (back ≡ item) × (self.new ≡ self.old)) }
    {
        if self.room == 0 {
            return Err(item);
        }
        match self.items.push(item) {
            Ok(()) => {
                self.room -= 1;
                Ok(())
            }
            Err(_) => unreachable!(),
        }
    }
}
