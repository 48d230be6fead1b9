//! What contracts say of puts and takes. No value of these types is made.

use std::collections::LinkedList;

/// An item that was put: its owner, and its number among the owner's puts, from 0.
pub struct Numbered<T> {
    pub owner: u16,
    pub number: u64,
    pub item: T,
}

/// What one of so many owners has put, in order, and what it took, in order.
pub struct Account<T> {
    pub owner: u16,
    pub owners: u16,
    pub put: LinkedList<T>,
    pub took: LinkedList<Numbered<T>>,
}

// What a pass knows: the accounts in its charge, once these were dealt out. No value of it is made.
pub struct Knows<T> {
    pub dealt: bool,
    pub accounts: LinkedList<Account<T>>,
}
