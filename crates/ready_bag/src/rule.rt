//! The rule of the queue, and what each step on it tells its pass.

ghost use Rattle.std.specs.Prelude.{◌≡◌, ℕ, [], ◌++◌, length, take, drop};
ghost use Rattle.ready_bag.specs.Rule.{undealt, in_charge, account_of, new_accounts, IsRuled, Puts, Takes, Lay};
ghost use Rattle.ready_bag.specs.Closing.{AreAll};

use crate::account::Knows;
use crossbeam_queue::protocol::{Join, Lesson, Outcome, Protocol, Split};
use std::marker::{Brand, PhantomData};

// Each worker's account is in the charge of one pass.
pub struct Fair;

impl<T> Protocol<T, Knows<T>> for Fair {
    ghost holds = { IsRuled };

    ghost first = { undealt };
}

// Names a number in a contract.
pub trait Counting {
    ghost count: { ℕ };
}

// The name that each call of `build` picks anew.
impl Counting for Brand {
    ghost count = { 0 };
}

// The first pass gets the accounts of as many owners as are named.
pub struct Opens<W: Counting> {
    of: PhantomData<W>,
}

impl<T, W: Counting> Split<Knows<T>> for Opens<W> {
    ghost left = { λ _. in_charge (new_accounts W.count 0 W.count) };

    ghost right = { λ _. in_charge [] };
}

// The first account goes to a pass of its own.
pub struct Deals;

impl<T> Split<Knows<T>> for Deals {
    ghost left = { λ v. in_charge (drop 1 v.accounts) };

    ghost right = { λ v. in_charge (take 1 v.accounts) };
}

// A pass takes over the accounts of another.
pub struct Gathers;

impl<T> Join<Knows<T>> for Gathers {
    ghost both = { λ v w. in_charge (v.accounts ++ w.accounts) };

    ghost spent = { in_charge [] };
}

// An item joins at the back; where there is no room, what lay there is told.
pub struct Adds<P> {
    rule: PhantomData<P>,
}

impl<T, P> Outcome<T, Knows<T>> for Adds<P> {
    ghost then = { Puts };
}

impl<T, P: Protocol<T, Knows<T>>> Lesson<T, Knows<T>> for Adds<P> {
    ghost fact = { λ v. Lay P.holds (account_of v) };
}

// An item leaves at the front; where there is none, that nothing lay there is told.
pub struct Removes<P> {
    rule: PhantomData<P>,
}

impl<T, P> Outcome<T, Knows<T>> for Removes<P> {
    ghost then = { Takes };
}

impl<T, P: Protocol<T, Knows<T>>> Lesson<T, Knows<T>> for Removes<P> {
    ghost fact = { λ v. Lay P.holds (account_of v) };
}

// A pass in charge of all accounts knows what is left.
pub struct Totals;

impl<T> Lesson<T, Knows<T>> for Totals {
    ghost fact = { λ v items. AreAll v.accounts (length items) };
}
