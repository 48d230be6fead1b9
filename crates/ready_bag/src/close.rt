//! The end of a bag over a queue.

ghost use Rattle.std.specs.Prelude.{◌≡◌, ◌+◌, ◌-◌, ◌^◌, ◌<◌, ◌∷◌, ◌++◌, [], length, map, min, All};
ghost use Rattle.crossbeam_queue.specs.Passes.{view};
ghost use Rattle.ready_bag.specs.Closing.{Closes, count_put, count_taken};
ghost use Rattle.ready_bag.specs.Passes.{IsPassOfBag, account};
ghost use Rattle.ready_bag.specs.Rule.{in_charge};

use crate::account::Knows;
use crate::pass::QueuePass;
use crate::queue_bag::QueueBag;
use crate::rule::{Gathers, Totals};
use crossbeam_queue::Pass;
use std::collections::VecDeque;
use std::sync::Wait;

/// How many items were put, taken and left.
#[derive(Clone, Copy, Debug, PartialEq, Eq)]
pub struct Tally {
    pub put: u64,
    pub taken: u64,
    pub left: u64,
}

// What several passes have put and taken together.
#[derive(Drop)]
struct Gathered<T> {
    seat: Pass<T, Knows<T>>,
    put: u64,
    taken: u64,
}

impl<T: Drop> QueueBag<T> {
    /// Ends the bag with all its passes, in any order, and tells how many items were put, taken and left. What is left is
    /// dropped.
    pub fn close<R: Wait>(self, rt: &R, passes: Vec<QueuePass<T>>) -> Tally
        requires passes { All (λ pass. IsPassOfBag pass self) passes.items }
        requires all { length passes.items ≡ self.workers }
        requires few { count_put (map account passes.items) < 2 ^ 64 - 1 }
        ensures { Closes (map account passes.items) result }
    {
        let mut rest = VecDeque::from_vec(passes);
        let Some(first) = rest.pop_front() else {
            unreachable!();
        };
        let mut all = self.gather(first, rest);
        let left = self.queue.len_as::<Totals, R>(rt, &mut all.seat);
        Tally {
            put: all.put,
            taken: all.taken,
            left: left as u64,
        }
    }

    // The passes as one, which has all their accounts.
    fn gather(&self, first: QueuePass<T>, mut rest: VecDeque<QueuePass<T>>) -> Gathered<T>
        requires first { IsPassOfBag first self.now }
        requires rest { All (λ pass. IsPassOfBag pass self.now) rest.items }
        ensures queue { (result.seat.table_id ≡ self.now.table) × (result.seat.me.1 ≡ []) }
        ensures accounts { view result.seat ≡ in_charge (map account (first ∷ rest.items)) }
        ensures put { result.put ≡ min (count_put (map account (first ∷ rest.items))) (2 ^ 64 - 1) }
        ensures taken { result.taken ≡ min (count_taken (map account (first ∷ rest.items))) (2 ^ 64 - 1) }
    {
        let mut all = first.gathered();
        while let Some(pass) = rest.pop_front() {
            self.take_over(&mut all, pass);
        }
        all
    }

    // One pass more.
    fn take_over(&self, all: &mut Gathered<T>, pass: QueuePass<T>)
        requires queue { (all.old.seat.table_id ≡ self.now.table) × (all.old.seat.me.1 ≡ []) }
        requires pass { IsPassOfBag pass self.now }
        requires dealt { view all.old.seat ≡ in_charge (view all.old.seat).accounts }
        ensures queue { (all.new.seat.table_id ≡ self.now.table) × (all.new.seat.me.1 ≡ []) }
        ensures accounts { view all.new.seat ≡ in_charge ((view all.old.seat).accounts ++ pass.account ∷ []) }
        ensures put { all.new.put ≡ min (all.old.put + length pass.account.put) (2 ^ 64 - 1) }
        ensures taken { all.new.taken ≡ min (all.old.taken + length pass.account.took) (2 ^ 64 - 1) }
    {
        let QueuePass { seat, counts } = pass;
        self.queue.absorb::<Gathers>(&mut all.seat, seat);
        all.put = all.put.saturating_add(counts.puts);
        all.taken = all.taken.saturating_add(counts.takes);
    }
}

impl<T> QueuePass<T> {
    // The pass alone.
    fn gathered(self) -> Gathered<T>
        ensures queue { (result.seat.table_id ≡ self.table) × (result.seat.me.1 ≡ []) }
        ensures accounts { view result.seat ≡ in_charge (self.account ∷ []) }
        ensures put { result.put ≡ min (length self.account.put) (2 ^ 64 - 1) }
        ensures taken { result.taken ≡ min (length self.account.took) (2 ^ 64 - 1) }
    {
        let QueuePass { seat, counts } = self;
        Gathered {
            seat,
            put: counts.puts,
            taken: counts.takes,
        }
    }
}
