//! A bag over a bounded queue, first in first out.

ghost use Rattle.std.specs.Prelude.{◌≡◌, ◌+◌, ◌-◌, ◌<◌, ◌≤◌, [], IfOk, OnOk, OnErr, IfErr, IfSome, IfNone, All, length};
ghost use Rattle.crossbeam_queue.specs.Passes.{IsPassOf, view};
ghost use Rattle.ready_bag.specs.Counts.{PutsRose, FullsRose, TakesRose, EmptiesRose};
ghost use Rattle.ready_bag.specs.Passes.{BagIs, IsPassOfBag, HeldAll, HeldNone, new_pass, new_passes};
ghost use Rattle.ready_bag.specs.Past.{with_put, HasTaken};
ghost use Rattle.ready_bag.specs.Rule.{in_charge, new_accounts};

use crate::account::Knows;
use crate::bag::ReadyBag;
use crate::counts::Counts;
use crate::pass::QueuePass;
use crate::rule::{Adds, Counting, Deals, Fair, Opens, Removes};
use crossbeam_queue::protocol::Protocol;
use crossbeam_queue::{Pass, RuledArrayQueue};
use std::alloc::{AllocError, Global};
use std::marker::{Brand, Model};
use std::sync::Wait;

/// A bag of at most `capacity` items, which gives them first in first out. Contracts see which queue it is, its capacity,
/// and with how many passes it was made. `build` makes it under the rule `Fair`. Puts and takes are proved for every rule that they
/// keep, of which they know nothing else: so an answer that tells what lay in the queue comes from a step on it.
#[derive(Drop)]
pub struct QueueBag<T, P: Protocol<T, Knows<T>> = Fair> {
    pub(crate) queue: RuledArrayQueue<T, Knows<T>, P>,
    pub(crate) workers: u16,
}

impl<T, P: Protocol<T, Knows<T>>> Model for QueueBag<T, P> {
    ghost use Rattle.std.specs.Prelude.{◌<◌};
    ghost use Rattle.ready_bag.specs.Passes.{BagIs};
    ghost use Rattle.ready_bag.specs.Rule.{IsKept};

    ghost Value = { BagIs };

    ghost view = { λ b. record { table = b.queue.table.shared.table_id; capacity = b.queue.cap; workers = b.workers } };

    ghost invariant = { λ b. (0 < b.workers) × IsKept P.holds };
}

impl<T: Drop> QueueBag<T> {
    /// An empty bag of so many items, and a pass for each worker, in order.
    pub fn build(
        alloc: Global,
        capacity: usize,
        workers: u16,
    ) -> Result<(QueueBag<T>, Vec<QueuePass<T>>), AllocError>
        requires capacity { (0 < capacity) × (capacity ≤ 65536) }
        requires workers { 0 < workers }
        ensures bag { IfOk result (λ made. (made.0.capacity ≡ capacity) × (made.0.workers ≡ workers)) }
        ensures passes { IfOk result (λ made. made.1.items ≡ new_passes made.0 workers) }
        ensures home { IfOk result (λ made. All (λ pass. IsPassOfBag pass made.0) made.1.items) }
        ensures count { IfOk result (λ made. length made.1.items ≡ workers) }
    {
        QueueBag::named::<Brand>(alloc, capacity, workers)
    }

    // The number of workers has a name here, which the first step on the queue tells.
    fn named<W: Counting>(
        alloc: Global,
        capacity: usize,
        workers: u16,
    ) -> Result<(QueueBag<T>, Vec<QueuePass<T>>), AllocError>
        requires capacity { 0 < capacity }
        requires workers { 0 < workers }
        requires name { workers ≡ W.count }
        ensures bag { IfOk result (λ made. (made.0.capacity ≡ capacity) × (made.0.workers ≡ workers)) }
        ensures passes { IfOk result (λ made. made.1.items ≡ new_passes made.0 workers) }
        ensures home { IfOk result (λ made. All (λ pass. IsPassOfBag pass made.0) made.1.items) }
        ensures count { IfOk result (λ made. length made.1.items ≡ workers) }
    {
        let (queue, mut seat) = RuledArrayQueue::ruled(alloc, capacity)?;
        let _without_account = queue.another::<Opens<W>>(&mut seat);
        let bag = QueueBag { queue, workers };
        let passes = bag.deal(alloc, seat)?;
        Ok((bag, passes))
    }

    // A pass for each worker, in order.
    #[tactic(auto, using(crate::proofs::NewPasses::all_home, crate::proofs::NewPasses::as_many))]
    fn deal(
        &self,
        alloc: Global,
        mut seat: Pass<T, Knows<T>>,
    ) -> Result<Vec<QueuePass<T>>, AllocError>
        requires queue { (seat.table_id ≡ self.now.table) × (seat.me.1 ≡ []) }
        requires accounts { view seat ≡ in_charge (new_accounts self.now.workers 0 self.now.workers) }
        ensures passes { IfOk result (λ passes. passes.items ≡ new_passes self.now self.now.workers) }
        ensures home { IfOk result (λ passes. All (λ pass. IsPassOfBag pass self.now) passes.items) }
        ensures count { IfOk result (λ passes. length passes.items ≡ self.now.workers) }
    {
        let mut passes = Vec::with_capacity(alloc, usize::from(self.workers))?;
        for worker in 0..self.workers {
            passes.push(self.next_pass(&mut seat, worker))?;
        }
        Ok(passes)
    }

    // The pass of the next worker, whose account is the first that is not dealt out yet.
    fn next_pass(&self, seat: &mut Pass<T, Knows<T>>, worker: u16) -> QueuePass<T>
        requires queue { (seat.old.table_id ≡ self.now.table) × (seat.old.me.1 ≡ []) }
        requires worker { worker < self.now.workers }
        requires accounts { view seat.old ≡ in_charge (new_accounts self.now.workers worker (self.now.workers - worker)) }
        ensures pass { result ≡ new_pass self.now worker }
        ensures queue { (seat.new.table_id ≡ self.now.table) × (seat.new.me.1 ≡ []) }
        ensures accounts { view seat.new ≡ in_charge (new_accounts self.now.workers (worker + 1) (self.now.workers - (worker + 1))) }
    {
        let own = self.queue.another::<Deals>(seat);
        QueuePass {
            seat: own,
            counts: Counts {
                puts: 0,
                fulls: 0,
                takes: 0,
                empties: 0,
            },
        }
    }
}

impl<T, P: Protocol<T, Knows<T>>> ReadyBag<T> for QueueBag<T, P> {
    type Pass = QueuePass<T>;

    ghost IsOf = { IsPassOfBag };

    ghost counts = { λ pass. pass.counts };

    ghost WasFull = { HeldAll P.holds };

    ghost WasEmpty = { λ _ pass. HeldNone P.holds pass };

    fn put<R: Wait>(&self, rt: &R, pass: &mut QueuePass<T>, item: T) -> Result<(), T>
        requires { IsPassOfBag pass.old self.now }
        ensures home { IsPassOfBag pass.new self.now }
        ensures ok { OnOk result (PutsRose pass.old.counts pass.new.counts) }
        ensures err { OnErr result (FullsRose pass.old.counts pass.new.counts) }
        ensures full { OnErr result (HeldAll P.holds self.now pass.old) }
        ensures back { IfErr result (λ back. back ≡ item) }
        ensures put { OnOk result (pass.new.account ≡ with_put item pass.old.account) }
        ensures unchanged { OnErr result (pass.new.account ≡ pass.old.account) }
    {
        let answer = self.queue.push_as::<Adds<P>, R>(rt, &mut pass.seat, item);
        match &answer {
            Ok(()) => pass.counts.puts = pass.counts.puts.saturating_add(1),
            Err(_) => pass.counts.fulls = pass.counts.fulls.saturating_add(1),
        }
        answer
    }

    fn take<R: Wait>(&self, rt: &R, pass: &mut QueuePass<T>) -> Option<T>
        requires { IsPassOfBag pass.old self.now }
        ensures home { IsPassOfBag pass.new self.now }
        ensures some { IfSome result (λ _. TakesRose pass.old.counts pass.new.counts) }
        ensures none { IfNone result (EmptiesRose pass.old.counts pass.new.counts) }
        ensures empty { IfNone result (HeldNone P.holds pass.old) }
        ensures taken { IfSome result (HasTaken pass.old.account pass.new.account) }
        ensures unchanged { IfNone result (pass.new.account ≡ pass.old.account) }
    {
        let answer = self.queue.pop_as::<Removes<P>, R>(rt, &mut pass.seat);
        match &answer {
            Some(_) => pass.counts.takes = pass.counts.takes.saturating_add(1),
            None => pass.counts.empties = pass.counts.empties.saturating_add(1),
        }
        answer
    }
}
