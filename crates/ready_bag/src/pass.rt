//! What one worker knows of a bag over a queue.

ghost use Rattle.std.specs.Prelude.{◌≡◌, ◌-◌, ◌^◌, length, min};

use crate::account::Knows;
use crate::counts::Counts;
use crossbeam_queue::Pass;
use std::marker::Model;

/// What one worker has put into a bag and taken from it, and a count for each answer that its calls gave.
#[derive(Drop)]
pub struct QueuePass<T> {
    pub(crate) seat: Pass<T, Knows<T>>,
    pub(crate) counts: Counts,
}

impl<T> Model for QueuePass<T> {
    ghost use Rattle.std.specs.Prelude.{◌≡◌, []};
    ghost use Rattle.ready_bag.specs.Passes.{PassIs};
    ghost use Rattle.ready_bag.specs.Rule.{account_of, HasOneAccount, IsCounted};

    ghost Value = { PassIs T };

    ghost view = { λ p. record { table = p.seat.table_id; account = account_of p.seat.me.0.client; counts = p.counts } };

    ghost invariant = { λ p. (p.seat.me.1 ≡ []) × HasOneAccount p.seat.me.0.client × IsCounted p.counts (account_of p.seat.me.0.client) };
}

impl<T> QueuePass<T> {
    /// The counts of the answers to the calls with this pass.
    pub fn counts(&self) -> Counts
        ensures counts { result ≡ self.now.counts }
        ensures puts { result.puts ≡ min (length self.now.account.put) (2 ^ 64 - 1) }
        ensures takes { result.takes ≡ min (length self.now.account.took) (2 ^ 64 - 1) }
    {
        self.counts
    }
}
