//! The limits, each met at the statement that would make its quantity greater than its number.

ghost use Rattle.std.specs.Prelude.{◌≡◌, ◌+◌, ◌<◌, ◌≤◌, ◌^◌, Ok, OnOk};
ghost use Rattle.rt_base.specs.Operations.{postings};
ghost use Rattle.task_unroll.specs.Unrolling.{Gives};
ghost use Rattle.task_unroll.specs.Counting.{kept, operated};

use crate::refusal::ExpandRefusal;
use crate::state::State;
use rt_base::LimitName;
use std::alloc::Global;

/// The count, where it keeps the limit.
#[tactic(auto, unfolding(crate::specs::Counting::kept))]
pub(crate) fn kept(which: LimitName, count: u64) -> Result<u32, ExpandRefusal>
    ensures { result ≡ kept which count }
{
    if count <= which.number() as u64 {
        Ok(count as u32)
    } else {
        Err(ExpandRefusal::Limit { which })
    }
}

impl State {
    /// One more operation, with so many requests and so many handles.
    #[tactic(auto, unfolding(crate::specs::Counting::operated, crate::specs::Counting::kept))]
    pub(crate) fn operated(
        &mut self,
        alloc: Global,
        requests: u32,
        handles: usize,
    ) -> Result<(), ExpandRefusal>
        requires { handles < 2 ^ 63 }
        ensures counted { Gives (λ _. self.new) result (operated requests handles self.old) }

        // So many more requests may be posted in the open task.
        ensures room { OnOk result (postings self.new.body + requests ≤ self.new.counts.requests) }
    {
        self.stepped(alloc)?;
        let counts = &mut self.counts;
        counts.operations = kept(LimitName::Operations, counts.operations as u64 + 1)?;
        counts.requests = kept(
            LimitName::Requests,
            counts.requests as u64 + requests as u64,
        )?;
        counts.handles = kept(LimitName::Names, counts.handles as u64 + handles as u64)?;
        Ok(())
    }
}
