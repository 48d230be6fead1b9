//! Where the unrolling of a text stands.

ghost use Rattle.std.specs.Prelude.{◌≡◌, ◌≤◌, [], sum};
ghost use Rattle.rt_base.specs.declared.data.LimitName.TheVariants as limit;
ghost use Rattle.rt_base.specs.Layout.{starts_from};
ghost use Rattle.rt_base.specs.Limits.{most};
ghost use Rattle.task_unroll.specs.States.{nothing_counted, begun};
ghost use Rattle.task_unroll.specs.Ranks.{program_of};
ghost use Rattle.task_unroll.specs.Views.{counts_of};

use cell_spans::{Declared, OpenBody};
use rt_base::{Lens, Name, Names, Program, Shows, Starts, TaskDef, Tasks};
use std::alloc::Global;
use std::marker::Model;
use task_names::Scope;

/// The quantities that have a limit and are counted over all ranks.
#[derive(Clone, Copy, Debug)]
pub struct Counts {
    pub steps: u32,
    pub operations: u32,
    pub requests: u32,
    pub handles: u32,
    pub cells: u32,
    pub accesses: u32,
    pub access_cells: u32,
    pub message_cells: u32,
}

/// Where the unrolling of a text stands on one rank.
#[derive(Drop)]
pub struct State {
    pub(crate) counts: Counts,
    pub(crate) tasks: Vec<TaskDef>,
    pub(crate) rank: u16,
    pub(crate) size: u16,
    pub(crate) scope: Scope,
    pub(crate) arrays: Vec<Name>,
    pub(crate) lens: Vec<u32>,
    pub(crate) shows: Vec<u16>,
    pub(crate) comms: u16,
    pub(crate) epoch: u32,
    pub(crate) in_task: bool,
    pub(crate) accesses: Declared,
    pub(crate) body: OpenBody,
    pub(crate) lines: Vec<u32>,
}

impl Model for State {
    ghost use Rattle.task_unroll.specs.States.{State};

    ghost Value = { State };

    ghost use Rattle.task_unroll.specs.Views.{counts_of};

    ghost view = { λ s. record {
      counts = counts_of s.counts;
      tasks = s.tasks.items;
      rank = s.rank;
      size = s.size;
      names = s.scope.names;
      before = s.scope.before;
      arrays = s.arrays.items;
      lens = s.lens.items;
      shows = s.shows.items;
      comms = s.comms;
      epoch = s.epoch;
      in_task = s.in_task;
      accesses = s.accesses;
      body = s.body;
      lines = s.lines.items;
    } };

    // Each taskwait is a step, each request of the open task and each cell of the rank's arrays was counted, and the cells keep their limit.
    ghost use Rattle.std.specs.Prelude.{◌≤◌, sum};
    ghost use Rattle.rt_base.specs.Operations.{postings};

    ghost invariant = { λ s. (s.epoch ≤ s.counts.steps) × (postings s.body ≤ s.counts.requests) × (sum s.lens.items ≤ s.counts.cells)
        × (sum s.lens.items ≤ 16777216) };
}

impl Counts {
    // Nothing is counted yet.
    fn zero() -> Counts
        ensures { counts_of result ≡ nothing_counted }
    {
        Counts {
            steps: 0,
            operations: 0,
            requests: 0,
            handles: 0,
            cells: 0,
            accesses: 0,
            access_cells: 0,
            message_cells: 0,
        }
    }
}

impl State {
    // Before the first statement of a rank, with what the ranks before it left.
    fn begun(alloc: Global, counts: Counts, tasks: Vec<TaskDef>, rank: u16, size: u16) -> State
        ensures { result ≡ begun (counts_of counts) tasks.items rank size }
    {
        State {
            counts,
            tasks,
            rank,
            size,
            scope: Scope::empty(alloc),
            arrays: Vec::new(alloc),
            lens: Vec::new(alloc),
            shows: Vec::new(alloc),
            comms: 1,
            epoch: 0,
            in_task: false,
            accesses: Declared::empty(alloc),
            body: OpenBody::empty(alloc),
            lines: Vec::new(alloc),
        }
    }

    /// Before the first statement of rank 0, of so many ranks. Takes no memory.
    pub fn first(alloc: Global, size: u16) -> State
        ensures { result ≡ begun nothing_counted [] 0 size }
    {
        State::begun(alloc, Counts::zero(), Vec::new(alloc), 0, size)
    }

    /// Before the first statement of another rank: its tasks come behind those so far, and what was counted stays. Takes no memory.
    pub fn begin_rank(&mut self, alloc: Global, rank: u16)
        ensures { self.new ≡ begun self.old.counts self.old.tasks rank self.old.size }
    {
        self.rank = rank;
        self.scope = Scope::empty(alloc);
        self.arrays = Vec::new(alloc);
        self.lens = Vec::new(alloc);
        self.shows = Vec::new(alloc);
        self.comms = 1;
        self.epoch = 0;
        self.in_task = false;
        self.accesses = Declared::empty(alloc);
        self.body = OpenBody::empty(alloc);
        self.lines = Vec::new(alloc);
    }

    /// The rank that is unrolled, from 0.
    pub fn rank(&self) -> u16
        ensures { result ≡ self.now.rank }
    {
        self.rank
    }

    /// The number of ranks.
    pub fn size(&self) -> u16
        ensures { result ≡ self.now.size }
    {
        self.size
    }

    /// The lengths of the arrays of the rank, by number.
    pub fn lens(&self) -> &[u32]
        ensures items { result.now ≡ self.now.lens }
        ensures cells { sum result.now ≤ most limit.Cells }
    {
        self.lens.as_slice()
    }

    /// The tasks of all ranks so far, by number.
    pub fn tasks(&self) -> &[TaskDef]
        ensures { result.now ≡ self.now.tasks }
    {
        self.tasks.as_slice()
    }

    /// The program of an eager limit that the last rank leaves, with the lengths of the arrays of all ranks and the table of where they begin. Takes no memory.
    pub fn into_program(self, eager: u32, lens: Vec<u32>, starts: Starts) -> Program
        requires items { starts.items ≡ starts_from 0 lens.items }
        requires room { starts.room ≡ 0 }
        ensures { result ≡ program_of eager (record { lens = lens.items; last = self }) }
    {
        Program {
            ranks: self.size,
            eager,
            comms: self.comms,
            names: Names::from_vec(self.arrays),
            lens: Lens::from_vec(lens),
            starts,
            shows: Shows::from_vec(self.shows),
            tasks: Tasks::from_vec(self.tasks),
        }
    }
}
