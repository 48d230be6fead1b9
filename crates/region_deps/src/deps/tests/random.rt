//! Random small programs, the same in each run.

ghost use Rattle.std.specs.Prelude.{◌<◌};

use crate::scan;
use rt_base::{Access, Accesses, Body, Mode, Span, TaskDef};
use std::alloc::{AllocError, Global};

/// A plain linear congruential generator.
#[derive(Drop)]
pub struct Random {
    state: u64,
}

impl Random {
    /// The generator that starts from this number.
    pub fn from_seed(seed: u64) -> Random {
        Random { state: seed }
    }

    /// A number below the bound.
    pub fn below(&mut self, bound: u32) -> u32
        requires { 0 < bound }
        ensures { result < bound }
    {
        self.state = self
            .state
            .wrapping_mul(6_364_136_223_846_793_005)
            .wrapping_add(1_442_695_040_888_963_407);
        ((self.state >> 33) % u64::from(bound)) as u32
    }

    // An access of one of two short arrays. Its region may be empty.
    fn access(&mut self) -> Access {
        let mode = match self.below(3) {
            0 => Mode::In,
            1 => Mode::Out,
            _ => Mode::Inout,
        };
        let array = if self.below(2) == 0 { 0 } else { 1 };
        let from = self.below(8);
        let to = from + self.below(5);
        let span = Span { array, from, to };
        Access { mode, span }
    }

    // A task with up to three accesses that share no cell.
    fn task(&mut self, alloc: Global, rank: u16, epoch: u32) -> Result<TaskDef, AllocError> {
        let mut accesses: Vec<Access> = Vec::new(alloc);
        for _ in 0..self.below(4) {
            let next = self.access();
            if !accesses
                .iter()
                .any(|access| scan::overlaps(&access.span, &next.span))
            {
                accesses.push(next)?;
            }
        }
        Ok(TaskDef {
            rank,
            line: 1,
            epoch,
            accesses: Accesses::from_vec(accesses),
            body: Body::empty(alloc),
        })
    }

    /// The tasks of three ranks, up to six of each. Epochs go up by two at times, so that some have no task.
    pub fn tasks(&mut self, alloc: Global) -> Result<Vec<TaskDef>, AllocError> {
        let mut tasks = Vec::new(alloc);
        for rank in 0..3u16 {
            let mut epoch: u32 = 0;
            for _ in 0..self.below(7) {
                if self.below(4) == 0 {
                    epoch = epoch.saturating_add(self.below(3));
                }
                tasks.push(self.task(alloc, rank, epoch)?)?;
            }
        }
        Ok(tasks)
    }
}
