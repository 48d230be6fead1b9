//! The ranks of a text, unrolled one after the other.

ghost use Rattle.std.specs.Prelude.{◌≡◌, ◌+◌, ◌-◌, ◌*◌, ◌^◌, ◌<◌, ◌≤◌, sum, IfOk, OnOk};
ghost use Rattle.rt_base.specs.declared.data.Program.{Program};
ghost use Rattle.task_tree.specs.Blocks.{Block, written};
ghost use Rattle.task_unroll.specs.Unrolling.{Gives};
ghost use Rattle.task_unroll.specs.Ends.{AreEnds};
ghost use Rattle.task_unroll.specs.Ranks.{next_rank, first_rank, program_of};
ghost use Rattle.task_expand.specs.Ranks.{ranks_up_to};

use rt_base::{Program, TaskDef, starts_of};
use std::alloc::{AllocError, Global};
use std::marker::Model;
use task_tree::Stmt;
use task_unroll::{Ends, ExpandRefusal, State, unroll};

/// What the ranks so far leave: the lengths of their arrays, and what the last of them left.
#[derive(Drop)]
pub(crate) struct Ranks {
    lens: Vec<u32>,
    last: State,
}

impl Model for Ranks {
    ghost use Rattle.task_unroll.specs.Ranks.{Ranks};

    ghost Value = { Ranks };

    ghost view = { λ r. record { lens = r.lens.items; last = r.last } };
}

impl Ranks {
    // Rank 0 of so many.
    fn first(alloc: Global, stmts: &[Stmt], ends: &Ends, size: u16) -> Result<Ranks, ExpandRefusal>
        requires ends { AreEnds stmts.now ends.now }
        ensures first { (whole : Block) → written whole ≡ stmts.now → Gives (λ r. r) result (first_rank whole size) }
        ensures cells { IfOk result (λ r. sum r.lens ≤ 16777216) }
    {
        let mut last = State::first(alloc, size);
        match unroll(alloc, stmts, ends, &mut last) {
            Ok(()) => Ok(Ranks {
                lens: last.lens().to_vec(alloc)?,
                last,
            }),
            Err(refusal) => Err(refusal),
        }
    }

    // One rank more, which has this number.
    #[tactic(auto, using(crate::proofs::RankChain::sum_more))]
    fn add(
        &mut self,
        alloc: Global,
        stmts: &[Stmt],
        ends: &Ends,
        rank: u16,
    ) -> Result<(), ExpandRefusal>
        requires ends { AreEnds stmts.now ends.now }
        ensures next { (whole : Block) → written whole ≡ stmts.now → self.old.last.rank + 1 ≡ rank → Gives (λ _. self.new) result (next_rank whole self.old) }
        ensures cells { OnOk result (sum self.new.lens ≤ sum self.old.lens + 16777216) }
    {
        self.last.begin_rank(alloc, rank);
        match unroll(alloc, stmts, ends, &mut self.last) {
            Ok(()) => {
                self.lens.extend_from_slice(self.last.lens())?;
                Ok(())
            }
            Err(refusal) => Err(refusal),
        }
    }

    /// All of so many ranks.
    pub(crate) fn all(
        alloc: Global,
        stmts: &[Stmt],
        ends: &Ends,
        size: u16,
    ) -> Result<Ranks, ExpandRefusal>
        requires ends { AreEnds stmts.now ends.now }
        requires some_rank { 1 ≤ size }
        ensures all { (whole : Block) → written whole ≡ stmts.now → Gives (λ r. r) result (ranks_up_to whole size (size - 1)) }
        ensures cells { IfOk result (λ r. sum r.lens ≤ size * 16777216) }
    {
        match Ranks::first(alloc, stmts, ends, size) {
            Ok(mut ranks) => {
                for rank in 1..size {
                    match ranks.add(alloc, stmts, ends, rank) {
                        Ok(()) => {}
                        Err(refusal) => return Err(refusal),
                    }
                }
                Ok(ranks)
            }
            Err(refusal) => Err(refusal),
        }
    }

    /// The tasks of all ranks.
    pub(crate) fn tasks(&self) -> &[TaskDef]
        ensures { result.now ≡ self.now.last.tasks }
    {
        self.last.tasks()
    }

    /// The program of all ranks, for an eager limit in cells, with the table of where their arrays begin.
    pub(crate) fn into_program(self, alloc: Global, eager: u32) -> Result<Program, AllocError>
        requires { sum self.lens < 2 ^ 32 }
        ensures { IfOk result (λ program. program ≡ program_of eager self) }
    {
        let Ranks { lens, last } = self;
        let starts = starts_of(alloc, &lens)?;
        Ok(last.into_program(eager, lens, starts))
    }
}
