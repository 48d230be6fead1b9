//! From the tree of a text to its program.

ghost use Rattle.std.specs.Prelude.{◌≡◌, ◌-◌, ◌≤◌, IfOk};
ghost use Rattle.rt_base.specs.declared.data.Program.{Program};
ghost use Rattle.rt_base.specs.WellFormed.{WellFormed};
ghost use Rattle.task_tree.specs.Blocks.{Block, Top, written, Nested};
ghost use Rattle.task_unroll.specs.Unrolling.{Gives};
ghost use Rattle.task_unroll.specs.Ranks.{program};

use crate::ranks::Ranks;
use cell_spans::pieces_within;
use rt_base::{LimitName, Program};
use std::alloc::Global;
use task_tree::Tree;
use task_unroll::{ExpandRefusal, ends_of};

/// The program of a text, for so many ranks and this eager limit in cells: every rank runs the same text, rank after rank.
///
/// Errors: the first fault or limit that unrolling meets, or want of memory.
pub fn expand(alloc: Global, tree: &Tree, ranks: u16, eager: u32) -> Result<Program, ExpandRefusal>
    requires some_rank { 1 ≤ ranks }
    requires ranks { ranks ≤ 64 }
    requires eager { eager ≤ 16777216 }
    ensures program { (whole : Block) → written whole ≡ tree.now.items → Gives (λ p. p) result (program whole (ranks - 1) eager) }

    // A text whose statements stand where they may, as in each that was read.
    ensures well_formed { (whole : Block) → written whole ≡ tree.now.items → Nested 64 Top whole → IfOk result (λ program. WellFormed program) }
{
    let stmts = tree.as_slice();
    let ends = ends_of(alloc, stmts)?;
    let all = match Ranks::all(alloc, stmts, &ends, ranks) {
        Ok(all) => all,
        Err(refusal) => return Err(refusal),
    };
    if !pieces_within(alloc, all.tasks(), LimitName::Pieces.number() as u64)? {
        return Err(ExpandRefusal::Limit {
            which: LimitName::Pieces,
        });
    }
    Ok(all.into_program(alloc, eager)?)
}
