//! From the bytes of a text to its program.
ghost use Rattle.std.specs.Prelude.{◌≡◌, ◌≤◌, length, IfOk};
ghost use Rattle.rt_base.specs.declared.data.Program.{Program};
ghost use Rattle.rt_base.specs.WellFormed.{WellFormed};
ghost use Rattle.task_tree.specs.Blocks.{Block, Top, written, Nested};
ghost use Rattle.tampi_top.specs.Whys.{IsFoundOf, IsFound};
ghost use Rattle.call_words.specs.Words.{IsRunInRange};

use call_words::RunOptions;
use rt_base::{FaultKind, LimitName, Program};
use std::alloc::Global;
use task_expand::{ExpandRefusal, expand};
use task_parse::{ParseRefusal, parse};
use task_tree::Tree;

/// Why a text has no program that is run.
#[derive(Clone, Copy, Debug, PartialEq, Eq)]
pub enum Unaccepted {
    /// The text has this first fault, at this line, counted from 1.
    Fault { line: u32, kind: FaultKind },
    /// The text meets this limit first.
    Limit { which: LimitName },
    Memory,
}

// The program that the tree says.
fn unrolled(alloc: Global, tree: &Tree, asked: RunOptions) -> Result<Program, Unaccepted>
    requires range { IsRunInRange asked }
    ensures found { (whole : Block) → written whole ≡ tree.now.items → IsFoundOf whole asked result }
    ensures well_formed { (whole : Block) → written whole ≡ tree.now.items → Nested 64 Top whole → IfOk result (λ program. WellFormed program) }
{
    match expand(alloc, tree, asked.ranks, asked.eager) {
        Ok(program) => Ok(program),
        Err(ExpandRefusal::Fault { line, kind }) => Err(Unaccepted::Fault { line, kind }),
        Err(ExpandRefusal::Limit { which }) => Err(Unaccepted::Limit { which }),
        Err(ExpandRefusal::Memory) => Err(Unaccepted::Memory),
    }
}

/// The program that the text says, for the ranks and the eager limit of these options.
pub fn program_of(alloc: Global, text: &[u8], asked: RunOptions) -> Result<Program, Unaccepted>
    requires short { length text.now ≤ 1048576 }
    requires range { IsRunInRange asked }
    ensures found { IsFound asked text.now result }
    ensures well_formed { IfOk result (λ program. WellFormed program) }
{
    match parse(alloc, text) {
        Ok(tree) => unrolled(alloc, &tree, asked),
        Err(ParseRefusal::Fault { line, kind }) => Err(Unaccepted::Fault { line, kind }),
        Err(ParseRefusal::Memory) => Err(Unaccepted::Memory),
    }
}
