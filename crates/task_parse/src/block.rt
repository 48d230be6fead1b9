//! The blocks that are open between two lines.

ghost use Rattle.std.specs.Prelude.{◌≡◌, ◌↔◌, ◌∷◌, [], length, OnOk, IfErr, IfSome, IsNone, IsTrue};
ghost use Rattle.std.specs.List.{list_any};
ghost use Rattle.rt_base.specs.declared.data.FaultKind.TheVariants as fault;
ghost use Rattle.task_tree.specs.declared.refusal.LineRefusal.TheVariants as line_refusal;
ghost use Rattle.task_tree.specs.Blocks.{is_top, is_main, is_body, stands};
ghost use Rattle.task_tree.specs.Reading.{Gives};
ghost use Rattle.task_parse.specs.Trees.{opens};
ghost use Rattle.task_parse.specs.Openings.{spot, is_head, is_task, opened, with_task, parted, ended, accessed, begun, passed, placed, is_too_deep, next};

use rt_base::FaultKind;
use std::alloc::Global;
use std::marker::Model;
use task_tree::{LineRefusal, What};

/// How many brackets and unary minus signs may be open at one place of a line.
pub const MAX_DEPTH: u32 = 64;

/// How many blocks may be open within one another.
pub const MAX_BLOCKS: usize = 64;

/// A block that is open.
#[derive(Clone, Copy, Debug)]
pub enum OpenBlock {
    /// A `for`.
    Loop,
    /// An `if` before its `else`.
    When,
    /// An `if` behind its `else`.
    Otherwise,
    /// A task before its `do`.
    Head,
    /// A task behind its `do`.
    Body,
}

// A task, before or behind its `do`.
fn is_task(inner: OpenBlock) -> bool
    ensures { result ≡ is_task inner }
{
    match inner {
        OpenBlock::Head | OpenBlock::Body => true,
        OpenBlock::Loop | OpenBlock::When | OpenBlock::Otherwise => false,
    }
}

fn has_task(blocks: &[OpenBlock]) -> bool
    ensures { result ≡ list_any is_task blocks.now }
{
    blocks.iter().any(|b| is_task(*b))
}

// Whether the statement opens a block.
fn opens(what: &What) -> bool
    ensures { result ≡ opens what.now }
{
    match what {
        What::For { .. } | What::If { .. } | What::Task => true,
        _ => false,
    }
}

fn misplaced() -> LineRefusal
    ensures { result ≡ line_refusal.Fault fault.Place }
{
    LineRefusal::Fault(FaultKind::Place)
}

/// The blocks that are open between two lines. Contracts see their list, innermost first.
#[derive(Drop)]
pub struct OpenBlocks {
    // The innermost is the last.
    blocks: Vec<OpenBlock>,
}

impl Model for OpenBlocks {
    ghost use Rattle.std.specs.Prelude.{List, reverse};
    ghost use Rattle.task_parse.specs.declared.block.OpenBlock.{OpenBlock};

    ghost Value = { List OpenBlock };

    ghost view = { λ b. reverse b.blocks.items };
}

impl OpenBlocks {
    /// No block. Takes no memory.
    pub fn none(alloc: Global) -> Self
        ensures { result ≡ [] }
    {
        OpenBlocks {
            blocks: Vec::new(alloc),
        }
    }

    fn len(&self) -> usize
        ensures { result ≡ length self.now }
    {
        self.blocks.len()
    }

    // Whether an access line or `do` has to come next.
    fn is_head(&self) -> bool
        ensures { result ≡ is_head self.now }
    {
        match self.blocks.last() {
            Some(OpenBlock::Head) => true,
            _ => false,
        }
    }

    // Whether the next statement stands outside every block.
    #[tactic(auto, using(crate::proofs::Spots::top_is))]
    fn is_top(&self) -> bool
        ensures { result ≡ is_top (spot self.now) }
    {
        self.blocks.is_empty()
    }

    // Whether the next statement stands in a task.
    #[tactic(auto, using(crate::proofs::Spots::task_is))]
    fn is_body(&self) -> bool
        ensures { result ≡ is_body (spot self.now) }
    {
        has_task(self.blocks.as_slice())
    }

    // Whether the next statement stands in the main text.
    #[tactic(auto, using(crate::proofs::Spots::main_is))]
    fn is_main(&self) -> bool
        ensures { result ≡ is_main (spot self.now) }
    {
        !self.is_body()
    }

    fn push(&mut self, inner: OpenBlock) -> Result<(), LineRefusal>
        ensures ok { OnOk result (self.new ≡ inner ∷ self.old) }
        ensures err { IfErr result (λ e. e ≡ line_refusal.Memory) }
    {
        self.blocks.push(inner)?;
        Ok(())
    }

    fn pop(&mut self) -> Option<OpenBlock>
        ensures some { IfSome result (λ inner. self.old ≡ inner ∷ self.new) }
        ensures none { IsNone result → self.old ≡ [] }
    {
        self.blocks.pop()
    }

    // A block more. In the head of a task none may stand.
    fn begin(&mut self, inner: OpenBlock) -> Result<(), LineRefusal>
        ensures { Gives (λ _. self.new) result (opened inner self.old) }
    {
        if self.is_head() {
            return Err(misplaced());
        }
        self.push(inner)
    }

    // `task`
    fn begin_task(&mut self) -> Result<(), LineRefusal>
        ensures { Gives (λ _. self.new) result (with_task self.old) }
    {
        if !self.is_main() {
            return Err(misplaced());
        }
        self.push(OpenBlock::Head)
    }

    // `else`
    fn part(&mut self) -> Result<(), LineRefusal>
        ensures { Gives (λ _. self.new) result (parted self.old) }
    {
        match self.pop() {
            Some(OpenBlock::When) => self.push(OpenBlock::Otherwise),
            _ => Err(misplaced()),
        }
    }

    // `end`
    fn end(&mut self) -> Result<(), LineRefusal>
        ensures { Gives (λ _. self.new) result (ended self.old) }
    {
        match self.pop() {
            None | Some(OpenBlock::Head) => Err(misplaced()),
            Some(_) => Ok(()),
        }
    }

    // `do`
    fn begin_body(&mut self) -> Result<(), LineRefusal>
        ensures { Gives (λ _. self.new) result (begun self.old) }
    {
        match self.pop() {
            Some(OpenBlock::Head) => self.push(OpenBlock::Body),
            _ => Err(misplaced()),
        }
    }

    // An access line.
    fn access(&self) -> Result<(), LineRefusal>
        ensures { Gives (λ _. self.now) result (accessed self.now) }
    {
        if self.is_head() {
            Ok(())
        } else {
            Err(misplaced())
        }
    }

    // Whether a statement may stand here that is a line by itself.
    fn stands(&self, what: &What) -> bool
        ensures { result ≡ stands (spot self.now) what.now }
    {
        match what {
            What::Array { .. } | What::Show { .. } | What::Comm { .. } => self.is_top(),
            What::Let { .. } => true,
            What::Taskwait => self.is_main(),
            What::Kern { .. } | What::Posting { .. } | What::Waiting { .. } => self.is_body(),
            _ => false,
        }
    }

    // A statement that is a line by itself.
    fn pass(&self, what: &What) -> Result<(), LineRefusal>
        ensures { Gives (λ _. self.now) result (passed what.now self.now) }
    {
        if !self.is_head() && self.stands(what) {
            Ok(())
        } else {
            Err(misplaced())
        }
    }

    // The blocks behind a statement that may stand here.
    fn place(&mut self, what: &What) -> Result<(), LineRefusal>
        ensures { Gives (λ _. self.new) result (placed what.now self.old) }
    {
        match what {
            What::For { .. } => self.begin(OpenBlock::Loop),
            What::If { .. } => self.begin(OpenBlock::When),
            What::Else => self.part(),
            What::End => self.end(),
            What::Task => self.begin_task(),
            What::Touch { .. } => self.access(),
            What::Do => self.begin_body(),
            _ => self.pass(what),
        }
    }

    // Whether a line of this depth is too deep.
    fn is_too_deep(&self, what: &What, depth: u32) -> bool
        ensures { result ≡ is_too_deep depth what.now self.now }
    {
        depth > MAX_DEPTH || (opens(what) && self.len() >= MAX_BLOCKS)
    }

    /// Goes on behind a statement of this depth. `Depth` comes before `Place`.
    pub fn step(&mut self, what: &What, depth: u32) -> Result<(), LineRefusal>
        ensures { Gives (λ _. self.new) result (next depth what.now self.old) }
    {
        if self.is_too_deep(what, depth) {
            return Err(LineRefusal::Fault(FaultKind::Depth));
        }
        self.place(what)
    }

    /// Whether no block is open.
    pub fn is_empty(&self) -> bool
        ensures { IsTrue result ↔ (self.now ≡ []) }
    {
        self.blocks.is_empty()
    }
}
