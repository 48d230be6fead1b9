//! From the bytes of a text to its tree.

ghost use Rattle.std.specs.Prelude.{◌≡◌, ◌==◌, ◌∷◌, ◌+◌, ◌<◌, ◌≤◌, ◌^◌, ◌⊎◌, ℕ, List, [], length, not, IfErr, IfOk, MatchResult};
ghost use Rattle.std.specs.List.{prefix_len};
ghost use Rattle.rt_base.specs.declared.data.FaultKind.{FaultKind};
ghost use Rattle.task_tree.specs.Reading.{Gives};
ghost use Rattle.task_tree.specs.declared.tree.Stmt.{Stmt};
ghost use Rattle.task_parse.specs.declared.refusal.ParseRefusal.TheVariants as refusal;
ghost use Rattle.task_parse.specs.Trees.{lines_of, IsTree, IsFirstFault, IsReason};
ghost use Rattle.task_parse.specs.Verdicts.{said, what_of, with_line, numbered, verdict, GivesAt};

use crate::block::OpenBlocks;
use crate::bytes::{behind, front};
use crate::refusal::ParseRefusal;
use crate::statement::statement;
use crate::token::tokens_of;
use rt_base::FaultKind;
use std::alloc::Global;
use task_tree::{LineRefusal, Stmt, Token, Tree, What};

// What the tokens of a line say. A blank line says nothing.
fn said(alloc: Global, tokens: &[Token]) -> Result<Option<(What, u32)>, LineRefusal>
    ensures { Gives (λ x. x) result (said tokens.now) }
{
    match tokens {
        [] => Ok(None),
        [_, ..] => Ok(Some(statement(alloc, tokens)?)),
    }
}

// What a line says.
#[tactic(auto, unfolding(crate::specs::Verdicts::what_of))]
fn what_of(alloc: Global, line: &[u8]) -> Result<Option<(What, u32)>, LineRefusal>
    ensures { Gives (λ x. x) result (what_of line.now) }
{
    let tokens = tokens_of(alloc, line)?;
    said(alloc, tokens.as_slice())
}

// The length of the first line, without its LF.
fn line_len(text: &[u8]) -> usize
    ensures len { result ≡ prefix_len (λ b. not (b == 10)) text.now }
    ensures within { result ≤ length text.now }
{
    text.iter().take_while(|b| **b != b'\n').count()
}

// The first line without its LF, and what stands behind it.
#[tactic(auto, using(crate::proofs::LineLemmas::first_line_is))]
fn first_line(text: &[u8]) -> (&[u8], &[u8])
    requires { 0 < length text.now }
    ensures lines { lines_of text.now ≡ result.0.now ∷ lines_of result.1.now }
    ensures shorter { length result.1.now < length text.now }
{
    let len = line_len(text);
    if len < text.len() {
        (front(text, len), behind(text, len + 1))
    } else {
        (text, behind(text, text.len()))
    }
}

// Puts what one line says behind the statements so far, and goes on to the blocks that are open behind it.
fn read_line(
    alloc: Global,
    line: &[u8],
    number: u32,
    blocks: &mut OpenBlocks,
    stmts: &mut Vec<Stmt>,
) -> Result<(), LineRefusal>
    ensures { Gives (λ _. (stmts.new.items, blocks.new)) result (with_line stmts.old.items blocks.old number line.now) }
{
    if let Some((what, depth)) = what_of(alloc, line)? {
        blocks.step(&what, depth)?;
        stmts.push(Stmt { line: number, what })?;
    }
    Ok(())
}

// The refusal of the line of this number is one of the text.
fn numbered(number: u32, refusal: LineRefusal) -> ParseRefusal
    ensures { result ≡ numbered number refusal }
{
    match refusal {
        LineRefusal::Fault(kind) => ParseRefusal::Fault { line: number, kind },
        LineRefusal::Memory => ParseRefusal::Memory,
    }
}

// The statements of all lines, or the first fault.
fn read_lines(alloc: Global, text: &[u8]) -> Result<Vec<Stmt>, ParseRefusal>
    requires { length text.now + 1 < 2 ^ 32 }
    ensures { GivesAt (λ v. v.items) result (verdict 1 [] (lines_of text.now)) }
{
    let mut stmts = Vec::new(alloc);
    let mut blocks = OpenBlocks::none(alloc);
    let mut rest = text;
    let mut number: u32 = 1;
    while !rest.is_empty() {
        let (line, more) = first_line(rest);
        if let Err(refusal) = read_line(alloc, line, number, &mut blocks, &mut stmts) {
            return Err(numbered(number, refusal));
        }
        rest = more;
        number += 1;
    }
    if !blocks.is_empty() {
        return Err(ParseRefusal::Fault {
            line: number,
            kind: FaultKind::Open,
        });
    }
    Ok(stmts)
}

/// The tree of a text, or its first fault. Time grows with the number of bytes.
#[tactic(auto, using(crate::proofs::Outcomes::verdict_is, crate::proofs::Outcomes::outcome_is))]
pub fn parse(alloc: Global, text: &[u8]) -> Result<Tree, ParseRefusal>
    requires { length text.now + 1 < 2 ^ 32 }
    ensures tree { IfOk result (λ tree. IsTree text.now tree.items) }
    ensures fault { IfErr result (λ reason. IsReason text.now reason) }

    // The text's tree is the one that is found, and its first fault the one that is answered, unless memory runs out.
    ensures only_tree { (stmts : List Stmt) → IsTree text.now stmts → MatchResult result (λ tree. tree.items ≡ stmts) (λ reason. reason ≡ refusal.Memory) }
    ensures only_fault { (number : ℕ) (kind : FaultKind) → IsFirstFault text.now number kind
        → MatchResult result (λ _. ⊥) (λ reason. (reason ≡ refusal.Fault number kind) ⊎ (reason ≡ refusal.Memory)) }
{
    let stmts = read_lines(alloc, text)?;
    Ok(Tree::from_vec(stmts))
}
