//! What is open while an expression is read.

ghost use Rattle.std.specs.Prelude.{◌≡◌, ◌↔◌, [], ◌∷◌, true, false, Ok, IfSome, IsNone, IfNone};
ghost use Rattle.task_tree.specs.Expressions.{deeper, is_held};
ghost use Rattle.task_tree.specs.Frames.{takes, taken};
ghost use Rattle.task_tree.specs.Reading.{Gives};

use crate::expr::Expr;
use crate::operator::BinOp;
use crate::refusal::LineRefusal;
use std::alloc::Global;
use std::marker::Model;

/// An open bracket, a minus sign without its operand, or an operator without its right side.
#[derive(Drop)]
pub enum Frame {
    Open,
    Neg,
    Left { op: BinOp, left: Expr, depth: u32 },
}

/// The open frames. Contracts see them with the newest first.
#[derive(Drop)]
pub struct Frames {
    items: Vec<Frame>,
}

impl Model for Frames {
    ghost use Rattle.std.specs.Prelude.{List, reverse};
    ghost use Rattle.task_tree.specs.declared.frames.Frame.{Frame};

    ghost Value = { List Frame };

    ghost use Rattle.task_tree.specs.contracts.expr.Expr as e;
    ghost use Rattle.std.specs.Coded.{codes};

    ghost coded = { Prim.hlevel (codes, e.the_row.coded) };

    ghost view = { λ f. reverse f.items.items };
}

impl Frames {
    /// No frame. Takes no memory.
    pub fn empty(alloc: Global) -> Self
        ensures { result ≡ [] }
    {
        Frames {
            items: Vec::new(alloc),
        }
    }

    /// Opens a frame.
    pub fn push(&mut self, frame: Frame) -> Result<(), LineRefusal>
        ensures { Gives (λ _. self.new) result (Ok (frame ∷ self.old)) }
    {
        self.items.push(frame)?;
        Ok(())
    }

    /// Takes the newest frame.
    pub fn pop(&mut self) -> Option<Frame>
        ensures some { IfSome result (λ newest. self.old ≡ newest ∷ self.new) }
        ensures none { IsNone result ↔ (self.old ≡ []) }
        ensures unchanged { IfNone result (self.new ≡ self.old) }
    {
        self.items.pop()
    }

    /// Whether no frame is open.
    pub fn is_empty(&self) -> bool
        ensures { result ≡ true ↔ (self.now ≡ []) }
    {
        self.items.is_empty()
    }

    // Whether the newest frame takes an operand before an operator of this level.
    fn takes(&self, level: u8) -> bool
        ensures { result ≡ takes level self.now }
    {
        match self.items.last() {
            None => false,
            Some(Frame::Open) => false,
            Some(Frame::Neg) => true,
            Some(
                Frame::Left {
                    op,
                    left: _,
                    depth: _,
                },
            ) => level <= op.level(),
        }
    }

    /// Takes the newest frame if it takes an operand before an operator of this level.
    pub fn pop_taker(&mut self, level: u8) -> Option<Frame>
        ensures some { IfSome result (λ newest. (takes level self.old ≡ true) × (self.old ≡ newest ∷ self.new)) }
        ensures none { IsNone result ↔ (takes level self.old ≡ false) }
        ensures unchanged { IfNone result (self.new ≡ self.old) }
    {
        if self.takes(level) { self.pop() } else { None }
    }

    /// Whether the newest frame is an operator of this level or above.
    pub fn is_held(&self, level: u8) -> bool
        ensures { result ≡ is_held level self.now }
    {
        match self.items.last() {
            None => false,
            Some(Frame::Open) => false,
            Some(Frame::Neg) => false,
            Some(
                Frame::Left {
                    op,
                    left: _,
                    depth: _,
                },
            ) => level <= op.level(),
        }
    }
}

/// The depth with one bracket or minus sign more, where 65 stands for every depth above 64.
pub fn deeper(depth: u32) -> u32
    ensures { result ≡ deeper depth }
{
    depth.saturating_add(1).min(65)
}

/// The operand that a frame makes of this one.
pub fn taken(alloc: Global, operand: (Expr, u32), frame: Frame) -> Result<(Expr, u32), LineRefusal>
    ensures { Gives (λ v. v) result (Ok (taken operand frame)) }
{
    match frame {
        Frame::Open => Ok(operand),
        Frame::Neg => Ok((Expr::neg(alloc, operand.0)?, deeper(operand.1))),
        Frame::Left { op, left, depth } => {
            Ok((Expr::two(alloc, op, left, operand.0)?, depth.max(operand.1)))
        }
    }
}
