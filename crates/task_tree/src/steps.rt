//! What one token does while an expression is read.

ghost use Rattle.std.specs.Prelude.{◌≡◌, [], ◌∷◌, Some, None, Ok, IfOk};
ghost use Rattle.task_tree.specs.declared.steps.Step.TheVariants as step;
ghost use Rattle.task_tree.specs.Reading.{Gives};
ghost use Rattle.task_tree.specs.Expressions.{reduce, going, begun, pushed, whole, closed, over, at_sign, followed, step_at, ended};
ghost use Rattle.task_tree.specs.Grammar.{operator};

use crate::expr::Expr;
use crate::frames::{Frame, Frames, deeper, taken};
use crate::key::Key;
use crate::operator::BinOp;
use crate::refusal::LineRefusal;
use crate::sign::Sign;
use crate::token::Token;
use rt_base::FaultKind;
use std::alloc::Global;

/// What a token does.
#[derive(Drop)]
pub enum Step {
    /// It belongs to the expression: the operand that it ends, where it ends one.
    GoOn(Option<(Expr, u32)>),
    /// It stands behind the expression: the whole expression.
    Over((Expr, u32)),
}

// The operand after each minus sign and each operator of this level or above took it, up to the innermost bracket.
#[tactic(auto, using(crate::proofs::Taking::no_more, crate::proofs::Taking::one_more))]
fn reduce(
    alloc: Global,
    level: u8,
    first: (Expr, u32),
    frames: &mut Frames,
) -> Result<(Expr, u32), LineRefusal>
    ensures { Gives (λ v. (v, frames.new)) result (Ok (reduce level first frames.old)) }
{
    let mut operand = first;
    while let Some(frame) = frames.pop_taker(level) {
        operand = taken(alloc, operand, frame)?;
    }
    Ok(operand)
}

// The operand that one token is.
fn operand(tree: Expr) -> Step
    ensures { result ≡ step.GoOn (Some (tree, 0)) }
{
    Step::GoOn(Some((tree, 0)))
}

// A frame opens, and an operand is due.
fn open(frames: &mut Frames, frame: Frame) -> Result<Step, LineRefusal>
    ensures { Gives (λ x. (x, frames.new)) result (going None (frame ∷ frames.old)) }
{
    frames.push(frame)?;
    Ok(Step::GoOn(None))
}

// Where an operand is due.
fn begin(alloc: Global, frames: &mut Frames, token: &Token) -> Result<Step, LineRefusal>
    ensures { Gives (λ x. (x, frames.new)) result (begun frames.old token.now) }
{
    match token {
        Token::Number(value) => Ok(operand(Expr::number(*value))),
        Token::Name(name) => Ok(operand(Expr::var(name.copy(alloc)?))),
        Token::Key(Key::Rank) => Ok(operand(Expr::rank())),
        Token::Key(Key::Size) => Ok(operand(Expr::size())),
        Token::Sign(Sign::Minus) => open(frames, Frame::Neg),
        Token::Sign(Sign::OpenRound) => open(frames, Frame::Open),
        _ => Err(LineRefusal::Fault(FaultKind::Shape)),
    }
}

// An operator stands behind an operand that has taken all that binds tighter.
fn push(op: BinOp, left: (Expr, u32), frames: &mut Frames) -> Result<Step, LineRefusal>
    ensures { Gives (λ x. (x, frames.new)) result (pushed op (left, frames.old)) }
{
    if frames.is_held(op.level()) {
        return Err(LineRefusal::Fault(FaultKind::Shape));
    }
    open(
        frames,
        Frame::Left {
            op,
            left: left.0,
            depth: left.1,
        },
    )
}

// A closing bracket behind an operand that has taken all in the bracket.
fn close(operand: (Expr, u32), frames: &mut Frames) -> Result<Step, LineRefusal>
    ensures { Gives (λ x. (x, frames.new)) result (closed (operand, frames.old)) }
{
    match frames.pop() {
        None => Ok(Step::Over(operand)),
        Some(Frame::Open) => Ok(Step::GoOn(Some((operand.0, deeper(operand.1))))),
        Some(_) => Err(LineRefusal::Fault(FaultKind::Shape)),
    }
}

// The whole expression, where no bracket is open.
fn whole(
    alloc: Global,
    operand: (Expr, u32),
    frames: &mut Frames,
) -> Result<(Expr, u32), LineRefusal>
    ensures value { Gives (λ v. v) result (whole (reduce 0 operand frames.old)) }
    ensures frames { IfOk result (λ _. frames.new ≡ []) }
{
    let value = reduce(alloc, 0, operand, frames)?;
    if frames.is_empty() {
        Ok(value)
    } else {
        Err(LineRefusal::Fault(FaultKind::Shape))
    }
}

// The operand is the last of the expression.
fn over(alloc: Global, operand: (Expr, u32), frames: &mut Frames) -> Result<Step, LineRefusal>
    ensures { Gives (λ x. (x, frames.new)) result (over operand frames.old) }
{
    Ok(Step::Over(whole(alloc, operand, frames)?))
}

// A sign behind an operand.
fn at_sign(
    alloc: Global,
    operand: (Expr, u32),
    frames: &mut Frames,
    sign: Sign,
) -> Result<Step, LineRefusal>
    ensures { Gives (λ x. (x, frames.new)) result (at_sign operand frames.old sign (operator sign)) }
{
    match (BinOp::of_sign(sign), sign) {
        (Some(op), _) => {
            let left = reduce(alloc, op.left_level(), operand, frames)?;
            push(op, left, frames)
        }
        (None, Sign::CloseRound) => {
            let value = reduce(alloc, 0, operand, frames)?;
            close(value, frames)
        }
        (None, _) => over(alloc, operand, frames),
    }
}

// A token behind an operand.
fn follow(
    alloc: Global,
    operand: (Expr, u32),
    frames: &mut Frames,
    token: &Token,
) -> Result<Step, LineRefusal>
    ensures { Gives (λ x. (x, frames.new)) result (followed operand frames.old token.now) }
{
    match token {
        Token::Sign(sign) => at_sign(alloc, operand, frames, *sign),
        _ => over(alloc, operand, frames),
    }
}

/// What a token does, given the operand where one was just read.
pub fn step_at(
    alloc: Global,
    operand: Option<(Expr, u32)>,
    frames: &mut Frames,
    token: &Token,
) -> Result<Step, LineRefusal>
    ensures { Gives (λ x. (x, frames.new)) result (step_at operand frames.old token.now) }
{
    match operand {
        None => begin(alloc, frames, token),
        Some(operand) => follow(alloc, operand, frames, token),
    }
}

/// The expression that the tokens end.
pub fn ended(
    alloc: Global,
    operand: Option<(Expr, u32)>,
    frames: &mut Frames,
) -> Result<(Expr, u32), LineRefusal>
    ensures { Gives (λ v. v) result (ended operand frames.old) }
{
    match operand {
        None => Err(LineRefusal::Fault(FaultKind::Shape)),
        Some(operand) => whole(alloc, operand, frames),
    }
}
