//! From tokens to an expression.

ghost use Rattle.std.specs.Prelude.{◌≡◌};
ghost use Rattle.task_tree.specs.Reading.{Gives};
ghost use Rattle.task_tree.specs.Expressions.{expr_at};

use crate::expr::Expr;
use crate::frames::Frames;
use crate::refusal::LineRefusal;
use crate::steps::{Step, ended, step_at};
use crate::token::Token;
use std::alloc::Global;

/// The expression at the front of the tokens, up to the first that does not go on with it, with its depth, and the tokens behind it.
/// The depth is that of brackets and unary minus signs, and 65 stands for every depth above 64. The one fault is `Shape`.
#[tactic(auto, unfolding(crate::specs::Expressions::expr_at))]
pub fn expr_at(alloc: Global, tokens: &[Token]) -> Result<((Expr, u32), &[Token]), LineRefusal>
    ensures { Gives (λ x. (x.0, x.1.now)) result (expr_at tokens.now) }
{
    let mut frames = Frames::empty(alloc);
    let mut operand = None;
    let mut rest = tokens;
    while let [token, behind @ ..] = rest {
        match step_at(alloc, operand, &mut frames, token)? {
            Step::GoOn(next) => {
                operand = next;
                rest = behind;
            }
            Step::Over(whole) => return Ok((whole, rest)),
        }
    }
    let whole = ended(alloc, operand, &mut frames)?;
    Ok((whole, rest))
}
