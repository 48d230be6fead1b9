//! The parts of a statement, each from the front of the tokens.

ghost use Rattle.std.specs.Prelude.{◌≡◌};
ghost use Rattle.task_tree.specs.Reading.{Gives};
ghost use Rattle.task_parse.specs.ReadingsOfParts.{left, name_at, comma_at, dots_at, set_at, open_at, close_at, value_at, span_at};

use rt_base::{FaultKind, Name};
use std::alloc::Global;
use task_tree::{Expr, LineRefusal, Sign, SpanText, Token, expr_at};

/// The tokens of a line that are left, and the depth of the expressions that were read (65 stands for every depth above 64).
#[derive(Clone, Copy)]
pub struct Rest<'a> {
    pub tokens: &'a [Token],
    pub depth: u32,
}

/// A name at the front.
#[tactic(auto, unfolding(crate::specs::ReadingsOfParts::name_at))]
pub fn name_at(alloc: Global, rest: Rest) -> Result<(Name, Rest), LineRefusal>
    ensures { Gives (λ x. (x.0, left x.1)) result (name_at (left rest.entry)) }
{
    match rest.tokens {
        [Token::Name(name), tokens @ ..] => Ok((name.copy(alloc)?, Rest { tokens, ..rest })),
        _ => Err(LineRefusal::Fault(FaultKind::Shape)),
    }
}

/// A comma at the front.
#[tactic(auto, unfolding(crate::specs::ReadingsOfParts::comma_at))]
pub fn comma_at(rest: Rest) -> Result<Rest, LineRefusal>
    ensures { Gives left result (comma_at (left rest.entry)) }
{
    match rest.tokens {
        [Token::Sign(Sign::Comma), tokens @ ..] => Ok(Rest { tokens, ..rest }),
        _ => Err(LineRefusal::Fault(FaultKind::Shape)),
    }
}

/// The longest expression at the front. The depth is the greatest of those that were read.
#[tactic(auto, unfolding(crate::specs::ReadingsOfParts::value_at))]
pub fn value_at(alloc: Global, rest: Rest) -> Result<(Expr, Rest), LineRefusal>
    ensures { Gives (λ x. (x.0, left x.1)) result (value_at (left rest.entry)) }
{
    let ((value, depth), tokens) = expr_at(alloc, rest.tokens)?;
    let depth = rest.depth.max(depth);
    Ok((value, Rest { tokens, depth }))
}

/// `..` at the front.
#[tactic(auto, unfolding(crate::specs::ReadingsOfParts::dots_at))]
pub fn dots_at(rest: Rest) -> Result<Rest, LineRefusal>
    ensures { Gives left result (dots_at (left rest.entry)) }
{
    match rest.tokens {
        [Token::Sign(Sign::Dots), tokens @ ..] => Ok(Rest { tokens, ..rest }),
        _ => Err(LineRefusal::Fault(FaultKind::Shape)),
    }
}

/// `=` at the front.
#[tactic(auto, unfolding(crate::specs::ReadingsOfParts::set_at))]
pub fn set_at(rest: Rest) -> Result<Rest, LineRefusal>
    ensures { Gives left result (set_at (left rest.entry)) }
{
    match rest.tokens {
        [Token::Sign(Sign::Set), tokens @ ..] => Ok(Rest { tokens, ..rest }),
        _ => Err(LineRefusal::Fault(FaultKind::Shape)),
    }
}

// `[` at the front.
#[tactic(auto, unfolding(crate::specs::ReadingsOfParts::open_at))]
fn open_at(rest: Rest) -> Result<Rest, LineRefusal>
    ensures { Gives left result (open_at (left rest.entry)) }
{
    match rest.tokens {
        [Token::Sign(Sign::OpenSquare), tokens @ ..] => Ok(Rest { tokens, ..rest }),
        _ => Err(LineRefusal::Fault(FaultKind::Shape)),
    }
}

// `]` at the front.
#[tactic(auto, unfolding(crate::specs::ReadingsOfParts::close_at))]
fn close_at(rest: Rest) -> Result<Rest, LineRefusal>
    ensures { Gives left result (close_at (left rest.entry)) }
{
    match rest.tokens {
        [Token::Sign(Sign::CloseSquare), tokens @ ..] => Ok(Rest { tokens, ..rest }),
        _ => Err(LineRefusal::Fault(FaultKind::Shape)),
    }
}

/// `NAME [ expr .. expr ]` at the front.
#[tactic(auto, unfolding(crate::specs::ReadingsOfParts::span_at))]
pub fn span_at(alloc: Global, rest: Rest) -> Result<(SpanText, Rest), LineRefusal>
    ensures { Gives (λ x. (x.0, left x.1)) result (span_at (left rest.entry)) }
{
    let (array, rest) = name_at(alloc, rest)?;
    let rest = open_at(rest)?;
    let (from, rest) = value_at(alloc, rest)?;
    let rest = dots_at(rest)?;
    let (to, rest) = value_at(alloc, rest)?;
    let rest = close_at(rest)?;
    Ok((SpanText { array, from, to }, rest))
}
