//! The operands of calls, waits and kernels, each from the front of the tokens.

ghost use Rattle.std.specs.Prelude.{◌≡◌, ◌∷◌, [], ◌<◌, length, Ok, IfSome, option_map};
ghost use Rattle.task_tree.specs.Reading.{Gives};
ghost use Rattle.task_parse.specs.Statements.{has_status};
ghost use Rattle.task_parse.specs.ReadingsOfParts.{left};
ghost use Rattle.task_parse.specs.ReadingsOfOperands.{named_handle, handle_at, peer_at, tag_at, on_at, status_at, own_status_at, comma_name, names_behind, names_at, next_span, next_value, more_of};

use crate::part::{Rest, comma_at, name_at, span_at, value_at};
use rt_base::{FaultKind, How, Name};
use std::alloc::Global;
use task_tree::{Expr, Key, LineRefusal, PeerText, Sign, SpanText, TagText, Token};

// Whether the call may have a status of its own.
fn has_status(how: How) -> bool
    ensures { result ≡ has_status how }
{
    match how {
        How::Recv => true,
        How::Send | How::Ssend | How::Isend | How::Issend | How::Irecv => false,
    }
}

// A handle, and the comma behind it.
#[tactic(auto, unfolding(crate::specs::ReadingsOfOperands::named_handle))]
fn named_handle(alloc: Global, rest: Rest) -> Result<(Option<Name>, Rest), LineRefusal>
    ensures { Gives (λ x. (x.0, left x.1)) result (named_handle (left rest.entry)) }
{
    let (name, rest) = name_at(alloc, rest)?;
    let rest = comma_at(rest)?;
    Ok((Some(name), rest))
}

/// The handle of a call that doesn't block. A blocking call has none.
pub fn handle_at(alloc: Global, how: How, rest: Rest) -> Result<(Option<Name>, Rest), LineRefusal>
    ensures { Gives (λ x. (x.0, left x.1)) result (handle_at how (left rest.entry)) }
{
    if how.blocks() {
        return Ok((None, rest));
    }
    named_handle(alloc, rest)
}

/// An expression, `null`, and in a receive `any`.
#[tactic(auto, unfolding(crate::specs::ReadingsOfOperands::peer_at))]
pub fn peer_at(alloc: Global, how: How, rest: Rest) -> Result<(PeerText, Rest), LineRefusal>
    ensures { Gives (λ x. (x.0, left x.1)) result (peer_at how (left rest.entry)) }
{
    match rest.tokens {
        [Token::Key(Key::Null), tokens @ ..] => Ok((PeerText::Null, Rest { tokens, ..rest })),
        [Token::Key(Key::Any), tokens @ ..] => {
            if how.is_receive() {
                Ok((PeerText::Any, Rest { tokens, ..rest }))
            } else {
                Err(LineRefusal::Fault(FaultKind::Shape))
            }
        }
        _ => {
            let (value, rest) = value_at(alloc, rest)?;
            Ok((PeerText::At(value), rest))
        }
    }
}

/// An expression, and in a receive `any`.
#[tactic(auto, unfolding(crate::specs::ReadingsOfOperands::tag_at))]
pub fn tag_at(alloc: Global, how: How, rest: Rest) -> Result<(TagText, Rest), LineRefusal>
    ensures { Gives (λ x. (x.0, left x.1)) result (tag_at how (left rest.entry)) }
{
    match rest.tokens {
        [Token::Key(Key::Any), tokens @ ..] => {
            if how.is_receive() {
                Ok((TagText::Any, Rest { tokens, ..rest }))
            } else {
                Err(LineRefusal::Fault(FaultKind::Shape))
            }
        }
        _ => {
            let (value, rest) = value_at(alloc, rest)?;
            Ok((TagText::At(value), rest))
        }
    }
}

/// The communicator, where `on` names one.
#[tactic(auto, unfolding(crate::specs::ReadingsOfOperands::on_at))]
pub fn on_at(alloc: Global, rest: Rest) -> Result<(Option<Name>, Rest), LineRefusal>
    ensures { Gives (λ x. (x.0, left x.1)) result (on_at (left rest.entry)) }
{
    match rest.tokens {
        [Token::Key(Key::On), tokens @ ..] => {
            let (name, rest) = name_at(alloc, Rest { tokens, ..rest })?;
            Ok((Some(name), rest))
        }
        _ => Ok((None, rest)),
    }
}

/// The status span, where there is one.
#[tactic(auto, unfolding(crate::specs::ReadingsOfOperands::status_at))]
pub fn status_at(alloc: Global, rest: Rest) -> Result<(Option<SpanText>, Rest), LineRefusal>
    ensures { Gives (λ x. (x.0, left x.1)) result (status_at (left rest.entry)) }
{
    match rest.tokens {
        [Token::Key(Key::Status), tokens @ ..] => {
            let (span, rest) = span_at(alloc, Rest { tokens, ..rest })?;
            Ok((Some(span), rest))
        }
        _ => Ok((None, rest)),
    }
}

/// The status span of a call that may have one of its own.
pub fn own_status_at(
    alloc: Global,
    how: How,
    rest: Rest,
) -> Result<(Option<SpanText>, Rest), LineRefusal>
    ensures { Gives (λ x. (x.0, left x.1)) result (own_status_at how (left rest.entry)) }
{
    if !has_status(how) {
        return Ok((None, rest));
    }
    status_at(alloc, rest)
}

// A comma and a name at the front, if they stand there.
fn comma_name(tokens: &[Token]) -> Option<(&Name, &[Token])>
    ensures found { option_map (λ x. (x.0.now, x.1.now)) result ≡ comma_name tokens.now }
    ensures shorter { IfSome result (λ x. length x.1.now < length tokens.now) }
{
    match tokens {
        [Token::Sign(Sign::Comma), Token::Name(name), more @ ..] => Some((name, more)),
        _ => None,
    }
}

// The name, and all that stand behind a comma each.
#[tactic(auto, using(crate::proofs::ListSteps::name_more, crate::proofs::ListSteps::no_more_names))]
fn names_behind(
    alloc: Global,
    first: Name,
    tokens: &[Token],
) -> Result<(Vec<Name>, &[Token]), LineRefusal>
    ensures { Gives (λ x. (x.0.items, x.1.now)) result (Ok (names_behind (first ∷ []) tokens.now)) }
{
    let mut names = Vec::new(alloc);
    names.push(first)?;
    let mut rest = tokens;
    while let Some((name, more)) = comma_name(rest) {
        names.push(name.copy(alloc)?)?;
        rest = more;
    }
    Ok((names, rest))
}

/// One name or more.
#[tactic(auto, unfolding(crate::specs::ReadingsOfOperands::names_at))]
pub fn names_at(alloc: Global, rest: Rest) -> Result<(Vec<Name>, Rest), LineRefusal>
    ensures { Gives (λ x. (x.0.items, left x.1)) result (names_at (left rest.entry)) }
{
    let (first, rest) = name_at(alloc, rest)?;
    let (names, tokens) = names_behind(alloc, first, rest.tokens)?;
    Ok((names, Rest { tokens, ..rest }))
}

// A comma and a span at the front.
#[tactic(auto, unfolding(crate::specs::ReadingsOfOperands::next_span))]
fn next_span(alloc: Global, rest: Rest) -> Result<(SpanText, Rest), LineRefusal>
    ensures { Gives (λ x. (x.0, left x.1)) result (next_span (left rest.entry)) }
{
    span_at(alloc, comma_at(rest)?)
}

// A comma and an expression at the front.
#[tactic(auto, unfolding(crate::specs::ReadingsOfOperands::next_value))]
fn next_value(alloc: Global, rest: Rest) -> Result<(Expr, Rest), LineRefusal>
    ensures { Gives (λ x. (x.0, left x.1)) result (next_value (left rest.entry)) }
{
    value_at(alloc, comma_at(rest)?)
}

/// The spans, with so many more, each behind a comma.
#[tactic(auto, using(crate::proofs::ListSteps::one_more, crate::proofs::ListSteps::refused, crate::proofs::ListSteps::all_read))]
pub fn spans_behind(
    alloc: Global,
    spans: Vec<SpanText>,
    count: usize,
    rest: Rest,
) -> Result<(Vec<SpanText>, Rest), LineRefusal>
    ensures { Gives (λ x. (x.0.items, left x.1)) result (more_of next_span spans.items count (left rest.entry)) }
{
    let mut all = spans;
    let mut here = rest;
    for _ in 0..count {
        let (span, more) = next_span(alloc, here)?;
        all.push(span)?;
        here = more;
    }
    Ok((all, here))
}

/// The values, with so many more, each behind a comma.
#[tactic(auto, using(crate::proofs::ListSteps::one_more, crate::proofs::ListSteps::refused, crate::proofs::ListSteps::all_read))]
pub fn values_behind(
    alloc: Global,
    values: Vec<Expr>,
    count: usize,
    rest: Rest,
) -> Result<(Vec<Expr>, Rest), LineRefusal>
    ensures { Gives (λ x. (x.0.items, left x.1)) result (more_of next_value values.items count (left rest.entry)) }
{
    let mut all = values;
    let mut here = rest;
    for _ in 0..count {
        let (value, more) = next_value(alloc, here)?;
        all.push(value)?;
        here = more;
    }
    Ok((all, here))
}
