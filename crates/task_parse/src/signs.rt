//! The signs, as their bytes.

ghost use Rattle.std.specs.Prelude.{◌≡◌};
ghost use Rattle.task_parse.specs.Signs.{sign_of_two, sign_of_one};

use crate::words::is;
use task_tree::Sign;

/// The sign of two bytes that these bytes are. None for all others.
#[tactic(auto, unfolding(crate::specs::Signs::sign_of_two))]
pub fn sign_of_two(bytes: &[u8]) -> Option<Sign>
    ensures { result ≡ sign_of_two bytes.now }
{
    if is(bytes, "..") {
        Some(Sign::Dots)
    } else if is(bytes, "==") {
        Some(Sign::Same)
    } else if is(bytes, "!=") {
        Some(Sign::Differs)
    } else if is(bytes, "<=") {
        Some(Sign::AtMost)
    } else if is(bytes, ">=") {
        Some(Sign::AtLeast)
    } else {
        None
    }
}

/// The sign of one byte that these bytes are. None for all others.
#[tactic(auto, unfolding(crate::specs::Signs::sign_of_one))]
pub fn sign_of_one(bytes: &[u8]) -> Option<Sign>
    ensures { result ≡ sign_of_one bytes.now }
{
    if is(bytes, "+") {
        Some(Sign::Plus)
    } else if is(bytes, "-") {
        Some(Sign::Minus)
    } else if is(bytes, "*") {
        Some(Sign::Times)
    } else if is(bytes, "/") {
        Some(Sign::Over)
    } else if is(bytes, "%") {
        Some(Sign::Rest)
    } else if is(bytes, "(") {
        Some(Sign::OpenRound)
    } else if is(bytes, ")") {
        Some(Sign::CloseRound)
    } else if is(bytes, "[") {
        Some(Sign::OpenSquare)
    } else if is(bytes, "]") {
        Some(Sign::CloseSquare)
    } else if is(bytes, ",") {
        Some(Sign::Comma)
    } else if is(bytes, "=") {
        Some(Sign::Set)
    } else if is(bytes, "<") {
        Some(Sign::Below)
    } else if is(bytes, ">") {
        Some(Sign::Above)
    } else {
        None
    }
}
