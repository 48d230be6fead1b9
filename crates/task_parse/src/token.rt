//! From the bytes of a line to its tokens.

ghost use Rattle.std.specs.Prelude.{◌≡◌};
ghost use Rattle.task_tree.specs.Reading.{Gives};
ghost use Rattle.task_parse.specs.Tokens.{number_token, word_token, number_at, word_at, sign_at, first_token, tokens_of};

use crate::bytes::{after_blanks, begins_name, behind, digits, front, is_over, word};
use crate::signs::{sign_of_one, sign_of_two};
use crate::words::key_of;
use rt_base::{FaultKind, Name};
use std::alloc::Global;
use task_tree::{LineRefusal, Token};

/// The greatest length of a name, in bytes.
pub const MAX_NAME: usize = 32;

// The first number past the range.
const NUMBERS_END: u128 = 1 << 63;

// A number past the range is a fault.
#[tactic(auto, using(crate::proofs::Numbers::one_more))]
fn number_token(digits: &[u8]) -> Result<Token, LineRefusal>
    ensures { Gives (λ t. t) result (number_token digits.now) }
{
    let mut value: u128 = 0;
    for digit in digits {
        value = value * 10 + u128::from(digit.saturating_sub(b'0'));
        if value >= NUMBERS_END {
            return Err(LineRefusal::Fault(FaultKind::Number));
        }
    }
    Ok(Token::Number(value as i64))
}

// A word is a reserved one or a name, and a name that is too long is a fault.
fn word_token(alloc: Global, word: &[u8]) -> Result<Token, LineRefusal>
    ensures { Gives (λ t. t) result (word_token word.now) }
{
    if word.len() > MAX_NAME {
        return Err(LineRefusal::Fault(FaultKind::Name));
    }
    if let Some(key) = key_of(word) {
        return Ok(Token::Key(key));
    }
    Ok(Token::Name(Name::from_slice(alloc, word)?))
}

fn number_at(text: &[u8]) -> Result<(Token, usize), LineRefusal>
    ensures { Gives (λ t. t) result (number_at text.now) }
{
    let digits = digits(text);
    let token = number_token(digits)?;
    Ok((token, digits.len()))
}

fn word_at(alloc: Global, text: &[u8]) -> Result<(Token, usize), LineRefusal>
    ensures { Gives (λ t. t) result (word_at text.now) }
{
    let word = word(text);
    let token = word_token(alloc, word)?;
    Ok((token, word.len()))
}

// The longest sign is taken.
fn sign_at(text: &[u8]) -> Result<(Token, usize), LineRefusal>
    ensures { Gives (λ t. t) result (sign_at text.now) }
{
    if let Some(sign) = sign_of_two(front(text, 2)) {
        return Ok((Token::Sign(sign), 2));
    }
    match sign_of_one(front(text, 1)) {
        Some(sign) => Ok((Token::Sign(sign), 1)),
        None => Err(LineRefusal::Fault(FaultKind::Byte)),
    }
}

// The token that the text begins with, and the number of its bytes.
#[tactic(auto, unfolding(crate::specs::Tokens::first_token))]
fn first_token(alloc: Global, text: &[u8]) -> Result<(Token, usize), LineRefusal>
    ensures { Gives (λ t. t) result (first_token text.now) }
{
    match text {
        [] => Err(LineRefusal::Fault(FaultKind::Byte)),
        [byte, ..] if byte.is_ascii_digit() => number_at(text),
        [byte, ..] if begins_name(*byte) => word_at(alloc, text),
        _ => sign_at(text),
    }
}

/// The tokens of a line, or the fault of its first faulty one.
#[tactic(auto, using(crate::proofs::Cuts::begins, crate::proofs::Cuts::goes_on, crate::proofs::Cuts::ends, crate::proofs::Cuts::fails, crate::proofs::Cuts::len_above, crate::proofs::Cuts::len_within))]
pub fn tokens_of(alloc: Global, line: &[u8]) -> Result<Vec<Token>, LineRefusal>
    ensures { Gives (λ v. v.items) result (tokens_of line.now) }
{
    let mut tokens = Vec::new(alloc);
    let mut rest = line;
    loop {
        rest = after_blanks(rest);
        if is_over(rest) {
            return Ok(tokens);
        }
        let (token, len) = first_token(alloc, rest)?;
        tokens.push(token)?;
        rest = behind(rest, len);
    }
}
