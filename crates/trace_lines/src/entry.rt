//! The entries without statuses.
ghost use Rattle.std.specs.Prelude.{◌≡◌, ◌≢◌, ℕ, ◌<◌, ◌≤◌, ◌^◌, ◌++◌, List, [], ◌∷◌, Some, pos, IfSome, IfNone, MatchOption, codes};
ghost use Rattle.report_lines.specs.Lines.{numbers_text};
ghost use Rattle.trace_lines.specs.Reading.{Told, IsLineOf, told_of, word_text};
ghost use Rattle.trace_lines.specs.declared.entry.Word.{Word};

use crate::number::{take_count, take_short};
use rt_base::{Entry, ReqNo, Status, TaskNo};
use std::alloc::Global;

/// An entry, and the statuses that its line tells.
#[derive(Debug, Drop)]
pub struct ToldEntry {
    pub step: Entry,
    pub statuses: Vec<Status>,
}

/// The word that a line begins with.
#[derive(Clone, Copy, Debug, PartialEq, Eq)]
pub enum Word {
    Start,
    Call,
    Leave,
    Return,
    Release,
    Poll,
}

// What follows the word at the front of the line.
#[tactic(auto, using(crate::proofs::Entries::stripped))]
fn behind_word<'a>(line: &'a [u8], word: &[u8]) -> Option<&'a [u8]>
    ensures { MatchOption result ((rest : List ℕ) → line.now ≢ word.now ++ rest) (λ x. line.now ≡ word.now ++ x.now) }
{
    line.strip_prefix(word)
}

/// The word that the line begins with, and what follows it.
#[tactic(auto, using(crate::proofs::Entries::no_word))]
pub fn word_of(line: &[u8]) -> Option<(Word, &[u8])>
    ensures some { IfSome result (λ x. line.now ≡ word_text x.0 ++ x.1.now) }
    ensures none { IfNone result ((word : Word) (rest : List ℕ) → line.now ≢ word_text word ++ rest) }
{
    if let Some(numbers) = behind_word(line, b"start") {
        return Some((Word::Start, numbers));
    }
    if let Some(numbers) = behind_word(line, b"call") {
        return Some((Word::Call, numbers));
    }
    if let Some(numbers) = behind_word(line, b"leave") {
        return Some((Word::Leave, numbers));
    }
    if let Some(numbers) = behind_word(line, b"return") {
        return Some((Word::Return, numbers));
    }
    if let Some(numbers) = behind_word(line, b"release") {
        return Some((Word::Release, numbers));
    }
    if let Some(numbers) = behind_word(line, b"poll") {
        return Some((Word::Poll, numbers));
    }
    None
}

// The number that the bytes are.
fn one_count(numbers: &[u8]) -> Option<u32>
    ensures some { IfSome result (λ n. numbers.now ≡ numbers_text (pos n ∷ [])) }
    ensures only { (n : ℕ) → n < 2 ^ 32 → numbers.now ≡ numbers_text (pos n ∷ []) → MatchOption result ⊥ (λ x. x ≡ n) }
    ensures fits { IfSome result (λ n. n < 2 ^ 32) }
{
    let (count, rest) = take_count(numbers)?;
    if rest.is_empty() { Some(count) } else { None }
}

// The two numbers that the bytes are.
fn two_counts(numbers: &[u8]) -> Option<(u32, u32)>
    ensures some { IfSome result (λ x. numbers.now ≡ numbers_text (pos x.0 ∷ pos x.1 ∷ [])) }
    ensures only { (a b : ℕ) → a < 2 ^ 32 → b < 2 ^ 32 → numbers.now ≡ numbers_text (pos a ∷ pos b ∷ [])
        → MatchOption result ⊥ (λ x. (x.0 ≡ a) × (x.1 ≡ b)) }
    ensures fits { IfSome result (λ x. (x.0 < 2 ^ 32) × (x.1 < 2 ^ 32)) }
{
    let (first, rest) = take_count(numbers)?;
    let second = one_count(rest)?;
    Some((first, second))
}

// The entry, where its line tells no status.
fn plain(alloc: Global, step: Entry) -> ToldEntry
    ensures { told_of result ≡ record { step = step; statuses = [] } }
{
    ToldEntry {
        step,
        statuses: Vec::new(alloc),
    }
}

/// The entry of a line `start T`, of which these are the numbers.
pub fn start_of(alloc: Global, numbers: &[u8]) -> Option<ToldEntry>
    ensures some { IfSome result (λ read. (before : ℕ) → IsLineOf before (codes "start" ++ numbers.now) (told_of read)) }
    ensures only { (before : ℕ) (told : Told) → IsLineOf before (codes "start" ++ numbers.now) told → MatchOption result ⊥ (λ read. told_of read ≡ told) }
{
    let task = one_count(numbers)?;
    Some(plain(alloc, Entry::Start { task: TaskNo(task) }))
}

/// The entry of a line `return T`, of which these are the numbers.
pub fn return_of(alloc: Global, numbers: &[u8]) -> Option<ToldEntry>
    ensures some { IfSome result (λ read. (before : ℕ) → IsLineOf before (codes "return" ++ numbers.now) (told_of read)) }
    ensures only { (before : ℕ) (told : Told) → IsLineOf before (codes "return" ++ numbers.now) told → MatchOption result ⊥ (λ read. told_of read ≡ told) }
{
    let task = one_count(numbers)?;
    Some(plain(alloc, Entry::Return { task: TaskNo(task) }))
}

/// The entry of a line `call T K PENDING`, of which these are the numbers.
pub fn call_of(alloc: Global, numbers: &[u8]) -> Option<ToldEntry>
    ensures some { IfSome result (λ read. (before : ℕ) → IsLineOf before (codes "call" ++ numbers.now) (told_of read)) }
    ensures only { (before : ℕ) (told : Told) → IsLineOf before (codes "call" ++ numbers.now) told → MatchOption result ⊥ (λ read. told_of read ≡ told) }
{
    let (task, rest) = take_count(numbers)?;
    let (op, pending) = two_counts(rest)?;
    Some(plain(
        alloc,
        Entry::Call {
            task: TaskNo(task),
            op,
            pending,
        },
    ))
}

/// The entry of a line `poll W T N`, of which these are the numbers.
pub fn poll_of(alloc: Global, numbers: &[u8]) -> Option<ToldEntry>
    ensures some { IfSome result (λ read. (before : ℕ) → IsLineOf before (codes "poll" ++ numbers.now) (told_of read)) }
    ensures only { (before : ℕ) (told : Told) → IsLineOf before (codes "poll" ++ numbers.now) told → MatchOption result ⊥ (λ read. told_of read ≡ told) }
{
    let (poller, rest) = take_short(numbers)?;
    let (task, nth) = two_counts(rest)?;
    let req = ReqNo {
        task: TaskNo(task),
        nth,
    };
    Some(plain(alloc, Entry::Poll { poller, req }))
}
