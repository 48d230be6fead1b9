//! What a line tells.
ghost use Rattle.std.specs.Prelude.{◌≡◌, ℕ, ◌<◌, ◌≤◌, ◌^◌, ◌++◌, List, [], ◌∷◌, Some, pos, length, IfOk, IfSome, MatchOption, All, codes};
ghost use Rattle.std.specs.List.{flat_map};
ghost use Rattle.rt_base.specs.declared.data.Status.{Status};
ghost use Rattle.report_lines.specs.Lines.{numbers_text, status_numbers};
ghost use Rattle.trace_lines.specs.Reading.{FitsStatus, Told, IsLineOf, told_of, word_text, without_return};

use crate::entry::{ToldEntry, Word, call_of, poll_of, return_of, start_of, word_of};
use crate::number::take_count;
use crate::statuses::statuses_of;
use rt_base::{Entry, Status, TaskNo};
use std::alloc::{AllocError, Global};

/// The line without one CR at its end.
pub fn without_return(line: &[u8]) -> &[u8]
    ensures { result.now ≡ without_return line.now }
{
    match line {
        [front @ .., b'\r'] => front,
        _ => line,
    }
}

// The statuses whose numbers the bytes are, and how many they are.
fn counted_statuses(alloc: Global, bytes: &[u8]) -> Result<Option<(u32, Vec<Status>)>, AllocError>
    ensures some { IfOk result (λ found. IfSome found (λ x. bytes.now ≡ numbers_text (flat_map status_numbers x.1.items))) }
    ensures count { IfOk result (λ found. IfSome found (λ x. (x.0 ≡ length x.1.items) × (x.0 < 2 ^ 32))) }
    ensures only { IfOk result (λ found. (told : List Status) → All FitsStatus told → length told < 2 ^ 32
        → bytes.now ≡ numbers_text (flat_map status_numbers told) → MatchOption found ⊥ (λ x. x.1.items ≡ told)) }
    ensures fits { IfOk result (λ found. IfSome found (λ x. All FitsStatus x.1.items)) }
{
    let Some(statuses) = statuses_of(alloc, bytes)? else {
        return Ok(None);
    };
    match u32::try_from(statuses.len()) {
        Ok(count) => Ok(Some((count, statuses))),
        Err(_) => Ok(None),
    }
}

// The entry of a line `leave T K` and statuses, of which these are the numbers.
fn leave_of(alloc: Global, numbers: &[u8], before: u32) -> Result<Option<ToldEntry>, AllocError>
    ensures some { IfOk result (λ found. IfSome found (λ read. IsLineOf before (codes "leave" ++ numbers.now) (told_of read))) }
    ensures only { IfOk result (λ found. (told : Told) → IsLineOf before (codes "leave" ++ numbers.now) told
        → MatchOption found ⊥ (λ read. told_of read ≡ told)) }
{
    let Some((task, op_on)) = take_count(numbers) else {
        return Ok(None);
    };
    let Some((op, rest)) = take_count(op_on) else {
        return Ok(None);
    };
    let Some((count, statuses)) = counted_statuses(alloc, rest)? else {
        return Ok(None);
    };
    let step = Entry::Leave {
        task: TaskNo(task),
        op,
        from: before,
        count,
    };
    Ok(Some(ToldEntry { step, statuses }))
}

// The entry of a line `release T` and statuses, of which these are the numbers.
fn release_of(alloc: Global, numbers: &[u8], before: u32) -> Result<Option<ToldEntry>, AllocError>
    ensures some { IfOk result (λ found. IfSome found (λ read. IsLineOf before (codes "release" ++ numbers.now) (told_of read))) }
    ensures only { IfOk result (λ found. (told : Told) → IsLineOf before (codes "release" ++ numbers.now) told
        → MatchOption found ⊥ (λ read. told_of read ≡ told)) }
{
    let Some((task, rest)) = take_count(numbers) else {
        return Ok(None);
    };
    let Some((count, statuses)) = counted_statuses(alloc, rest)? else {
        return Ok(None);
    };
    let step = Entry::Release {
        task: TaskNo(task),
        from: before,
        count,
    };
    Ok(Some(ToldEntry { step, statuses }))
}

// The entry of a line with this word and these numbers.
fn entry_of(
    alloc: Global,
    word: Word,
    numbers: &[u8],
    before: u32,
) -> Result<Option<ToldEntry>, AllocError>
    ensures some { IfOk result (λ found. IfSome found (λ read. IsLineOf before (word_text word ++ numbers.now) (told_of read))) }
    ensures only { IfOk result (λ found. (told : Told) → IsLineOf before (word_text word ++ numbers.now) told
        → MatchOption found ⊥ (λ read. told_of read ≡ told)) }
{
    match word {
        Word::Start => Ok(start_of(alloc, numbers)),
        Word::Call => Ok(call_of(alloc, numbers)),
        Word::Leave => leave_of(alloc, numbers, before),
        Word::Return => Ok(return_of(alloc, numbers)),
        Word::Release => release_of(alloc, numbers, before),
        Word::Poll => Ok(poll_of(alloc, numbers)),
    }
}

/// What the line tells behind so many statuses: one entry, and the statuses that it names. `None` where the line is unreadable: a wrong word, a number
/// that is missing, too much, not in plain decimal or too large for its field, statuses that are no whole groups of four, or anything but one blank
/// before each number. The line comes without the end of the line. `Err` for want of memory alone. The time grows with the line.
#[tactic(auto, using(crate::proofs::Entries::has_word))]
pub fn told_of(alloc: Global, line: &[u8], before: u32) -> Result<Option<ToldEntry>, AllocError>
    ensures some { IfOk result (λ found. IfSome found (λ read. IsLineOf before line.now (told_of read))) }
    ensures only { IfOk result (λ found. (told : Told) → IsLineOf before line.now told → MatchOption found ⊥ (λ read. told_of read ≡ told)) }
{
    let Some((word, numbers)) = word_of(line) else {
        return Ok(None);
    };
    entry_of(alloc, word, numbers, before)
}
