//! The statuses of a line.
ghost use Rattle.std.specs.Prelude.{◌≡◌, ℕ, ◌<◌, ◌≤◌, ◌^◌, ◌++◌, List, [], ◌∷◌, Some, pos, length, IsTrue, IfOk, IfSome, MatchOption, All, ℤ};
ghost use Rattle.std.specs.List.{flat_map};
ghost use Rattle.report_lines.specs.Lines.{number_text, numbers_text, status_numbers};
ghost use Rattle.trace_lines.specs.Reading.{ends_number, FitsStatus};

use crate::number::{take_byte, take_count, take_whole};
use rt_base::Status;
use std::alloc::{AllocError, Global};

// The status whose four numbers stand at the front, and what follows it.
fn take_status(bytes: &[u8]) -> Option<(Status, &[u8])>
    ensures some { IfSome result (λ x. bytes.now ≡ numbers_text (status_numbers x.0) ++ x.1.now) }
    ensures only { (status : Status) (rest : List ℕ) → FitsStatus status → IsTrue (ends_number rest)
        → bytes.now ≡ numbers_text (status_numbers status) ++ rest → MatchOption result ⊥ (λ x. (x.0 ≡ status) × (x.1.now ≡ rest)) }
    ensures fits { IfSome result (λ x. FitsStatus x.0) }
{
    let (source, tag_on) = take_whole(bytes)?;
    let (tag, count_on) = take_whole(tag_on)?;
    let (count, error_on) = take_count(count_on)?;
    let (error, rest) = take_byte(error_on)?;
    Some((
        Status {
            source,
            tag,
            count,
            error,
        },
        rest,
    ))
}

/// The statuses whose numbers the bytes are, in whole groups of four.
#[tactic(auto, using(crate::proofs::Groups::begins, crate::proofs::Groups::shorter))]
pub fn statuses_of(alloc: Global, bytes: &[u8]) -> Result<Option<Vec<Status>>, AllocError>
    ensures some { IfOk result (λ found. IfSome found (λ told. bytes.now ≡ numbers_text (flat_map status_numbers told.items))) }
    ensures only { IfOk result (λ found. (told : List Status) → All FitsStatus told → bytes.now ≡ numbers_text (flat_map status_numbers told)
        → MatchOption found ⊥ (λ read. read.items ≡ told)) }
    ensures fits { IfOk result (λ found. IfSome found (λ told. All FitsStatus told.items)) }
{
    let mut told = Vec::new(alloc);
    let mut rest = bytes;
    while !rest.is_empty() {
        let Some((status, behind)) = take_status(rest) else {
            return Ok(None);
        };
        told.push(status)?;
        rest = behind;
    }
    Ok(Some(told))
}
