//! The header of a trace.
ghost use Rattle.std.specs.Prelude.{◌≡◌, ℕ, ◌<◌, ◌≤◌, ◌^◌, ◌++◌, List, [], Some, pos, ◌∷◌, IsTrue, ◌↔◌, IfSome};
ghost use Rattle.report_lines.specs.Lines.{numbers_text};
ghost use Rattle.trace_lines.specs.Reading.{HasRanges, FitsHeader, header_numbers, IsHeader};

use crate::number::{take_byte, take_count, take_short};

/// The header of a trace: the version of its format, the ranks, the workers, and the greatest number of cells of an eager send.
#[derive(Clone, Copy, Debug, PartialEq, Eq)]
pub struct Header {
    pub version: u8,
    pub ranks: u16,
    pub workers: u16,
    pub eager: u32,
}

// The header whose numbers the bytes are.
#[tactic(auto, using(crate::proofs::Headers::four_numbers))]
fn numbers_of(bytes: &[u8]) -> Option<Header>
    ensures some { IfSome result (λ header. bytes.now ≡ numbers_text (header_numbers header)) }
    ensures only { (header : Header) → FitsHeader header → bytes.now ≡ numbers_text (header_numbers header) → result ≡ Some header }
{
    let (version, ranks_on) = take_byte(bytes)?;
    let (ranks, workers_on) = take_short(ranks_on)?;
    let (workers, eager_on) = take_short(workers_on)?;
    let (eager, rest) = take_count(eager_on)?;
    if !rest.is_empty() {
        return None;
    }
    Some(Header {
        version,
        ranks,
        workers,
        eager,
    })
}

// Whether the numbers of the header are in range.
fn has_ranges(header: Header) -> bool
    ensures { IsTrue result ↔ HasRanges header }
{
    header.version == 1
        && 1 <= header.ranks
        && header.ranks <= 64
        && 1 <= header.workers
        && header.workers <= 64
        && header.eager <= 16_777_216
}

/// The header that the line is, without the end of the line. `None` where it is none: a wrong word, a number that is missing, too much, not in plain
/// decimal or out of range, or anything but one blank before each number.
pub fn header_of(line: &[u8]) -> Option<Header>
    ensures some { IfSome result (λ header. IsHeader line.now header) }
    ensures only { (header : Header) → IsHeader line.now header → result ≡ Some header }
{
    let [b'%', b't', b'r', b'a', b'c', b'e', numbers @ ..] = line else {
        return None;
    };
    let header = numbers_of(numbers)?;
    if has_ranges(header) {
        Some(header)
    } else {
        None
    }
}
