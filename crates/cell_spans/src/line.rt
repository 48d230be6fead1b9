//! The line on which the cells of all arrays of a rank lie.

ghost use Rattle.std.specs.Prelude.{◌≡◌, Option, option_map};
ghost use Rattle.cell_spans.specs.Line.{place, interval_of, IsSmall};

use rt_base::Span;

/// The places `begin` up to but not including `end` of the line. It has one at least.
#[derive(Clone, Copy, Debug)]
pub(crate) struct Interval {
    pub(crate) begin: u64,
    pub(crate) end: u64,
}

/// Where a cell lies: each array has room for all cells that a number names.
pub(crate) fn place(array: u16, cell: u32) -> u64
    ensures { result ≡ place array cell }
{
    array as u64 * 0x1_0000_0000 + cell as u64
}

/// Where the cells of the span lie, if it has any.
pub(crate) fn interval_of(span: Span) -> Option<Interval>
    ensures interval { result ≡ interval_of span }
    ensures small { IsSmall span }
{
    if span.to <= span.from {
        return None;
    }
    Some(Interval {
        begin: place(span.array, span.from),
        end: place(span.array, span.to),
    })
}
