//! Parts of the copy, as kernels read and write them.

ghost use Rattle.std.specs.Prelude.{◌≡◌, ◌+◌, ◌≤◌, length, IsTrue, ◌↔◌};
ghost use Rattle.rt_base.specs.Spans.{span_len};
ghost use Rattle.task_local.specs.Kept.{place_in, source_place, source_len, AreApart, AreSame, FitsBeside, IsSeenBeside};

use crate::index::RegionIndex;
use rt_base::Span;

/// A part of the copy: its first place, and how many cells it has.
#[derive(Clone, Copy)]
pub(crate) struct Part {
    pub(crate) at: usize,
    pub(crate) count: usize,
}

// Where a span lies in the copy.
pub(crate) fn part_of_span(index: &RegionIndex, span: Span) -> Part
    ensures at { result.at ≡ place_in index.now span.array span.from }
    ensures count { result.count ≡ span_len span }
{
    Part {
        at: index.place_of(span.array, span.from),
        count: span.len() as usize,
    }
}

// Where a source lies in the copy; at its front and without a cell where there is no such source.
pub(crate) fn part_of_source(index: &RegionIndex, source: Option<Span>) -> Part
    ensures at { result.at ≡ source_place index.now source }
    ensures count { result.count ≡ source_len source }
{
    match source {
        Some(span) => part_of_span(index, span),
        None => Part { at: 0, count: 0 },
    }
}

// Whether a destination lies apart from both sources.
pub(crate) fn is_apart_from_sources(dst: Part, left: Part, right: Part) -> bool
    ensures { IsTrue result ↔ (AreApart dst.at dst.count left.at left.count × AreApart dst.at dst.count right.at right.count) }
{
    is_apart(dst, left) && is_apart(dst, right)
}

// Whether one part ends before the other begins.
pub(crate) fn is_apart(one: Part, other: Part) -> bool
    ensures { IsTrue result ↔ AreApart one.at one.count other.at other.count }
{
    ends_by(one, other.at) || ends_by(other, one.at)
}

// Whether both are the same part.
pub(crate) fn is_same(one: Part, other: Part) -> bool
    ensures { IsTrue result ↔ AreSame one.at one.count other.at other.count }
{
    one.at == other.at && one.count == other.count
}

// Whether the part ends before this place.
fn ends_by(part: Part, place: usize) -> bool
    ensures { IsTrue result ↔ (part.at + part.count ≤ place) }
{
    part.at <= place && part.count <= place - part.at
}

// The cells of a part that lies in the front of the copy, or in its back, which begins at this place.
pub(crate) fn cells_beside<'c>(
    front: &'c [i64],
    back: &'c [i64],
    begins: usize,
    part: Part,
) -> &'c [i64]
    requires fits { FitsBeside (length front.now) (length back.now) begins part.at part.count }
    ensures { IsSeenBeside front.now back.now begins part.at part.count result.now }
{
    if ends_by(part, front.len()) {
        return &front[part.at..part.at + part.count];
    }
    let at = part.at - begins;
    &back[at..at + part.count]
}
