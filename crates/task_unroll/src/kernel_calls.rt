//! What a kernel asks of its operands.

ghost use Rattle.std.specs.Prelude.{◌≡◌};
ghost use Rattle.task_unroll.specs.Checks.{differs, has_wrong_length, has_bad_shift, has_no_source};
ghost use Rattle.task_unroll.specs.Acts.{kernel_call};

use rt_base::{FaultKind, Kernel, Op, Span};

/// Two lengths differ, where there is a source.
pub(crate) fn differs(len: u128, source: Option<Span>) -> bool
    ensures { result ≡ differs len source }
{
    match source {
        None => false,
        Some(source) => source.len() as u128 != len,
    }
}

/// The destination or a source has a length that the kernel doesn't take.
pub(crate) fn has_wrong_length(
    kernel: Kernel,
    dst: Span,
    left: Option<Span>,
    right: Option<Span>,
) -> bool
    ensures { result ≡ has_wrong_length kernel dst left right }
{
    let len = dst.len() as u128;
    match kernel {
        Kernel::Fill => false,
        Kernel::Ramp => false,
        Kernel::Copy => differs(len, left),
        Kernel::Add => differs(len, left) || differs(len, right),
        Kernel::Sub => differs(len, left) || differs(len, right),
        Kernel::Scale => differs(len, left),
        Kernel::Shift => differs(len, left),
        Kernel::Jacobi2 => differs(len + 2, left),
        Kernel::Sum => len != 1,
        Kernel::Least => len != 1,
        Kernel::Greatest => len != 1,
    }
}

/// A shift that isn't by 0 to 63 places.
pub(crate) fn has_bad_shift(kernel: Kernel, value: i64) -> bool
    ensures { result ≡ has_bad_shift kernel value }
{
    match kernel {
        Kernel::Shift => value < 0 || 63 < value,
        _ => false,
    }
}

/// The least or the greatest of no cells.
pub(crate) fn has_no_source(kernel: Kernel, left: Option<Span>) -> bool
    ensures { result ≡ has_no_source kernel left }
{
    let Some(source) = left else {
        return false;
    };
    match kernel {
        Kernel::Least => source.len() == 0,
        Kernel::Greatest => source.len() == 0,
        _ => false,
    }
}

/// The operation of a kernel: the destination stands first, then the sources, and then the numbers.
pub(crate) fn kernel_call(kernel: Kernel, spans: &[Span], numbers: &[i64]) -> Result<Op, FaultKind>
    ensures { result ≡ kernel_call kernel spans.now numbers.now }
{
    let [dst, sources @ ..] = spans else {
        return Err(FaultKind::Shape);
    };
    if sources.len() != kernel.sources() || numbers.len() != kernel.numbers() {
        return Err(FaultKind::Shape);
    }
    Ok(Op::Compute {
        kernel,
        dst: *dst,
        left: sources.get(0).copied(),
        right: sources.get(1).copied(),
        value: numbers.get(0).copied().unwrap_or(0),
        step: numbers.get(1).copied().unwrap_or(0),
    })
}
