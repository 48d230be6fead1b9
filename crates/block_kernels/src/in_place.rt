//! The kernels whose destination is one of their sources: each cell is made of its own old value. They work on one slice.

ghost use Rattle.std.specs.Prelude.{◌≡◌, ◌+◌, ◌≤◌, length};
ghost use Rattle.block_kernels.specs.Kernels.{added, subtracted, scaled, shifted, copied_along};

/// Adds cell by cell, wrapping: the destination is the left source.
pub fn add_to_left(dst: &mut [i64], right: &[i64])
    requires { length dst.old ≡ length right.now }
    ensures { dst.new ≡ added dst.old right.now }
{
    for i in 0..dst.len() {
        dst[i] = dst[i].wrapping_add(right[i]);
    }
}

/// Adds cell by cell, wrapping: the destination is the right source.
pub fn add_to_right(dst: &mut [i64], left: &[i64])
    requires { length dst.old ≡ length left.now }
    ensures { dst.new ≡ added left.now dst.old }
{
    for i in 0..dst.len() {
        dst[i] = left[i].wrapping_add(dst[i]);
    }
}

/// Adds each cell to itself, wrapping: the destination is both sources.
pub fn add_to_both(dst: &mut [i64])
    ensures { dst.new ≡ added dst.old dst.old }
{
    for i in 0..dst.len() {
        dst[i] = dst[i].wrapping_add(dst[i]);
    }
}

/// Subtracts `right` from the destination cell by cell, wrapping: the destination is the left source.
pub fn sub_to_left(dst: &mut [i64], right: &[i64])
    requires { length dst.old ≡ length right.now }
    ensures { dst.new ≡ subtracted dst.old right.now }
{
    for i in 0..dst.len() {
        dst[i] = dst[i].wrapping_sub(right[i]);
    }
}

/// Subtracts the destination from `left` cell by cell, wrapping: the destination is the right source.
pub fn sub_to_right(dst: &mut [i64], left: &[i64])
    requires { length dst.old ≡ length left.now }
    ensures { dst.new ≡ subtracted left.now dst.old }
{
    for i in 0..dst.len() {
        dst[i] = left[i].wrapping_sub(dst[i]);
    }
}

/// Subtracts each cell from itself: the destination is both sources.
pub fn sub_to_both(dst: &mut [i64])
    ensures { dst.new ≡ subtracted dst.old dst.old }
{
    for i in 0..dst.len() {
        dst[i] = dst[i].wrapping_sub(dst[i]);
    }
}

/// Multiplies each cell by the value, wrapping.
pub fn scale_to_left(dst: &mut [i64], value: i64)
    ensures { dst.new ≡ scaled dst.old value }
{
    for i in 0..dst.len() {
        dst[i] = dst[i].wrapping_mul(value);
    }
}

/// Shifts each cell right by `value` places, keeping its sign.
pub fn shift_to_left(dst: &mut [i64], value: u32)
    requires { value ≤ 63 }
    ensures { dst.new ≡ shifted dst.old value }
{
    for i in 0..dst.len() {
        dst[i] = dst[i] >> value;
    }
}

/// Copies so many cells that begin at one place to those that begin at another. The two may share cells.
pub fn copy_along(cells: &mut [i64], from: usize, to: usize, count: usize)
    requires from_fits { from + count ≤ length cells.old }
    requires to_fits { to + count ≤ length cells.old }
    ensures { cells.new ≡ copied_along from to count cells.old }
{
    cells.copy_within(from..from + count, to);
}
