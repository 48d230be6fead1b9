//! The kernels that write each cell of a destination.

ghost use Rattle.std.specs.Prelude.{◌≡◌, ◌+◌, ◌≤◌, length};
ghost use Rattle.block_kernels.specs.Kernels.{filled, ramped, copied, added, subtracted, scaled, shifted, stencil_of, jacobi};

/// Gives each cell the value.
pub fn fill(dst: &mut [i64], value: i64)
    ensures { dst.new ≡ filled (length dst.old) value }
{
    for i in 0..dst.len() {
        dst[i] = value;
    }
}

/// Gives cell i the value `value + i * step`, wrapping.
pub fn ramp(dst: &mut [i64], value: i64, step: i64)
    ensures { dst.new ≡ ramped (length dst.old) value step }
{
    let mut next = value;
    for i in 0..dst.len() {
        dst[i] = next;
        next = next.wrapping_add(step);
    }
}

/// Copies the cells.
pub fn copy(dst: &mut [i64], left: &[i64])
    requires { length dst.old ≡ length left.now }
    ensures { dst.new ≡ copied left.now }
{
    dst.copy_from_slice(left);
}

/// Adds cell by cell, wrapping.
pub fn add(dst: &mut [i64], left: &[i64], right: &[i64])
    requires left_len { length dst.old ≡ length left.now }
    requires right_len { length dst.old ≡ length right.now }
    ensures { dst.new ≡ added left.now right.now }
{
    for i in 0..dst.len() {
        dst[i] = left[i].wrapping_add(right[i]);
    }
}

/// Subtracts `right` from `left` cell by cell, wrapping.
pub fn sub(dst: &mut [i64], left: &[i64], right: &[i64])
    requires left_len { length dst.old ≡ length left.now }
    requires right_len { length dst.old ≡ length right.now }
    ensures { dst.new ≡ subtracted left.now right.now }
{
    for i in 0..dst.len() {
        dst[i] = left[i].wrapping_sub(right[i]);
    }
}

/// Multiplies each cell by the value, wrapping.
pub fn scale(dst: &mut [i64], left: &[i64], value: i64)
    requires { length dst.old ≡ length left.now }
    ensures { dst.new ≡ scaled left.now value }
{
    for i in 0..dst.len() {
        dst[i] = left[i].wrapping_mul(value);
    }
}

/// Shifts each cell right by `value` places, keeping its sign.
pub fn shift(dst: &mut [i64], left: &[i64], value: u32)
    requires len { length dst.old ≡ length left.now }
    requires places { value ≤ 63 }
    ensures { dst.new ≡ shifted left.now value }
{
    for i in 0..dst.len() {
        dst[i] = left[i] >> value;
    }
}

/// The one-dimensional Jacobi stencil in whole numbers: a quarter of a cell's two neighbours and twice the cell itself,
/// rounded down. The sum wraps before it is shifted. `left` has one more cell on each side.
pub fn jacobi2(dst: &mut [i64], left: &[i64])
    requires { length dst.old + 2 ≡ length left.now }
    ensures { dst.new ≡ jacobi left.now }
{
    for i in 0..dst.len() {
        dst[i] = stencil(left[i], left[i + 1], left[i + 2]);
    }
}

// One cell of the stencil.
fn stencil(before: i64, here: i64, after: i64) -> i64
    ensures { result ≡ stencil_of before here after }
{
    let doubled = here.wrapping_mul(2);
    let sum = before.wrapping_add(doubled).wrapping_add(after);
    sum >> 2
}
