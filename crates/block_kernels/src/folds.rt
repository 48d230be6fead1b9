//! The kernels that make one number of all cells: by eight lanes, and then the lanes and the cells that are left one by one.

ghost use Rattle.std.specs.Prelude.{◌≡◌, ◌+◌, ◌*◌, ◌/◌, ◌<◌, ◌≤◌, pos, length, take, fold};
ghost use Rattle.std.specs.Int.{int_min, int_max};
ghost use Rattle.std.specs.Simd.Lanes.{zip2};
ghost use Rattle.block_kernels.specs.Kernels.{total, least_of, greatest_of, IsLeast, IsGreatest};
ghost use Rattle.block_kernels.specs.Lanes.{wrapped_sum, Fit, AreAt};

use std::simd::i64x8;

/// The sum of the cells, wrapping, and 0 where there is none.
pub fn sum(left: &[i64]) -> i64
    ensures { result ≡ total left.now }
{
    let whole = left.len() / 8 * 8;
    let lanes = sum_by_lanes(left);
    sum_from(sum_from(0, &lanes), &left[whole..])
}

/// The least of the cells.
pub fn least(left: &[i64]) -> i64
    requires { 0 < length left.now }
    ensures least { IsLeast left.now result }
    ensures value { result ≡ least_of left.now }
{
    let whole = left.len() / 8 * 8;
    let first = left[0];
    let lanes = least_by_lanes(first, left);
    least_from(least_from(first, &lanes), &left[whole..])
}

/// The greatest of the cells.
pub fn greatest(left: &[i64]) -> i64
    requires { 0 < length left.now }
    ensures greatest { IsGreatest left.now result }
    ensures value { result ≡ greatest_of left.now }
{
    let whole = left.len() / 8 * 8;
    let first = left[0];
    let lanes = greatest_by_lanes(first, left);
    greatest_from(greatest_from(first, &lanes), &left[whole..])
}

// The sums of eight lanes, of which each takes every eighth cell as long as there are eight.
fn sum_by_lanes(left: &[i64]) -> [i64; 8]
    ensures { fold wrapped_sum (pos 0) result ≡ fold wrapped_sum (pos 0) (take (length left.now / 8 * 8) left.now) }
{
    let mut lanes = i64x8::splat(0);
    for k in 0..left.len() / 8 {
        lanes = added_lanes(lanes, lanes_at(left, 8 * k));
    }
    lanes.to_array()
}

// The least numbers of eight lanes, which begin with the first.
fn least_by_lanes(first: i64, left: &[i64]) -> [i64; 8]
    ensures { fold int_min first result ≡ fold int_min first (take (length left.now / 8 * 8) left.now) }
{
    let mut lanes = i64x8::splat(first);
    for k in 0..left.len() / 8 {
        lanes = least_lanes(lanes, lanes_at(left, 8 * k));
    }
    lanes.to_array()
}

// The greatest numbers of eight lanes, which begin with the first.
fn greatest_by_lanes(first: i64, left: &[i64]) -> [i64; 8]
    ensures { fold int_max first result ≡ fold int_max first (take (length left.now / 8 * 8) left.now) }
{
    let mut lanes = i64x8::splat(first);
    for k in 0..left.len() / 8 {
        lanes = greatest_lanes(lanes, lanes_at(left, 8 * k));
    }
    lanes.to_array()
}

// Adds lane by lane, wrapping.
fn added_lanes(one: i64x8, other: i64x8) -> i64x8
    requires one { Fit one }
    requires other { Fit other }
    ensures value { result ≡ zip2 wrapped_sum one other }
    ensures fit { Fit result }
{
    one + other
}

// The lesser number of each lane.
fn least_lanes(one: i64x8, other: i64x8) -> i64x8
    requires one { Fit one }
    requires other { Fit other }
    ensures value { result ≡ zip2 int_min one other }
    ensures fit { Fit result }
{
    one.simd_min(other)
}

// The greater number of each lane.
fn greatest_lanes(one: i64x8, other: i64x8) -> i64x8
    requires one { Fit one }
    requires other { Fit other }
    ensures value { result ≡ zip2 int_max one other }
    ensures fit { Fit result }
{
    one.simd_max(other)
}

// Eight cells that begin at this one.
fn lanes_at(cells: &[i64], at: usize) -> i64x8
    requires { at + 8 ≤ length cells.now }
    ensures cells { AreAt cells.now at result }
    ensures fit { Fit result }
{
    i64x8::from_array([
        cells[at],
        cells[at + 1],
        cells[at + 2],
        cells[at + 3],
        cells[at + 4],
        cells[at + 5],
        cells[at + 6],
        cells[at + 7],
    ])
}

// The sum of a number and the cells, wrapping.
fn sum_from(first: i64, left: &[i64]) -> i64
    ensures { result ≡ fold wrapped_sum first left.now }
{
    let mut so_far = first;
    for i in 0..left.len() {
        so_far = so_far.wrapping_add(left[i]);
    }
    so_far
}

// The least of a number and the cells.
fn least_from(first: i64, left: &[i64]) -> i64
    ensures { result ≡ fold int_min first left.now }
{
    let mut so_far = first;
    for i in 0..left.len() {
        so_far = so_far.min(left[i]);
    }
    so_far
}

// The greatest of a number and the cells.
fn greatest_from(first: i64, left: &[i64]) -> i64
    ensures { result ≡ fold int_max first left.now }
{
    let mut so_far = first;
    for i in 0..left.len() {
        so_far = so_far.max(left[i]);
    }
    so_far
}
